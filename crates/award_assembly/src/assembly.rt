//! Choices of one bundle per demand.
ghost use Rattle.std.specs.Prelude.{◌≡◌, ◌<◌, length, slice_get, Some};

use lot_base::Bundle;
use std::marker::Model;

/// One bundle of each demand, seen as their list.
#[derive(Debug, Drop)]
pub struct Choice {
    bundles: Vec<Bundle>,
}

impl Model for Choice {
    ghost use Rattle.std.specs.Prelude.{ℕ, List};

    ghost Value = { List (List ℕ) };

    ghost view = { λ c. c.bundles.items };
}

impl Choice {
    /// The choice of these bundles.
    pub fn from_vec(bundles: Vec<Bundle>) -> Choice
        ensures { result ≡ bundles.items }
    {
        Choice { bundles }
    }

    /// The bundles, in the order of the demands.
    pub fn into_vec(self) -> Vec<Bundle>
        ensures { result.items ≡ self }
    {
        self.bundles
    }

    /// How many bundles there are.
    pub fn len(&self) -> usize
        ensures { result ≡ length self.now }
    {
        self.bundles.len()
    }

    /// The bundle of the demand at a place, from 0.
    pub fn get(&self, place: usize) -> Bundle
        requires { place < length self.now }
        ensures { slice_get self.now place ≡ Some result }
    {
        self.bundles[place]
    }
}

/// The award of an auction, or the choice of a clock.
#[derive(Debug, Drop)]
pub enum Assembly {
    /// The first choice that clears.
    Award(Choice),
    /// No choice clears.
    NoChoice,
}
