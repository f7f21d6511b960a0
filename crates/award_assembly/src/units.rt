//! The units of the bundles of the box, all goods together.
//!
//! The place of a bundle is a number with a digit per good, and its units are the sum of the digits. Two places that are
//! added have as many units together as the place of their sum exactly where nothing is carried from one digit to the next:
//! a carry takes one more than the supply of a good away, and adds 1 to the good before. So one comparison tells whether two
//! bundles are within the supply together.
ghost use Rattle.std.specs.Prelude.{◌≡◌, ◌<◌, ◌^◌, length, sum, IfOk};
ghost use Rattle.award_assembly.specs.Units.{AreUnits};

use lot_base::{Bundle, Goods};
use std::alloc::{AllocError, Global};
use std::marker::Model;

/// How many units of all goods together each bundle of the box has, at the bundle's place.
#[derive(Drop)]
pub(crate) struct Units {
    /// A number for each place of the box, at most 2,047.
    counts: Vec<u16>,
}

impl Model for Units {
    ghost use Rattle.std.specs.Prelude.{ℕ, List};

    ghost Value = { List ℕ };

    ghost view = { λ u. u.counts.items };
}

impl Units {
    /// The units of the bundles of these goods.
    pub(crate) fn new(alloc: Global, goods: &Goods) -> Result<Units, AllocError>
        ensures { IfOk result (AreUnits goods.now) }
    {
        let _goods = goods.count();
        let size = goods.box_size();
        let mut counts = Vec::with_capacity(alloc, size as usize)?;
        for place in 0..size {
            counts.push(units_of(&goods.bundle(place)))?;
        }
        Ok(Units { counts })
    }

    /// The units, at the places of the bundles.
    pub(crate) fn as_slice(&self) -> &[u16]
        ensures { result.now ≡ self.now }
    {
        &self.counts
    }
}

/// How many units of all goods together a bundle has.
fn units_of(bundle: &Bundle) -> u16
    requires { sum bundle.now < 2 ^ 16 }
    ensures { result ≡ sum bundle.now }
{
    bundle.as_slice().iter().sum()
}
