//! The bundles that the members of a clock get: the first choice of one demanded bundle each that clears.
#![tactic(auto)]

ghost use Rattle.std.specs.Prelude.{◌≡◌, length, IfOk};
ghost use Rattle.std.specs.List.{AllByRecursion};
ghost use Rattle.lot_base.specs.Choices.{first_choice};
ghost use Rattle.lot_base.specs.Demands.{IsDemand};
ghost use Rattle.award_assembly.specs.Assembled.{IsAssembly, choice_in};

pub mod assembly;
pub mod laws;
mod reach;
mod search;
mod units;

pub use assembly::{Assembly, Choice};
use demand_set::Demand;
use lot_base::{Goods, NoMemory, Prices};
use std::alloc::Global;

/// The first choice of one bundle of each demand, in lexicographic order of the bundles' places, that clears: together the
/// bundles are within the supply, and all of it on each good with a price above its opening. With no demand the choice is
/// empty, and it clears where no price is above its opening.
pub fn assemble(
    alloc: Global,
    goods: &Goods,
    opening: &Prices,
    prices: &Prices,
    demands: &[Demand],
) -> Result<Assembly, NoMemory>
    requires opening { length opening.now ≡ length goods.now }
    requires prices { length prices.now ≡ length goods.now }
    requires demands { AllByRecursion (λ d. IsDemand goods.now d) demands.now }
    ensures assembly { IfOk result (IsAssembly goods.now opening.now prices.now demands.now) }
    ensures first { IfOk result (λ a. choice_in a ≡ first_choice goods.now opening.now prices.now demands.now) }
{
    match search::first_clearing(alloc, goods, opening, prices, demands) {
        Ok(Some(choice)) => Ok(Assembly::Award(choice)),
        Ok(None) => Ok(Assembly::NoChoice),
        Err(_) => Err(NoMemory),
    }
}
