//! The search for the first choice that clears: back from the last demand, what can still clear; then forward from the
//! first demand, the first bundle from which the later demands can.
ghost use Rattle.std.specs.Prelude.{◌≡◌, length, IfOk};
ghost use Rattle.std.specs.List.{AllByRecursion};
ghost use Rattle.lot_base.specs.Choices.{first_choice};
ghost use Rattle.lot_base.specs.Demands.{IsDemand};
ghost use Rattle.award_assembly.specs.Remaining.{AreReaches};

use crate::assembly::Choice;
use crate::reach::{Reach, sum_of};
use crate::units::Units;
use demand_set::Demand;
use lot_base::{Goods, Prices};
use std::alloc::{AllocError, Global};

/// The first choice that clears.
pub(crate) fn first_clearing(
    alloc: Global,
    goods: &Goods,
    opening: &Prices,
    prices: &Prices,
    demands: &[Demand],
) -> Result<Option<Choice>, AllocError>
    requires opening { length opening.now ≡ length goods.now }
    requires prices { length prices.now ≡ length goods.now }
    requires demands { AllByRecursion (λ d. IsDemand goods.now d) demands.now }
    ensures { IfOk result (λ choice. choice ≡ first_choice goods.now opening.now prices.now demands.now) }
{
    let reaches = reaches(alloc, goods, opening, prices, demands)?;
    if !reaches[demands.len()].has(0) {
        return Ok(None);
    }
    let mut taken = goods.bundle(0);
    let mut bundles = Vec::new(alloc);
    for place in 0..demands.len() {
        let behind = &reaches[demands.len() - 1 - place];
        match behind.first(goods, &demands[place], &taken) {
            Some(bundle) => {
                bundles.push(bundle)?;
                taken = sum_of(goods, &taken, &bundle);
            }
            None => return Ok(None),
        }
    }
    Ok(Some(Choice::from_vec(bundles)))
}

/// What the last demands can still make clear: at place k, the last k.
fn reaches(
    alloc: Global,
    goods: &Goods,
    opening: &Prices,
    prices: &Prices,
    demands: &[Demand],
) -> Result<Vec<Reach>, AllocError>
    requires opening { length opening.now ≡ length goods.now }
    requires prices { length prices.now ≡ length goods.now }
    requires demands { AllByRecursion (λ d. IsDemand goods.now d) demands.now }
    ensures { IfOk result (λ v. AreReaches goods.now opening.now prices.now demands.now (length demands.now) v.items) }
{
    let units = Units::new(alloc, goods)?;
    let mut reaches = Vec::new(alloc);
    reaches.push(Reach::last(alloc, goods, opening, prices)?)?;
    for done in 0..demands.len() {
        let demand = &demands[demands.len() - 1 - done];
        let reach = reaches[done].before(alloc, goods, &units, demand)?;
        reaches.push(reach)?;
    }
    Ok(reaches)
}
