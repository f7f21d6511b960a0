//! Passes over the observations, until no label falls or a cycle is found.
ghost use Rattle.std.specs.Prelude.{◌≡◌, ◌<◌, ◌≤◌, ◌^◌, ℕ, length, slice_index, slice_index_or, Option, None, IfOk};
ghost use Rattle.std.specs.List.{AllByRecursion};
ghost use Rattle.lot_base.specs.Goods.{box_size};
ghost use Rattle.rationale.specs.declared.limits.TheConstants.{MOST_OBSERVATIONS};
ghost use Rattle.rationale.specs.Kept.{IsStretch, thinned};
ghost use Rattle.rationale.specs.Endings.{IsEnding};

use crate::climbing::{Around, climb};
use crate::labels::Parent;
use crate::observing::{Passed, pass};
use crate::stretches::Stretch;
use lot_base::{Goods, NoMemory};
use std::alloc::Global;

/// Why passes end.
#[derive(Debug, Drop)]
pub(crate) enum Ending {
    /// The labels are least.
    Least,
    /// The parents have a cycle.
    Cycle(Around),
}

/// So many labels of the number 0.
pub(crate) fn zero_labels(alloc: Global, count: usize) -> Result<Vec<u64>, NoMemory>
    ensures long { IfOk result (λ v. length v.items ≡ count) }
    ensures each { IfOk result (λ v. (i : ℕ) → i < count → slice_index v.items i ≡ 2 ^ 60) }
{
    let mut labels = Vec::with_capacity(alloc, count)?;
    for place in 0..count {
        labels.push(1u64 << 60)?;
    }
    Ok(labels)
}

/// So many places without a parent.
pub(crate) fn no_parents(alloc: Global, count: usize) -> Result<Vec<Option<Parent>>, NoMemory>
    ensures long { IfOk result (λ v. length v.items ≡ count) }
    ensures each { IfOk result (λ v. (i : ℕ) → slice_index_or v.items i None ≡ None) }
{
    let mut parents = Vec::with_capacity(alloc, count)?;
    for place in 0..count {
        parents.push(None)?;
    }
    Ok(parents)
}

/// Passes over the stretches, from labels of the number 0 and no parents, until no label falls or a cycle is found.
pub(crate) fn settle(
    alloc: Global,
    goods: &Goods,
    stretches: &[Stretch],
    costs: &mut [u64],
    gaps: &mut [u64],
    places: &mut [u16],
    labels: &mut [u64],
    parents: &mut [Option<Parent>],
) -> Result<Ending, NoMemory>
    requires stretches { AllByRecursion (IsStretch goods.now) stretches.now }
    requires few { length (thinned stretches.now) ≤ MOST_OBSERVATIONS }
    requires costs { length costs.old ≡ box_size goods.now }
    requires gaps { length gaps.old ≡ box_size goods.now }
    requires places { length places.old ≡ box_size goods.now }
    requires labels { length labels.old ≡ box_size goods.now }
    requires parents { length parents.old ≡ box_size goods.now }
    requires zero { (i : ℕ) → i < box_size goods.now → slice_index labels.old i ≡ 2 ^ 60 }
    requires none { (i : ℕ) → slice_index_or parents.old i None ≡ None }
    ensures labels { length labels.new ≡ box_size goods.now }
    ensures parents { length parents.new ≡ box_size goods.now }
    ensures low { (i : ℕ) → i < box_size goods.now → slice_index labels.new i ≤ 2 ^ 60 }
    ensures ending { IfOk result (IsEnding goods.now (thinned stretches.now) labels.new parents.new) }
{
    let _count = goods.count();
    for done in 0..goods.box_size() {
        let passed = pass(
            alloc, goods, stretches, costs, gaps, places, labels, parents,
        )?;
        let place = match passed {
            Passed::Settled => return Ok(Ending::Least),
            Passed::Fell(place) => place as u16,
            Passed::Contradicted(around) => return Ok(Ending::Cycle(around)),
        };
        if let Some(around) = climb(alloc, parents, place)? {
            return Ok(Ending::Cycle(around));
        }
    }
    Ok(Ending::Least)
}
