//! Whether observations come from a valuation.
ghost use Rattle.std.specs.Prelude.{◌≡◌, ◌<◌, ◌≤◌, ◌^◌, ◌-ℤ◌, pos, ℕ, length, slice_index, slice_index_or, None, IfOk};
ghost use Rattle.lot_base.specs.Goods.{box_size};
ghost use Rattle.std.specs.List.{AllByRecursion};
ghost use Rattle.rationale.specs.declared.limits.TheConstants.{MOST_OBSERVATIONS};
ghost use Rattle.rationale.specs.Kept.{IsStretch, observations_of};
ghost use Rattle.rationale.specs.Decisions.{IsDecision};

use crate::labels::Parent;
use crate::links::Link;
use crate::rationales::Rationale;
use crate::settling::{Ending, no_parents, settle, zero_labels};
use crate::stretches::Stretch;
use crate::writing::cycle_links;
use lot_base::{Goods, NoMemory, Sequence};
use std::alloc::Global;

/// Whether a valuation explains observations.
#[derive(Debug, Drop)]
pub enum Decision {
    /// The values of the bundles of the box, in order of index.
    Rational(Sequence<i64>),
    /// A cycle of links with a sum of weights below 0.
    Cycle(Sequence<Link>),
}

/// How far a label is above another.
fn difference(a: u64, b: u64) -> i64
    requires a { a ≤ 2 ^ 60 }
    requires b { b ≤ 2 ^ 60 }
    ensures { result ≡ pos a -ℤ pos b }
{
    a as i64 - b as i64
}

/// Each label less the first.
fn values_of(alloc: Global, labels: &[u64]) -> Result<Vec<i64>, NoMemory>
    requires some { 0 < length labels.now }
    requires low { (i : ℕ) → i < length labels.now → slice_index labels.now i ≤ 2 ^ 60 }
    ensures long { IfOk result (λ v. length v.items ≡ length labels.now) }
    ensures each { IfOk result (λ v. (i : ℕ) → i < length labels.now →
        slice_index_or v.items i (pos 0) ≡ pos (slice_index labels.now i) -ℤ pos (slice_index labels.now 0)) }
{
    let mut values = Vec::with_capacity(alloc, labels.len())?;
    for place in 0..labels.len() {
        values.push(difference(labels[place], labels[0]))?;
    }
    Ok(values)
}

/// Decides from labels of the number 0 and no parents.
fn decide_on(
    alloc: Global,
    goods: &Goods,
    stretches: &[Stretch],
    costs: &mut [u64],
    gaps: &mut [u64],
    places: &mut [u16],
    labels: &mut [u64],
    parents: &mut [Option<Parent>],
) -> Result<Decision, NoMemory>
    requires stretches { AllByRecursion (IsStretch goods.now) stretches.now }
    requires few { length (observations_of stretches.now) ≤ MOST_OBSERVATIONS }
    requires costs { length costs.old ≡ box_size goods.now }
    requires gaps { length gaps.old ≡ box_size goods.now }
    requires places { length places.old ≡ box_size goods.now }
    requires labels { length labels.old ≡ box_size goods.now }
    requires parents { length parents.old ≡ box_size goods.now }
    requires zero { (i : ℕ) → i < box_size goods.now → slice_index labels.old i ≡ 2 ^ 60 }
    requires none { (i : ℕ) → slice_index_or parents.old i None ≡ None }
    ensures { IfOk result (IsDecision goods.now (observations_of stretches.now)) }
{
    let ending = settle(
        alloc, goods, stretches, costs, gaps, places, labels, parents,
    )?;
    match ending {
        Ending::Least => {
            let values = values_of(alloc, labels)?;
            Ok(Decision::Rational(Sequence::from_vec(values)))
        }
        Ending::Cycle(around) => {
            let links = cycle_links(alloc, goods, &around, parents)?;
            Ok(Decision::Cycle(Sequence::from_vec(links)))
        }
    }
}

/// Room for so many numbers.
fn room_for_numbers(alloc: Global, count: usize) -> Result<Vec<u64>, NoMemory>
    ensures { IfOk result (λ v. length v.items ≡ count) }
{
    Ok(vec![in alloc; 0u64; count]?)
}

/// Room for so many places.
fn room_for_places(alloc: Global, count: usize) -> Result<Vec<u16>, NoMemory>
    ensures { IfOk result (λ v. length v.items ≡ count) }
{
    Ok(vec![in alloc; 0u16; count]?)
}

/// The least weights of the bundles, each less that of the empty bundle, or a negative cycle.
fn decide_kept(alloc: Global, goods: &Goods, stretches: &[Stretch]) -> Result<Decision, NoMemory>
    requires stretches { AllByRecursion (IsStretch goods.now) stretches.now }
    requires few { length (observations_of stretches.now) ≤ MOST_OBSERVATIONS }
    ensures { IfOk result (IsDecision goods.now (observations_of stretches.now)) }
{
    let size = goods.box_size() as usize;
    let mut costs = room_for_numbers(alloc, size)?;
    let mut gaps = room_for_numbers(alloc, size)?;
    let mut places = room_for_places(alloc, size)?;
    let mut labels = zero_labels(alloc, size)?;
    let mut parents = no_parents(alloc, size)?;
    decide_on(
        alloc,
        goods,
        stretches,
        &mut costs,
        &mut gaps,
        &mut places,
        &mut labels,
        &mut parents,
    )
}

impl Rationale {
    ghost use Rattle.rationale.specs.Observations.{AreObservations};

    /// Whether a valuation explains all observations: the values of one that does, or a cycle of links that shows that none does.
    pub fn decide(&self, alloc: Global) -> Result<Decision, NoMemory>
        ensures decision { IfOk result (IsDecision self.now.supply self.now.observations) }
        ensures observations { AreObservations self.now.supply self.now.observations }
    {
        decide_kept(alloc, &self.goods, &self.stretches)
    }
}
