//! Labels of places, and how an observation lowers them.
//!
//! A label is kept 2^60 above the number that it stands for, so that none is ever below 0.
ghost use Rattle.std.specs.Prelude.{◌≡◌, ◌↔◌, ◌<◌, ◌≤◌, ◌+◌, ◌^◌, ℕ, length, slice_index, IfSome, IfNone, IsTrue};
ghost use Rattle.rationale.specs.Steps.{IsStep, AreSteps};

/// What last lowered the label of a place.
#[derive(Clone, Copy, Debug)]
pub(crate) struct Parent {
    /// The observation's place, from 0.
    pub(crate) observation: u32,
    /// The place from which it was lowered.
    pub(crate) x: u16,
}

/// From where an observation lowers labels.
#[derive(Clone, Copy, Debug)]
pub(crate) struct Start {
    /// Which of the observation's places it is.
    pub(crate) which: usize,
    /// Its label less its cost.
    pub(crate) excess: u64,
}

/// The place of the least label less its cost, among the places of a demand.
pub(crate) fn least_start(labels: &[u64], costs: &[u64], places: &[u16]) -> Start
    requires some { 1 ≤ length places.now }
    requires long { length costs.now ≡ length labels.now }
    requires inside { (j : ℕ) → j < length places.now → slice_index places.now j < length labels.now }
    requires lifted { (i : ℕ) → i < length labels.now → slice_index costs.now i ≤ slice_index labels.now i }
    ensures which { result.which < length places.now }
    ensures reached { result.excess + slice_index costs.now (slice_index places.now result.which)
        ≡ slice_index labels.now (slice_index places.now result.which) }
    ensures least { (j : ℕ) → j < length places.now →
        result.excess + slice_index costs.now (slice_index places.now j) ≤ slice_index labels.now (slice_index places.now j) }
{
    let first = places[0] as usize;
    let mut which: usize = 0;
    let mut excess = labels[first] - costs[first];
    for j in 1..places.len() {
        let place = places[j] as usize;
        let here = labels[place] - costs[place];
        if here < excess {
            which = j;
            excess = here;
        }
    }
    Start { which, excess }
}

/// Lowers a label to a number below it, and makes the parent its own.
fn lower_one(label: &mut u64, parent: &mut Option<Parent>, next: u64, new: Parent) -> bool
    ensures step { IsStep next new label.old parent.old label.new parent.new }
    ensures lowered { IsTrue result ↔ (next < label.old) }
{
    if next < *label {
        *label = next;
        *parent = Some(new);
        true
    } else {
        false
    }
}

/// Lowers each label to the excess and the place's cost less its gap, where that is less; tells the last place that fell.
pub(crate) fn lower(
    labels: &mut [u64],
    parents: &mut [Option<Parent>],
    costs: &[u64],
    gaps: &[u64],
    excess: u64,
    new: Parent,
) -> Option<usize>
    requires parents { length parents.old ≡ length labels.old }
    requires costs { length costs.now ≡ length labels.old }
    requires gaps { length gaps.now ≡ length labels.old }
    requires fits { (i : ℕ) → i < length labels.old → excess + slice_index costs.now i < 2 ^ 64 }
    requires positive { (i : ℕ) → i < length labels.old → slice_index gaps.now i ≤ excess + slice_index costs.now i }
    ensures labels { length labels.new ≡ length labels.old }
    ensures parents { length parents.new ≡ length labels.old }
    ensures steps { AreSteps excess costs.now gaps.now new labels.old parents.old labels.new parents.new (length labels.old) }
    ensures some { IfSome result (λ y. (y < length labels.old) × (slice_index labels.new y < slice_index labels.old y)) }
    ensures none { IfNone result ((y : ℕ) → y < length labels.old → slice_index labels.new y ≡ slice_index labels.old y) }
{
    let mut last = None;
    for place in 0..labels.len() {
        let next = excess + costs[place] - gaps[place];
        if lower_one(&mut labels[place], &mut parents[place], next, new) {
            last = Some(place);
        }
    }
    last
}
