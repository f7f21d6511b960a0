//! The climb from a place along its parents.
ghost use Rattle.std.specs.Prelude.{◌≡◌, ◌<◌, ℕ, length, slice_index, slice_index_or, None, IfSome, IfNone, IfOk};
ghost use Rattle.rationale.specs.Shown.{parent_of};
ghost use Rattle.rationale.specs.Climbs.{IsAround, Rooted};

use crate::labels::Parent;
use lot_base::NoMemory;
use std::alloc::Global;

/// A climb that comes back to a place of its path.
#[derive(Debug, Drop)]
pub(crate) struct Around {
    /// The places, the first one first.
    pub(crate) path: Vec<u16>,
    /// Where the place stands to which it comes back.
    pub(crate) first: usize,
}

/// Where a place stands in a path.
fn place_in(path: &[u16], at: u16) -> Option<usize>
    ensures some { IfSome result (λ i. (i < length path.now) × (slice_index path.now i ≡ at)) }
    ensures none { IfNone result ((i : ℕ) → i < length path.now → slice_index path.now i ≡ at → ⊥) }
{
    for i in 0..path.len() {
        if path[i] == at {
            return Some(i);
        }
    }
    None
}

/// Climbs from a place to one without a parent, which answers None, or until it comes back to a place of its path.
pub(crate) fn climb(
    alloc: Global,
    parents: &[Option<Parent>],
    start: u16,
) -> Result<Option<Around>, NoMemory>
    requires start { start < length parents.now }
    requires inside { (y : ℕ) → IfSome (slice_index_or parents.now y None) (λ p. p.x < length parents.now) }
    ensures some { IfOk result (λ r. IfSome r (λ a. IsAround (parent_of parents.now) (length parents.now) a.path.items a.first)) }
    ensures none { IfOk result (λ r. IfNone r (Rooted (parent_of parents.now) start (length parents.now))) }
{
    let mut path = Vec::with_capacity(alloc, parents.len())?;
    let mut at = start;
    for step in 0..parents.len() + 1 {
        if let Some(first) = place_in(&path, at) {
            return Ok(Some(Around { path, first }));
        }
        path.push(at)?;
        match parents[at as usize] {
            None => return Ok(None),
            Some(parent) => at = parent.x,
        }
    }
    Ok(None)
}
