//! How a cycle is written as links.
ghost use Rattle.std.specs.Prelude.{◌≡◌, ◌↔◌, ◌<◌, ◌≤◌, ◌+◌, ◌-◌, ◌++◌, ℕ, ℤ, List, [], length, slice_index};
ghost use Rattle.std.specs.Prelude.{IfOk, OnOk, IsTrue};
ghost use Rattle.std.specs.List.{list_any};
ghost use Rattle.lot_base.specs.Goods.{box_size};
ghost use Rattle.rationale.specs.Observations.{Observation};
ghost use Rattle.rationale.specs.Links.{IsNegativeCycle};
ghost use Rattle.rationale.specs.Climbs.{IsAround, IsSound};
ghost use Rattle.rationale.specs.Shown.{parent_of};
ghost use Rattle.rationale.specs.Places.{links_of, is_edge, edge_weight};
ghost use Rattle.rationale.specs.Turned.{AreParents, edges_of, link_list, EdgePrecedes, ComesBefore, IsLeastOf};
ghost use Rattle.rationale.specs.Decisions.{IsFromLeast};

use crate::climbing::Around;
use crate::labels::Parent;
use crate::links::Link;
use lot_base::{Goods, NoMemory};
use std::alloc::Global;

/// Writes the links by which the places were lowered, the last place's first.
fn links_from(
    alloc: Global,
    goods: &Goods,
    places: &[u16],
    parents: &[Option<Parent>],
) -> Result<Vec<Link>, NoMemory>
    requires places { (k : ℕ) → k < length places.now → slice_index places.now k < box_size goods.now }
    requires parents { length parents.now ≡ box_size goods.now }
    requires inside { AreParents (box_size goods.now) parents.now }
    ensures { IfOk result (λ v. v.items ≡ links_of goods.now (edges_of (parent_of parents.now) places.now) []) }
{
    let mut links = Vec::with_capacity(alloc, places.len())?;
    for written in 0..places.len() {
        add_link(
            &mut links,
            goods,
            places[places.len() - 1 - written],
            parents,
        )?;
    }
    Ok(links)
}

/// Writes the link by which a place was lowered, if it was.
fn add_link(
    links: &mut Vec<Link>,
    goods: &Goods,
    y: u16,
    parents: &[Option<Parent>],
) -> Result<(), NoMemory>
    requires place { y < box_size goods.now }
    requires parents { length parents.now ≡ box_size goods.now }
    requires inside { AreParents (box_size goods.now) parents.now }
    ensures { OnOk result (links.new.items ≡ links.old.items ++ link_list goods.now (parent_of parents.now y)) }
{
    if let Some(parent) = parents[y as usize] {
        links.push(Link {
            observation: parent.observation + 1,
            x: goods.bundle(parent.x as u32),
            y: goods.bundle(y as u32),
        })?;
    }
    Ok(())
}

/// After which place of the cycle the path is turned: the place whose link is least.
fn turning_place(path: &[u16], first: usize, parents: &[Option<Parent>]) -> usize
    requires first { first < length path.now }
    requires places { (k : ℕ) → k < length path.now → slice_index path.now k < length parents.now }
    ensures behind { first < result }
    ensures within { result ≤ length path.now }
    ensures least { IsLeastOf (parent_of parents.now) path.now first (length path.now) (result - 1) }
{
    let mut least = first;
    for place in first + 1..path.len() {
        if comes_before(parents, path[place], path[least]) {
            least = place;
        }
    }
    least + 1
}

/// Whether the link by which y was lowered comes before that of z.
fn comes_before(parents: &[Option<Parent>], y: u16, z: u16) -> bool
    requires y { y < length parents.now }
    requires z { z < length parents.now }
    ensures { IsTrue result ↔ ComesBefore (parent_of parents.now y) (parent_of parents.now z) }
{
    match (parents[y as usize], parents[z as usize]) {
        (Some(a), Some(b)) => precedes(a, y, b, z),
        _ => false,
    }
}

/// Whether the link to y comes before that to z: by observation, then by where it starts, then by where it ends.
fn precedes(a: Parent, y: u16, b: Parent, z: u16) -> bool
    ensures { IsTrue result ↔ EdgePrecedes (record { observation = a.observation; x = a.x; y = y })
        (record { observation = b.observation; x = b.x; y = z }) }
{
    if a.observation != b.observation {
        a.observation < b.observation
    } else if a.x != b.x {
        a.x < b.x
    } else {
        y < z
    }
}

/// The links of a cycle, from its least one on.
pub(crate) fn cycle_links(
    alloc: Global,
    goods: &Goods,
    around: &Around,
    parents: &[Option<Parent>],
) -> Result<Vec<Link>, NoMemory>
    requires parents { length parents.now ≡ box_size goods.now }
    requires inside { AreParents (box_size goods.now) parents.now }
    requires around { IsAround (parent_of parents.now) (box_size goods.now) around.now.path.items around.now.first }
    ensures cycle { (os : List Observation) (m : ℕ → ℤ) →
        IsSound (is_edge goods.now os) (edge_weight goods.now os) m (parent_of parents.now) →
        IfOk result (λ v. IsNegativeCycle goods.now os v.items) }
    ensures few { IfOk result (λ v. length v.items ≤ box_size goods.now) }
    ensures from_least { IfOk result (λ v. IsFromLeast goods.now v.items) }
{
    let turn = turning_place(&around.path, around.first, parents);
    let behind = around.path.split_at(turn).1;
    let before = &around.path[around.first..turn];
    let mut places = Vec::from_slice(alloc, behind)?;
    places.extend_from_slice(before)?;
    links_from(alloc, goods, &places, parents)
}
