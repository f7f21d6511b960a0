//! Where the quantities of reports stand in a buffer.
ghost use Rattle.std.specs.Prelude.{◌≡◌, ◌<◌, ◌≤◌, ◌+◌, ◌*◌, ◌==◌, ◌^◌, ℕ, List, length, take, drop, find, reverse, option_copied, option_map, true, Some, OnOk, IfSome, IsTrue, ◌↔◌};
ghost use Rattle.std.specs.Vec.{vec_len, vec_capacity};
ghost use Rattle.demand_set.specs.Reading.{groups};
ghost use Rattle.demand_set.specs.Same.{same_demand};
ghost use Rattle.clock.specs.Past.{Fits, IsStoredAt, quantities_of};
ghost use Rattle.clock.specs.declared.kept_quantities.Place.{Place as PlaceValue};

use demand_set::Demand;
use lot_base::{GoodSet, NoMemory};

/// A report whose demand has so many bundles, with the quantities from a place on.
#[derive(Clone, Copy, Debug)]
pub(crate) struct Place {
    /// Who reported it, from 1.
    pub bidder: u8,
    /// In which round, from 1.
    pub round: u32,
    /// Where the quantities begin.
    pub start: u32,
    /// How many bundles there are.
    pub count: u32,
}

/// The first place of a bidder.
pub(crate) fn place_of(places: &[Place], bidder: u8) -> Option<&Place>
    ensures { option_copied result ≡ find (λ (p : PlaceValue). p.bidder == bidder) places.now }
{
    places.iter().find(|place| place.bidder == bidder)
}

/// The latest place of a bidder.
pub(crate) fn latest_place(places: &[Place], bidder: u8) -> Option<&Place>
    ensures { option_copied result ≡ find (λ (p : PlaceValue). p.bidder == bidder) (reverse places.now) }
{
    places.iter().rev().find(|place| place.bidder == bidder)
}

/// Whether the quantities at two places are as many bundles and the same. Where they share their quantities, it looks at none.
pub(crate) fn has_same(quantities: &[u16], goods: u8, first: &Place, second: &Place) -> bool
    requires first { Fits goods quantities.now first.now }
    requires second { Fits goods quantities.now second.now }
    ensures { IsTrue result ↔ ((first.now.count ≡ second.now.count)
        × (quantities_of goods quantities.now first.now ≡ quantities_of goods quantities.now second.now)) }
{
    if first.count != second.count {
        return false;
    }
    first.start == second.start
        || quantities_at(quantities, goods, first) == quantities_at(quantities, goods, second)
}

/// The first place of a bidder once more, in another round.
pub(crate) fn place_again(places: &[Place], bidder: u8, round: u32) -> Place
    ensures { (p : PlaceValue) → find (λ (q : PlaceValue). q.bidder == bidder) places.now ≡ Some p → result ≡ record p { round = round } }
{
    let (start, count) = match place_of(places, bidder) {
        Some(place) => (place.start, place.count),
        None => (0, 0),
    };
    Place {
        bidder,
        round,
        start,
        count,
    }
}

/// The quantities at a place.
pub(crate) fn quantities_at<'a>(quantities: &'a [u16], goods: u8, place: &Place) -> &'a [u16]
    requires { Fits goods quantities.now place.now }
    ensures { result.now ≡ quantities_of goods quantities.now place.now }
{
    let others = quantities.split_at(place.start as usize).1;
    &others[..place.count as usize * goods as usize]
}

/// Keeps these quantities after the others, and tells where they stand.
pub(crate) fn keep(quantities: &mut Vec<u16>, more: &[u16]) -> u32
    requires room { length quantities.old.items + length more.now ≤ vec_capacity quantities.old }
    requires few { length quantities.old.items + length more.now < 2 ^ 32 }
    ensures stored { IsStoredAt quantities.old.items quantities.new.items result more.now }
    ensures capacity { vec_capacity quantities.old ≤ vec_capacity quantities.new }
{
    let start = quantities.len() as u32;
    let _in_room = quantities.extend_from_slice(more);
    start
}

/// Whether quantities of so many bundles are those of a demand.
pub(crate) fn is_demand(kept: &[u16], goods: u8, count: u32, demand: &Demand) -> bool
    requires some { 1 ≤ goods }
    requires whole { length kept.now ≡ count * goods }
    ensures { result ≡ same_demand (groups count goods kept.now) demand.now }
{
    count == demand.len() && kept == demand.quantities()
}

/// Makes room for so many more reports and quantities. What is kept stays, whatever is answered.
pub(crate) fn make_room(
    quantities: &mut Vec<u16>,
    places: &mut Vec<Place>,
    sets: &mut Vec<GoodSet>,
    reports: u32,
    more: u32,
) -> Result<(), NoMemory>
    ensures places { (places.new.items ≡ places.old.items) × (vec_capacity places.old ≤ vec_capacity places.new) }
    ensures quantities { (quantities.new.items ≡ quantities.old.items) × (vec_capacity quantities.old ≤ vec_capacity quantities.new) }
    ensures sets { (sets.new.items ≡ sets.old.items) × (vec_capacity sets.old ≤ vec_capacity sets.new) }
    ensures room_places { OnOk result (length places.old.items + reports ≤ vec_capacity places.new) }
    ensures room_quantities { OnOk result (length quantities.old.items + more ≤ vec_capacity quantities.new) }
    ensures room_sets { OnOk result (length places.old.items + reports ≤ vec_capacity sets.new) }
    ensures few { OnOk result (length quantities.old.items + more < 2 ^ 32) }
{
    if quantities.len() + more as usize > u32::MAX as usize {
        return Err(NoMemory);
    }
    let steps = places.len() + reports as usize;
    quantities.reserve(more as usize)?;
    places.reserve(reports as usize)?;
    sets.reserve(steps)?;
    Ok(())
}
