//! The exchange property of a demand.
ghost use Rattle.std.specs.Prelude.{◌≡◌, ◌↔◌, ◌<◌, ℕ, IsTrue, true, false, length, slice_index_or, IfOk, IfSome, IfNone};
ghost use Rattle.lot_base.specs.Goods.{at, AtMost};
ghost use Rattle.lot_base.specs.Demands.{IsDemand};
ghost use Rattle.overshoot.specs.Exchange.{IsExchanged};
ghost use Rattle.overshoot.specs.Listed.{AreMarks, IsMarked, IsPair};
ghost use Rattle.overshoot.specs.Scanned.{IsRight, IsExchangedFor, IsFirstGood, IsFirstPartner, WithBefore};

use demand_set::Demand;
use lot_base::{Bundle, Goods, NoMemory};
use std::alloc::{AllocError, Global};

/// Whether a demand has the exchange property.
#[derive(Clone, Copy, Debug)]
pub enum SetVerdict {
    /// It has.
    Holds,
    /// The first triple that breaks it, by place of `x`, place of `y`, and good: no unit of the good can go from `x` to `y`, alone
    /// or against a unit of another good, so that both stay in the demand.
    Breaks { x: Bundle, y: Bundle, good: u8 },
}

/// Whether a demand has the exchange property.
pub fn exchange(alloc: Global, goods: &Goods, demand: &Demand) -> Result<SetVerdict, NoMemory>
    requires { IsDemand goods.now demand.now }
    ensures { IfOk result (IsRight demand.now) }
{
    let marks = marks_of(alloc, goods, demand)?;
    Ok(verdict_by(goods, demand, &marks))
}

/// Which bundles of the box the demand has.
fn marks_of(alloc: Global, goods: &Goods, demand: &Demand) -> Result<Vec<bool>, AllocError>
    requires { IsDemand goods.now demand.now }
    ensures { IfOk result (λ v. AreMarks goods.now demand.now v.items) }
{
    let mut marks = vec![in alloc; false; goods.box_size() as usize]?;
    for place in 0..demand.len() {
        let index = goods.index(&demand.get(place));
        marks[index as usize] = true;
    }
    Ok(marks)
}

/// Whether the demand that has the marked bundles of the box has the exchange property.
fn verdict_by(goods: &Goods, demand: &Demand, marks: &[bool]) -> SetVerdict
    requires demand { IsDemand goods.now demand.now }
    requires marks { AreMarks goods.now demand.now marks.now }
    ensures { IsRight demand.now result }
{
    let table = Table {
        goods: *goods,
        demand,
        strides: goods.strides(),
        marks,
    };
    verdict(&table)
}

/// A demand in the box of its goods.
#[derive(Clone, Copy)]
struct Table<'a> {
    /// Within their supply all bundles are.
    goods: Goods,
    /// The bundles that were reported.
    demand: &'a Demand,
    /// How far apart in the box a bundle and the one with a unit more of a good stand.
    strides: [usize; 6],
    /// For each bundle of the box whether the demand has it.
    marks: &'a [bool],
}

/// Two bundles, and their places in the box.
#[derive(Clone, Copy)]
struct Pair {
    /// From this one a unit is to go.
    x: Bundle,
    /// To this one it is to go.
    y: Bundle,
    /// The place of `x`.
    from: usize,
    /// The place of `y`.
    to: usize,
}

/// The place of a bundle to which no unit of a good goes from another one.
#[derive(Clone, Copy)]
struct Broken {
    /// Among the bundles of the demand, from 0.
    place: u32,
    /// The good of which no unit goes there, from 0.
    good: u8,
}

/// Looks for the first triple that breaks the exchange property.
fn verdict(table: &Table) -> SetVerdict
    requires { IsMarked table.now.goods table.now.demand.now table.now.strides table.now.marks.now }
    ensures { IsRight table.now.demand.now result }
{
    for place in 0..table.demand.len() {
        let x = table.demand.get(place);
        if let Some(broken) = first_partner(table, &x) {
            return SetVerdict::Breaks {
                x,
                y: table.demand.get(broken.place),
                good: broken.good,
            };
        }
    }
    SetVerdict::Holds
}

/// The first bundle with which x does not exchange, and the first such good.
fn first_partner(table: &Table, x: &Bundle) -> Option<Broken>
    requires table { IsMarked table.now.goods table.now.demand.now table.now.strides table.now.marks.now }
    requires x { AtMost x.now table.now.goods }
    ensures none { IfNone result (WithBefore table.now.demand.now x.now (length table.now.demand.now)) }
    ensures some { IfSome result (λ b. IsFirstPartner table.now.demand.now x.now b.place b.good) }
    ensures place { IfSome result (λ b. b.place < length table.now.demand.now) }
{
    let from = table.goods.index(x) as usize;
    for place in 0..table.demand.len() {
        let y = table.demand.get(place);
        let to = table.goods.index(&y) as usize;
        let pair = Pair { x: *x, y, from, to };
        if let Some(good) = first_good(table, &pair) {
            return Some(Broken { place, good });
        }
    }
    None
}

/// The first good of which no unit goes from x to y.
fn first_good(table: &Table, pair: &Pair) -> Option<u8>
    requires table { IsMarked table.now.goods table.now.demand.now table.now.strides table.now.marks.now }
    requires pair { IsPair table.now.goods pair.now.x pair.now.y pair.now.from pair.now.to }
    ensures none { IfNone result ((l : ℕ) → IsExchanged table.now.demand.now pair.now.x pair.now.y l) }
    ensures some { IfSome result (IsFirstGood table.now.demand.now pair.now.x pair.now.y) }
{
    for good in 0..table.goods.count() {
        if pair.x.quantity(good) > pair.y.quantity(good) && !is_exchanged(table, pair, good) {
            return Some(good);
        }
    }
    None
}

/// Whether a unit of a good of which x has more goes to y, alone or against a unit of another good.
fn is_exchanged(table: &Table, pair: &Pair, good: u8) -> bool
    requires table { IsMarked table.now.goods table.now.demand.now table.now.strides table.now.marks.now }
    requires pair { IsPair table.now.goods pair.now.x pair.now.y pair.now.from pair.now.to }
    requires good { good < length table.now.goods }
    requires more { at pair.now.y good < at pair.now.x good }
    ensures { IsTrue result ↔ IsExchanged table.now.demand.now pair.now.x pair.now.y good }
{
    let _goods = table.goods.count();
    let less = pair.from - table.strides[good as usize];
    let more = pair.to + table.strides[good as usize];
    if are_marked(table.marks, less, more) {
        return true;
    }
    for other in 0..table.goods.count() {
        if goes_for(table, pair, good, other) {
            return true;
        }
    }
    false
}

/// Whether the unit goes against one of another good, of which y has more.
fn goes_for(table: &Table, pair: &Pair, good: u8, other: u8) -> bool
    requires table { IsMarked table.now.goods table.now.demand.now table.now.strides table.now.marks.now }
    requires pair { IsPair table.now.goods pair.now.x pair.now.y pair.now.from pair.now.to }
    requires good { good < length table.now.goods }
    requires more { at pair.now.y good < at pair.now.x good }
    requires other { other < length table.now.goods }
    ensures { IsTrue result ↔ IsExchangedFor table.now.demand.now pair.now.x pair.now.y good other }
{
    if pair.x.quantity(other) >= pair.y.quantity(other) {
        return false;
    }
    let _goods = table.goods.count();
    let less = pair.from - table.strides[good as usize];
    let more = pair.to + table.strides[good as usize];
    let step = table.strides[other as usize];
    are_marked(table.marks, less + step, more - step)
}

/// Whether both places are marked.
fn are_marked(marks: &[bool], place: usize, other: usize) -> bool
    requires place { place < length marks.now }
    requires other { other < length marks.now }
    ensures { IsTrue result ↔ ((slice_index_or marks.now place false ≡ true) × (slice_index_or marks.now other false ≡ true)) }
{
    marks[place] && marks[other]
}
