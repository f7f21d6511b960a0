//! Bidders that report what they demand by their valuations, while the prices of a clock move.
ghost use Rattle.std.specs.Prelude.{◌≡◌, ◌<◌, ◌≤◌, ◌+◌, ◌^◌, ℕ, List, length, true, false, IfOk, IfSome, OnOk};
ghost use Rattle.std.specs.List.{AllByRecursion};
ghost use Rattle.lot_base.specs.Goods.{box_size, raised};
ghost use Rattle.valuation.specs.Carried.{AreLowCosts};
ghost use Rattle.trial.specs.Bidding.{bidders_of};
ghost use Rattle.trial.specs.Rounds.{AreColumns};
ghost use Rattle.trial.specs.Trials.{AreValuationsOf};
ghost use Rattle.two_way.specs.Bidding.{AreBidders, AreRenewed, AreRisen, HaveFollowed, IsRenewed, IsRisen, bidder_in};

use lot_base::{GoodSet, Goods, NoMemory, Prices, Terms};
use std::alloc::Global;
use trial::carrying::{catch_up, column_for, put_back};
use trial::following::Follower;
use valuation::{Column, Costs, Valuation};

/// A bidder at the present prices of a clock.
#[derive(Debug, Drop)]
pub(crate) struct Bidder {
    /// What it demands at these prices.
    pub follower: Follower,
    /// Whether it demands what it demanded at the prices before; there it may too where this says no.
    pub stays: bool,
}

/// All bidders at these prices, in the order of their numbers.
pub(crate) fn bidders_at(
    alloc: Global,
    terms: &Terms,
    valuations: &[Valuation],
    prices: &Prices,
) -> Result<Vec<Bidder>, NoMemory>
    requires { length valuations.now ≡ terms.now.bidders }
    ensures bidders { IfOk result (λ bidders. AreBidders terms.now (bidders_of terms.now.goods valuations.now) prices.now bidders.items) }
    ensures anew { IfOk result (λ bidders. (place : ℕ) → (bidder_in bidders.items place).stays ≡ false) }
{
    let mut bidders = Vec::new(alloc);
    for place in 0..valuations.len() {
        let follower = Follower::new(alloc, &terms.goods, &valuations[place], prices)?;
        bidders.push(Bidder {
            follower,
            stays: false,
        })?;
    }
    Ok(bidders)
}

/// The prices of a clock moved from one round to the next. On the way up the surpluses are carried along, and on the way down they are
/// told anew; it is seen who demands what it demanded before.
pub(crate) fn follow(
    alloc: Global,
    terms: &Terms,
    valuations: &[Valuation],
    columns: &mut Vec<Option<Column>>,
    bidders: &mut Vec<Bidder>,
    before: &Prices,
    after: &Prices,
) -> Result<(), NoMemory>
    requires valuations { AreValuationsOf terms.now valuations.now }
    requires columns { AreColumns terms.now.goods columns.old.items }
    requires goods { (length before.now ≡ length terms.now.goods) × (length after.now ≡ length terms.now.goods) }
    requires bidders { AreBidders terms.now (bidders_of terms.now.goods valuations.now) before.now bidders.old.items }
    ensures bidders { OnOk result (HaveFollowed terms.now (bidders_of terms.now.goods valuations.now) before.now after.now
        bidders.new.items) }
    ensures columns { AreColumns terms.now.goods columns.new.items }
{
    match raised_on(before.as_slice(), after.as_slice()) {
        Some(set) => rise_all(alloc, &terms.goods, columns, bidders, set),
        None => renew_all(alloc, &terms.goods, valuations, bidders, after),
    }
}

/// The prices moved to these.
fn renew_all(
    alloc: Global,
    goods: &Goods,
    valuations: &[Valuation],
    bidders: &mut Vec<Bidder>,
    prices: &Prices,
) -> Result<(), NoMemory>
    requires count { length valuations.now ≡ length bidders.old.items }
    requires valued { AllByRecursion (λ values. length values ≡ box_size goods.now) valuations.now }
    requires goods { (place : ℕ) → place < length bidders.old.items → (bidder_in bidders.old.items place).follower.supply ≡ goods.now }
    ensures { OnOk result (AreRenewed valuations.now prices.now bidders.old.items bidders.new.items) }
{
    let costs = Costs::new(alloc, goods, prices)?;
    for place in 0..bidders.len() {
        renew(&mut bidders[place], &valuations[place], &costs);
    }
    Ok(())
}

/// The prices are now those of the costs.
fn renew(bidder: &mut Bidder, valuation: &Valuation, costs: &Costs)
    requires whole { length costs.now ≡ box_size bidder.old.follower.supply }
    requires valued { box_size bidder.old.follower.supply ≤ length valuation.now }
    ensures { (prices : List ℕ) → AreLowCosts bidder.old.follower.supply prices costs.now
        → IsRenewed valuation.now prices bidder.old bidder.new }
{
    bidder.stays = bidder.follower.renew(valuation, costs);
}

/// The prices rose by one on each good of the set.
fn rise_all(
    alloc: Global,
    goods: &Goods,
    columns: &mut Vec<Option<Column>>,
    bidders: &mut Vec<Bidder>,
    set: GoodSet,
) -> Result<(), NoMemory>
    requires columns { AreColumns goods.now columns.old.items }
    requires goods { (place : ℕ) → place < length bidders.old.items → (bidder_in bidders.old.items place).follower.supply ≡ goods.now }
    requires within { set.0 < 2 ^ length goods.now }
    ensures columns { AreColumns goods.now columns.new.items }
    ensures risen { OnOk result (AreRisen set.0 bidders.old.items bidders.new.items) }
{
    for place in 0..bidders.len() {
        rise(alloc, goods, columns, &mut bidders[place], set)?;
    }
    Ok(())
}

/// The prices rose by one on each good of the set.
fn rise(
    alloc: Global,
    goods: &Goods,
    columns: &mut Vec<Option<Column>>,
    bidder: &mut Bidder,
    set: GoodSet,
) -> Result<(), NoMemory>
    requires columns { AreColumns goods.now columns.old.items }
    requires goods { bidder.old.follower.supply ≡ goods.now }
    requires within { set.0 < 2 ^ length goods.now }
    ensures columns { AreColumns goods.now columns.new.items }
    ensures risen { OnOk result (IsRisen set.0 bidder.old bidder.new) }
{
    catch_up(alloc, goods, columns, &mut bidder.follower, set)?;
    let slot = columns[set.0 as usize].take();
    let column = column_for(alloc, goods, set, slot)?;
    bidder.stays = bidder.follower.left(set, &column) >= 1;
    bidder.follower.step(&column, 1);
    put_back(columns, set, column);
    Ok(())
}

/// The set of goods on which prices rose by one, where they moved so.
fn raised_on(before: &[u32], after: &[u32]) -> Option<GoodSet>
    requires few { length before.now ≤ 6 }
    requires same { length after.now ≡ length before.now }
    ensures value { IfSome result (λ set. after.now ≡ raised before.now set.0) }
    ensures inside { IfSome result (λ set. set.0 < 2 ^ length before.now) }
{
    let mut set = 0u8;
    for place in 0..before.len() {
        let good = before.len() - 1 - place;
        match rise_of(before[good], after[good]) {
            Some(rise) => set = set * 2 + rise,
            None => return None,
        }
    }
    Some(GoodSet(set))
}

/// By how much a price rose, where that is 0 or 1.
fn rise_of(before: u32, after: u32) -> Option<u8>
    ensures { IfSome result (λ rise. (rise ≤ 1) × (after ≡ before + rise)) }
{
    if after == before {
        return Some(0);
    }
    if after > before && after - before == 1 {
        return Some(1);
    }
    None
}
