//! The demands of all bidders, followed while the prices of a clock rise.
ghost use Rattle.std.specs.Prelude.{◌≡◌, ◌≢◌, ◌<◌, ◌≤◌, ◌+◌, ◌^◌, ℕ, length, slice_set, Some, IfOk, IfSome, OnOk};
ghost use Rattle.lot_base.specs.declared.limits.TheConstants.{MOST_STEPS};
ghost use Rattle.lot_base.specs.Goods.{raised};
ghost use Rattle.valuation.specs.Carried.{IsColumn};
ghost use Rattle.clock.specs.Standing.{prices_of};
ghost use Rattle.trial.specs.Bidding.{bidders_of};
ghost use Rattle.trial.specs.Following.{IsReady};
ghost use Rattle.trial.specs.Rounds.{AreColumns, AreFollowed, AreOn, AreReady, AreSteady, AreStepped, HasGone, IsLed, follower_at};

use crate::following::Follower;
use clock::Clock;
use lot_base::limits::MOST_STEPS;
use lot_base::{GoodSet, Goods, NoMemory, Prices, Terms};
use std::alloc::Global;
use valuation::{Column, Valuation, column_of};

/// The followers of all bidders at these prices, in the order of their numbers.
pub(crate) fn followers_at(
    alloc: Global,
    terms: &Terms,
    valuations: &[Valuation],
    prices: &Prices,
) -> Result<Vec<Follower>, NoMemory>
    requires { length valuations.now ≡ terms.now.bidders }
    ensures { IfOk result (λ followers. (number : ℕ)
        → AreFollowed terms.now (bidders_of terms.now.goods valuations.now) number prices.now followers.items) }
{
    let mut followers = Vec::new(alloc);
    for place in 0..valuations.len() {
        let follower = Follower::new(alloc, &terms.goods, &valuations[place], prices)?;
        followers.push(follower)?;
    }
    Ok(followers)
}

/// A place for the column of each set of the goods, at the number of the set. A column is made when prices first rise on its set.
pub fn no_columns(alloc: Global, goods: &Goods) -> Result<Vec<Option<Column>>, NoMemory>
    ensures { IfOk result (λ columns. AreColumns goods.now columns.items) }
{
    let mut columns = Vec::new(alloc);
    for set in 0..goods.set_count() {
        columns.push(None)?;
    }
    Ok(columns)
}

/// The column of a set: the one that stands at its place, or else a new one.
pub fn column_for(
    alloc: Global,
    goods: &Goods,
    set: GoodSet,
    slot: Option<Column>,
) -> Result<Column, NoMemory>
    requires { IfSome slot (λ c. IsColumn goods.now set.0 c.units.items) }
    ensures { IfOk result (λ c. IsColumn goods.now set.0 c.units.items) }
{
    match slot {
        Some(column) => Ok(column),
        None => column_of(alloc, goods, set),
    }
}

/// Puts a column back at its place.
pub fn put_back(columns: &mut Vec<Option<Column>>, set: GoodSet, column: Column)
    requires { set.0 < length columns.old.items }
    ensures { columns.new.items ≡ slice_set columns.old.items set.0 (Some column) }
{
    columns[set.0 as usize] = Some(column);
}

/// Follows the members on from the prices of the round before to the present ones. The rounds in which each of them demands what it
/// demanded then are repeated at once.
pub(crate) fn lead(
    alloc: Global,
    clock: &mut Clock,
    terms: &Terms,
    valuations: &[Valuation],
    columns: &mut Vec<Option<Column>>,
    followers: &mut [Follower],
    before: &Prices,
) -> Result<(), NoMemory>
    requires terms { clock.old.history.terms ≡ terms.now }
    requires columns { AreColumns terms.now.goods columns.old.items }
    requires led { IsLed (bidders_of terms.now.goods valuations.now) before.now clock.old.history }
    requires followed { AreFollowed terms.now (bidders_of terms.now.goods valuations.now) clock.old.history.number before.now
        followers.old }
    ensures gone { OnOk result (HasGone (bidders_of terms.now.goods valuations.now) clock.old.history clock.new.history) }
    ensures followed { OnOk result (AreFollowed terms.now (bidders_of terms.now.goods valuations.now) clock.new.history.number
        (prices_of clock.new.history) followers.new) }
    ensures columns { AreColumns terms.now.goods columns.new.items }
{
    let number = clock.number();
    let set = raised_between(before, &clock.look().prices);
    catch_up_all(alloc, &terms.goods, columns, followers, number, set)?;
    let slot = columns[set.0 as usize].take();
    let column = column_for(alloc, &terms.goods, set, slot)?;
    let left = least_left(followers, number, set, &column);
    let added = clock.repeat(alloc, left)?;
    step_all(followers, number, &column, added + 1);
    put_back(columns, set, column);
    Ok(())
}

/// Brings each member up to date that owes steps on another set.
fn catch_up_all(
    alloc: Global,
    goods: &Goods,
    columns: &mut Vec<Option<Column>>,
    followers: &mut [Follower],
    without: u8,
    set: GoodSet,
) -> Result<(), NoMemory>
    requires columns { AreColumns goods.now columns.old.items }
    requires goods { (place : ℕ) → place < length followers.old → place + 1 ≢ without
        → (follower_at followers.old place).supply ≡ goods.now }
    ensures columns { AreColumns goods.now columns.new.items }
    ensures ready { OnOk result (AreReady without set.0 followers.old followers.new) }
{
    for place in 0..followers.len() {
        if place + 1 != without as usize {
            catch_up(alloc, goods, columns, &mut followers[place], set)?;
        }
    }
    Ok(())
}

/// Brings a member up to date, if it owes steps on another set.
pub fn catch_up(
    alloc: Global,
    goods: &Goods,
    columns: &mut Vec<Option<Column>>,
    follower: &mut Follower,
    set: GoodSet,
) -> Result<(), NoMemory>
    requires columns { AreColumns goods.now columns.old.items }
    requires goods { follower.old.supply ≡ goods.now }
    ensures columns { AreColumns goods.now columns.new.items }
    ensures ready { OnOk result (IsReady set.0 follower.old follower.new) }
{
    match follower.owes_on() {
        Some(before) if before != set => {
            let slot = columns[before.0 as usize].take();
            let column = column_for(alloc, goods, before, slot)?;
            follower.catch_up(&column);
            put_back(columns, before, column);
            Ok(())
        }
        _ => Ok(()),
    }
}

/// For how many steps on the set every member demands what it demands now.
fn least_left(followers: &mut [Follower], without: u8, set: GoodSet, column: &Column) -> u32
    requires column { (place : ℕ) → place < length followers.old → place + 1 ≢ without
        → IsColumn (follower_at followers.old place).supply set.0 column.now.units.items }
    requires within { (place : ℕ) → place < length followers.old → place + 1 ≢ without
        → set.0 < 2 ^ length (follower_at followers.old place).supply }
    requires same { (place : ℕ) → place < length followers.old → place + 1 ≢ without
        → (follower_at followers.old place).owed ≢ 0 → (follower_at followers.old place).set ≡ set.0 }
    ensures few { result ≤ MOST_STEPS }
    ensures on { AreOn without set.0 followers.old followers.new }
    ensures steady { AreSteady without set.0 result followers.new }
{
    let mut least = MOST_STEPS;
    for place in 0..followers.len() {
        if place + 1 != without as usize {
            least = least.min(followers[place].left(set, column));
        }
    }
    least
}

/// The prices rose by one on each good of the set, so many times.
fn step_all(followers: &mut [Follower], without: u8, column: &Column, times: u32)
    requires column { (place : ℕ) → place < length followers.old → place + 1 ≢ without
        → IsColumn (follower_at followers.old place).supply (follower_at followers.old place).set column.now.units.items }
    requires few { times ≤ MOST_STEPS + 1 }
    ensures { AreStepped without times followers.old followers.new }
{
    for place in 0..followers.len() {
        if place + 1 != without as usize {
            followers[place].step(column, times);
        }
    }
}

/// The goods on which prices rose by one.
pub(crate) fn raised_between(before: &Prices, after: &Prices) -> GoodSet
    requires { length after.now ≡ length before.now }
    ensures { (set : ℕ) → set < 2 ^ length before.now → after.now ≡ raised before.now set → result.0 ≡ set }
{
    GoodSet(set_between(before.as_slice(), after.as_slice()))
}

/// The places at which there is one more.
fn set_between(before: &[u32], after: &[u32]) -> u8
    requires few { length before.now ≤ 6 }
    requires same { length after.now ≡ length before.now }
    ensures { (set : ℕ) → set < 2 ^ length before.now → after.now ≡ raised before.now set → result ≡ set }
{
    let mut set = 0;
    for place in 0..before.len() {
        let good = before.len() - 1 - place;
        set = set * 2 + u8::from(before[good] < after[good]);
    }
    set
}
