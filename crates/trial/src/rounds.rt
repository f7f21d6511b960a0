//! One clock of a trial.
ghost use Rattle.std.specs.Prelude.{◌≡◌, ◌≢◌, ◌≤◌, ◌<◌, ◌+◌, length, IfOk, OnOk};
ghost use Rattle.std.specs.List.{AllByRecursion};
ghost use Rattle.clock.specs.Judging.{IsLegal};
ghost use Rattle.clock.specs.Standing.{prices_of};
ghost use Rattle.settlement.specs.Clocks.{is_running};
ghost use Rattle.trial.specs.Bidding.{bidders_of};
ghost use Rattle.trial.specs.Rounds.{AreColumns, AreFollowed, IsFresh, IsTrialOf, IsTurned, told};

use crate::carrying::{followers_at, lead};
use crate::following::Follower;
use clock::Clock;
use demand_set::Report;
use lot_base::{NoMemory, Phase, Terms};
use std::alloc::Global;
use valuation::{Column, Valuation};

/// More rounds than a clock has.
const MORE_ROUNDS: u32 = 60_002;

/// The clock of this number, told in each round what its members demand, until it is over.
pub(crate) fn run_clock(
    alloc: Global,
    terms: &Terms,
    valuations: &[Valuation],
    columns: &mut Vec<Option<Column>>,
    number: u8,
) -> Result<Clock, NoMemory>
    requires columns { AreColumns terms.now.goods columns.old.items }
    requires count { length valuations.now ≡ terms.now.bidders }
    requires number { number ≤ terms.now.bidders }
    ensures clock { IfOk result (λ c. IsTrialOf terms.now (bidders_of terms.now.goods valuations.now) number c.history) }
    ensures columns { AreColumns terms.now.goods columns.new.items }
{
    let mut clock = Clock::new(alloc, terms, number)?;
    let opening = clock.look().prices;
    let mut followers = followers_at(alloc, terms, valuations, &opening)?;
    for turn in 0..MORE_ROUNDS {
        let before = clock.look().prices;
        tell_round(alloc, &mut clock, terms, valuations, &followers)?;
        if !is_running(&clock) {
            return Ok(clock);
        }
        lead(
            alloc,
            &mut clock,
            terms,
            valuations,
            columns,
            &mut followers,
            &before,
        )?;
    }
    let _steps = clock.steps();
    Ok(clock)
}

/// Whether the clock is running. Its history is a legal one.
fn is_running(clock: &Clock) -> bool
    ensures value { result ≡ is_running clock.now.history }
    ensures legal { IsLegal clock.now.history }
{
    let _number = clock.number();
    match clock.look().phase {
        Phase::Running => true,
        Phase::Ended | Phase::Halted(_) => false,
    }
}

/// Tells the clock what each of its members demands at the prices of the present round, by its follower, the smallest member first.
fn tell_round(
    alloc: Global,
    clock: &mut Clock,
    terms: &Terms,
    valuations: &[Valuation],
    followers: &[Follower],
) -> Result<(), NoMemory>
    requires terms { clock.old.history.terms ≡ terms.now }
    requires fresh { IsFresh (bidders_of terms.now.goods valuations.now) clock.old.history }
    requires followed { AreFollowed terms.now (bidders_of terms.now.goods valuations.now) clock.old.history.number
        (prices_of clock.old.history) followers.now }
    ensures told { OnOk result (clock.new.history ≡ told (bidders_of terms.now.goods valuations.now) clock.old.history) }
    ensures turned { OnOk result (IsTurned clock.old.history clock.new.history) }
{
    let number = clock.number();
    let round = clock.look().round;
    for place in 0..terms.bidders {
        let bidder = place + 1;
        if bidder == number {
            continue;
        }
        let demand = followers[place as usize].demand(alloc)?;
        let report = Report {
            bidder,
            round,
            demand,
        };
        match clock.apply(alloc, report) {
            Ok(()) => {}
            Err(_) => return Err(NoMemory),
        }
    }
    Ok(())
}
