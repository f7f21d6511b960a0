//! Clocks that have not ended.
ghost use Rattle.std.specs.Prelude.{◌≡◌, find, option_copied, MatchOption, IfSome};
ghost use Rattle.clock.specs.Reports.{ClockOf, histories};
ghost use Rattle.settlement.specs.Clocks.{is_running, is_halted};
ghost use Rattle.settlement.specs.Settling.{NoneIs, HaveEnded, IsOutcomeOf};
ghost use Rattle.settlement.specs.Shapes.{IsWholeSettlement};

use crate::outcome::Settlement;
use clock::Clock;
use lot_base::Phase;

/// What the clocks settle where one is running or has halted.
pub(crate) fn before_the_end(clocks: &[Clock]) -> Option<Settlement>
    ensures outcome { MatchOption result (HaveEnded (histories clocks.now)) (IsOutcomeOf (histories clocks.now)) }
    ensures whole { IfSome result IsWholeSettlement }
{
    match open(clocks) {
        Some(settlement) => Some(settlement),
        None => match halted(clocks) {
            Some(settlement) => Some(settlement),
            None => None,
        },
    }
}

/// What the clocks settle where one is running.
fn open(clocks: &[Clock]) -> Option<Settlement>
    ensures outcome { MatchOption result (NoneIs is_running (histories clocks.now)) (IsOutcomeOf (histories clocks.now)) }
    ensures whole { IfSome result IsWholeSettlement }
{
    let clock = first_running(clocks)?;
    Some(Settlement::Open {
        clock: clock.number(),
        round: clock.look().round,
        missing: clock.missing(),
    })
}

/// What the clocks settle where none is running and one has halted.
fn halted(clocks: &[Clock]) -> Option<Settlement>
    requires { NoneIs is_running (histories clocks.now) }
    ensures outcome { MatchOption result (NoneIs is_halted (histories clocks.now)) (IsOutcomeOf (histories clocks.now)) }
    ensures whole { IfSome result IsWholeSettlement }
{
    let clock = first_halted(clocks)?;
    match clock.look().phase {
        Phase::Halted(good) => Some(Settlement::Halted {
            clock: clock.number(),
            good,
        }),
        Phase::Running | Phase::Ended => None,
    }
}

fn first_running(clocks: &[Clock]) -> Option<&Clock>
    ensures { option_copied result ≡ find (λ (c : ClockOf). is_running c.history) clocks.now }
{
    clocks.iter().find(|clock| is_running(clock))
}

fn first_halted(clocks: &[Clock]) -> Option<&Clock>
    ensures { option_copied result ≡ find (λ (c : ClockOf). is_halted c.history) clocks.now }
{
    clocks.iter().find(|clock| is_halted(clock))
}

fn is_running(clock: &Clock) -> bool
    ensures { result ≡ is_running clock.now.history }
{
    match clock.look().phase {
        Phase::Running => true,
        Phase::Ended | Phase::Halted(_) => false,
    }
}

fn is_halted(clock: &Clock) -> bool
    ensures { result ≡ is_halted clock.now.history }
{
    match clock.look().phase {
        Phase::Halted(_) => true,
        Phase::Running | Phase::Ended => false,
    }
}
