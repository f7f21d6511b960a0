//! Why a clock that has ended has no award.
ghost use Rattle.std.specs.Prelude.{◌≡◌, ◌↔◌, ◌+◌, ℕ, ℤ, List, IfOk, MatchOption};
ghost use Rattle.std.specs.List.{AllByRecursion};
ghost use Rattle.lot_base.specs.declared.phases.Phase.TheVariants as phase;
ghost use Rattle.clock.specs.Explained.{Explains};
ghost use Rattle.clock.specs.Reports.{members_of};
ghost use Rattle.clock.specs.Standing.{phase_of, last_demands};
ghost use Rattle.overshoot.specs.Explained.{Clears, Overshoots, HasNoAward, HaveExchange, IsFirstWithout, IsExplained, IsTrueEnd, AreFit};
ghost use Rattle.overshoot.specs.Exchange.{HasExchange, IsFirstBroken};
ghost use Rattle.overshoot.specs.Scanned.{IsRight};

use crate::exchanging::{SetVerdict, exchange};
use crate::shortfalls::greatest;
use award_assembly::{Assembly, assemble};
use clock::{Clock, last_demands};
use lot_base::{Bundle, GoodSet, NoMemory, Phase, Terms};
use std::alloc::Global;

/// What a clock has come to.
#[derive(Clone, Copy, Debug)]
pub enum Explained {
    /// Some member has not reported in the last round.
    Running,
    /// A good in excess demand is at the ceiling.
    Halted,
    /// It has ended, and a choice clears.
    Award,
    /// It has ended, and none does. This set of goods, whose prices have risen, lacks demand for so many units.
    Overshoot {
        set: GoodSet,
        short: u32,
    },
    /// It has ended, none does, and no set lacks demand. This is the smallest member whose last demand lacks the exchange
    /// property, with the first triple that breaks it.
    Broken {
        bidder: u8,
        x: Bundle,
        y: Bundle,
        good: u8,
    },
}

/// What a clock has come to, and why it has no award.
pub fn explain(alloc: Global, terms: &Terms, clock: &Clock) -> Result<Explained, NoMemory>
    requires { clock.now.history.terms ≡ terms.now }
    ensures explained { IfOk result (IsExplained clock.now.history) }

    // Where a clock has ended and the last demand of each member has the exchange property, a choice clears exactly where no set
    // overshoots.
    ensures existence { phase_of clock.now.history ≡ phase.Ended →
        AllByRecursion (λ j. HasExchange (last_demands clock.now.history j)) (members_of clock.now.history) →
        ((choice : List (List ℕ)) × Clears clock.now.history choice) ↔ ((set : ℕ) → Overshoots clock.now.history set → ⊥) }

    // Where valuations with strong substitutes explain its reports, a clock that has ended has an award.
    ensures truthful { (u : ℕ → List ℕ → ℤ) → Explains u clock.now.history → IfOk result (IsTrueEnd u clock.now.history) }
{
    let _number = clock.number();
    explain_exactly(alloc, terms, clock)
}

/// The same without the law.
fn explain_exactly(alloc: Global, terms: &Terms, clock: &Clock) -> Result<Explained, NoMemory>
    requires { clock.now.history.terms ≡ terms.now }
    ensures { IfOk result (IsExplained clock.now.history) }
{
    match clock.look().phase {
        Phase::Running => Ok(Explained::Running),
        Phase::Halted(_) => Ok(Explained::Halted),
        Phase::Ended => explain_end(alloc, terms, clock),
    }
}

/// Whether a clock that has ended has an award, and else why not.
fn explain_end(alloc: Global, terms: &Terms, clock: &Clock) -> Result<Explained, NoMemory>
    requires terms { clock.now.history.terms ≡ terms.now }
    requires ended { phase_of clock.now.history ≡ phase.Ended }
    ensures { IfOk result (IsExplained clock.now.history) }
{
    let look = clock.look();
    let demands = last_demands(alloc, terms, clock)?;
    match assemble(alloc, &terms.goods, &terms.opening, &look.prices, &demands)? {
        Assembly::Award(_) => Ok(Explained::Award),
        Assembly::NoChoice => explain_lack(alloc, terms, clock),
    }
}

/// Why no choice clears.
fn explain_lack(alloc: Global, terms: &Terms, clock: &Clock) -> Result<Explained, NoMemory>
    requires terms { clock.now.history.terms ≡ terms.now }
    requires ended { phase_of clock.now.history ≡ phase.Ended }
    requires none { HasNoAward clock.now.history }
    requires fit { AreFit clock.now.history }
    ensures { IfOk result (IsExplained clock.now.history) }
{
    let (set, short) = greatest(terms, clock);
    if short > 0 {
        return Ok(Explained::Overshoot { set, short });
    }
    match first_without(alloc, terms, clock) {
        Ok(Some(Without { bidder, x, y, good })) => Ok(Explained::Broken { bidder, x, y, good }),
        Ok(None) => unreachable!(),
        Err(NoMemory) => Err(NoMemory),
    }
}

/// A member whose last demand lacks the exchange property, and the first triple that breaks it.
#[derive(Clone, Copy, Debug)]
struct Without {
    /// The member, from 1.
    bidder: u8,
    /// The bundle from which a unit does not go.
    x: Bundle,
    /// The bundle to which it does not go.
    y: Bundle,
    /// The good of the unit, from 0.
    good: u8,
}

/// The smallest member whose last demand lacks the exchange property.
fn first_without(alloc: Global, terms: &Terms, clock: &Clock) -> Result<Option<Without>, NoMemory>
    requires { clock.now.history.terms ≡ terms.now }
    ensures { IfOk result (λ o. MatchOption o (HaveExchange clock.now.history (terms.now.bidders + 1))
        (λ w. IsFirstWithout clock.now.history w.bidder w.x w.y w.good)) }
{
    let number = clock.number();
    for step in 0..terms.bidders {
        let bidder = step + 1;
        if bidder == number {
            continue;
        }
        if let Some(without) = last_broken(alloc, terms, clock, bidder)? {
            return Ok(Some(without));
        }
    }
    Ok(None)
}

/// The first triple of the last demand of a bidder that breaks the exchange property.
fn last_broken(
    alloc: Global,
    terms: &Terms,
    clock: &Clock,
    bidder: u8,
) -> Result<Option<Without>, NoMemory>
    requires { clock.now.history.terms ≡ terms.now }
    ensures { IfOk result (λ o. MatchOption o (HasExchange (last_demands clock.now.history bidder))
        (λ w. (w.bidder ≡ bidder) × IsFirstBroken (last_demands clock.now.history bidder) w.x w.y w.good)) }
{
    let verdict = last_exchange(alloc, terms, clock, bidder)?;
    Ok(without_of(bidder, verdict))
}

/// The bidder with the triple, if its demand lacks the exchange property.
fn without_of(bidder: u8, verdict: SetVerdict) -> Option<Without>
    ensures { (xs : List (List ℕ)) → IsRight xs verdict →
        MatchOption result (HasExchange xs) (λ w. (w.bidder ≡ bidder) × IsFirstBroken xs w.x w.y w.good) }
{
    match verdict {
        SetVerdict::Holds => None,
        SetVerdict::Breaks { x, y, good } => Some(Without { bidder, x, y, good }),
    }
}

/// Whether the last demand of a bidder has the exchange property.
fn last_exchange(
    alloc: Global,
    terms: &Terms,
    clock: &Clock,
    bidder: u8,
) -> Result<SetVerdict, NoMemory>
    requires { clock.now.history.terms ≡ terms.now }
    ensures { IfOk result (IsRight (last_demands clock.now.history bidder)) }
{
    match clock.last_demand(bidder) {
        Some(demand) => exchange(alloc, &terms.goods, demand),
        None => Ok(SetVerdict::Holds),
    }
}
