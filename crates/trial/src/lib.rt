//! Trials: an auction whose bidders report what they demand by their valuations.
#![tactic(auto)]

ghost use Rattle.std.specs.Prelude.{◌≡◌, IfOk, IfErr};
ghost use Rattle.std.specs.List.{AllZip};
ghost use Rattle.lot_base.specs.Economy.{AllStrongSubstitutes};
ghost use Rattle.lot_base.specs.Goods.{IsRange};
ghost use Rattle.clock.specs.Reports.{all_bidders, histories};
ghost use Rattle.settlement.specs.Found.{IsFoundOf};
ghost use Rattle.trial.specs.Bidding.{bidders_of};
ghost use Rattle.trial.specs.Trials.{IsTrial, IsTried, AreValuationsOf};
ghost use Rattle.trial.specs.Refusals.{IsRefusal};

pub mod carrying;
pub mod faults;
pub mod following;
pub mod laws;
pub mod making;
mod rounds;
mod workers;

use clock::Clock;
pub use faults::TrialFault;
pub use following::Follower;
use lot_base::{NoMemory, Terms};
pub use making::make;
use settlement::{Settlement, settle_found};
use std::alloc::Global;
use std::thread::Threads;
use valuation::Valuation;
use workers::{Run, run_workers};

/// The clocks of a trial, in the order of their numbers, and what they settle.
#[derive(Debug, Drop)]
pub struct Tried {
    /// Clock 0 first: one more than there are bidders. Each has ended.
    pub clocks: Vec<Clock>,
    /// What these clocks settle, which is an outcome.
    pub settlement: Settlement,
}

/// The auction on these terms where each bidder reports in every round what it demands by its valuation, the first valuation being that
/// of bidder 1. The clocks are run by 1 to 64 workers, on whose number the answer does not depend. It is settled where the goods
/// are strong substitutes for all bidders, and refused where they are not.
pub fn trial<T: Threads + Sync>(
    rt: &T,
    alloc: Global,
    terms: &Terms,
    valuations: &[Valuation],
    workers: u32,
) -> Result<Tried, TrialFault>
    requires valuations { AreValuationsOf terms.now valuations.now }
    requires workers { IsRange 1 64 workers }
    ensures tried { IfOk result (λ t. IsTried terms.now (bidders_of terms.now.goods valuations.now) (histories t.clocks.items)
        t.settlement) }
    ensures refused { IfErr result (IsRefusal terms.now (bidders_of terms.now.goods valuations.now)) }
{
    let run = run_workers(rt, alloc, terms, valuations, workers)?;
    settle_all(alloc, terms, valuations, run)
}

/// What the clocks of a trial settle, beside them.
fn settle_all(
    alloc: Global,
    terms: &Terms,
    valuations: &[Valuation],
    run: Run,
) -> Result<Tried, TrialFault>
    requires valuations { AreValuationsOf terms.now valuations.now }
    requires substitutes { AllStrongSubstitutes terms.now.goods (bidders_of terms.now.goods valuations.now)
        (all_bidders terms.now.bidders) }
    requires trial { IsTrial terms.now (bidders_of terms.now.goods valuations.now) (histories run.clocks.items) }
    requires rows { AllZip IsFoundOf (histories run.clocks.items) run.rows.items }
    ensures tried { IfOk result (λ t. IsTried terms.now (bidders_of terms.now.goods valuations.now) (histories t.clocks.items)
        t.settlement) }
    ensures refused { IfErr result (λ fault. fault ≡ TrialFault.NoMemory) }
{
    let Run { clocks, rows } = run;
    match settle_found(alloc, terms, clocks.as_slice(), rows) {
        Ok(settlement) => Ok(Tried { clocks, settlement }),
        Err(NoMemory) => Err(TrialFault::NoMemory),
    }
}
