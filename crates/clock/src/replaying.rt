//! A clock from a list of reports.
ghost use Rattle.std.specs.Prelude.{◌≡◌, ◌<◌, ◌≤◌, ◌+◌, ◌-◌, ◌^◌, min, ℕ, [], IfOk, IfErr};

use crate::clocks::Clock;
use crate::judging::Judgement;
use demand_set::Report;
use lot_base::{NoMemory, Terms};
use std::alloc::Global;

/// Why a list of reports gives no clock.
#[derive(Clone, Copy, Debug, PartialEq, Eq)]
pub enum ReplayFault {
    /// This report, numbered from 1, is the first that the clock does not take. The number stands still at its type's end.
    NotTaken { number: u32, judgement: Judgement },
    /// There was no memory for the clock.
    NoMemory,
}

impl Clock {
    ghost use Rattle.std.specs.List.{AllByRecursion};
    ghost use Rattle.lot_base.specs.Demands.{IsDemand};
    ghost use Rattle.demand_set.specs.declared.reports.Report.{Report};
    ghost use Rattle.clock.specs.Judging.{IsLegal};
    ghost use Rattle.clock.specs.Replays.{IfNotTaken};

    /// The clock that has taken these reports, one after another.
    pub fn replay(
        alloc: Global,
        terms: &Terms,
        number: u8,
        reports: Vec<Report>,
    ) -> Result<Clock, ReplayFault>
        requires number { number ≤ terms.now.bidders }
        requires fit { AllByRecursion (λ (r : Report). IsDemand terms.now.goods r.demand) reports.items }
        ensures taken { IfOk result (λ c. c.history ≡ record { terms = terms.now; number = number; reports = reports.items }) }
        ensures legal { IfOk result (λ c. IsLegal c.history) }
        ensures refused { IfErr result (IfNotTaken (record { terms = terms.now; number = number; reports = [] }) reports.items) }
    {
        let mut clock = match Clock::new(alloc, terms, number) {
            Ok(clock) => clock,
            Err(NoMemory) => return Err(ReplayFault::NoMemory),
        };
        let mut taken = 0;
        for report in reports {
            let judgement = clock.judge(report.bidder, report.round, &report.demand);
            let Judgement::Take = judgement else {
                return Err(ReplayFault::NotTaken {
                    number: number_after(taken),
                    judgement,
                });
            };
            match clock.apply(alloc, report) {
                Ok(()) => taken += 1,
                Err(_) => return Err(ReplayFault::NoMemory),
            }
        }
        let _number = clock.number();
        Ok(clock)
    }
}

/// The number of the report after so many.
fn number_after(taken: usize) -> u32
    requires { taken + 1 < 2 ^ 64 }
    ensures { result ≡ min (taken + 1) (2 ^ 32 - 1) }
{
    u32::try_from(taken + 1).unwrap_or(u32::MAX)
}
