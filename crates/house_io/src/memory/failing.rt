//! Which calls of a form in memory are to fail.
ghost use Rattle.std.specs.Prelude.{◌≡◌, ◌↔◌, ℕ, List, Contains, IsTrue, IfOk};
ghost use Rattle.house_io.specs.ListForms.{CallPlan, counted, begun};

use std::alloc::{AllocError, Global};
use std::marker::Model;

/// Which calls are to fail, by their numbers from 0 on.
#[derive(Drop)]
pub(crate) struct FailingCalls {
    /// The numbers of the calls that are to fail.
    failing: Vec<u64>,
    /// How many calls there were, up to the last value of 64 bits.
    calls: u64,
}

impl Model for FailingCalls {
    ghost Value = { CallPlan };

    ghost view = { λ plan. record { failing = plan.failing.items; calls = plan.calls } };
}

impl FailingCalls {
    /// The plan before the first call, by which the calls with these numbers fail.
    pub(crate) fn new(failing: Vec<u64>) -> FailingCalls
        ensures { result ≡ begun failing.items }
    {
        FailingCalls { failing, calls: 0 }
    }

    /// The same plan once more, after the same calls.
    pub(crate) fn again(&self, alloc: Global) -> Result<FailingCalls, AllocError>
        ensures { IfOk result (λ plan. plan ≡ self.now) }
    {
        let failing = self.failing.to_vec(alloc)?;
        Ok(FailingCalls {
            failing,
            calls: self.calls,
        })
    }

    /// Counts one call, and tells whether it is to fail.
    pub(crate) fn next_fails(&mut self) -> bool
        ensures fails { IsTrue result ↔ Contains self.old.failing self.old.calls }
        ensures counted { self.new ≡ counted self.old }
    {
        let call = self.calls;
        self.calls = call.saturating_add(1);
        self.failing.contains(&call)
    }

    /// Whether the next call is to fail.
    pub(crate) fn is_failing(&self) -> bool
        ensures { IsTrue result ↔ Contains self.now.failing self.now.calls }
    {
        self.failing.contains(&self.calls)
    }
}
