//! A buffer for the payload of a report.
ghost use Rattle.std.specs.Prelude.{◌≡◌, ◌≤◌, [], length, IfOk};
ghost use Rattle.lot_base.specs.Demands.{IsDemand};
ghost use Rattle.lot_base.specs.declared.limits.TheConstants.{GREATEST_PAYLOAD};
ghost use Rattle.recovery.specs.Entries.{payload_of};

use demand_set::Report;
use lot_base::limits::GREATEST_PAYLOAD;
use lot_base::{NoMemory, Terms};
use report_wire::entry_to;
use std::alloc::Global;
use std::marker::Model;

/// The payload of a report, in a buffer that has room for any.
#[derive(Drop)]
pub(crate) struct Payload {
    /// 32,768 of them, whatever is filled. What stands after the payload says nothing.
    bytes: Vec<u8>,
    /// How many of the bytes are the payload.
    filled: usize,
}

impl Model for Payload {
    ghost use Rattle.std.specs.Prelude.{◌≡◌, ◌≤◌, List, ℕ, length, take};
    ghost use Rattle.lot_base.specs.declared.limits.TheConstants.{GREATEST_PAYLOAD};

    ghost Value = { List ℕ };

    ghost view = { λ p. take p.filled p.bytes.items };

    ghost invariant = { λ p. (p.filled ≤ length p.bytes.items) × (length p.bytes.items ≡ GREATEST_PAYLOAD) };
}

impl Payload {
    /// No bytes.
    pub(crate) fn new(alloc: Global) -> Result<Payload, NoMemory>
        ensures { IfOk result (λ p. p ≡ []) }
    {
        match vec![in alloc; 0; GREATEST_PAYLOAD as usize] {
            Err(_) => Err(NoMemory),
            Ok(bytes) => Ok(Payload { bytes, filled: 0 }),
        }
    }

    /// Writes the payload of a report of these terms. Takes no memory.
    pub(crate) fn fill(&mut self, terms: &Terms, report: &Report)
        requires { IsDemand terms.now.goods report.now.demand }
        ensures payload { self.new ≡ payload_of (length terms.now.goods) report.now }
        ensures short { length self.new ≤ GREATEST_PAYLOAD }
    {
        let filled = entry_to(
            report.bidder,
            report.round,
            terms.goods.count(),
            report.demand.quantities(),
            &mut self.bytes,
        );
        self.filled = filled as usize;
    }

    /// The bytes.
    pub(crate) fn as_slice(&self) -> &[u8]
        ensures { result.now ≡ self.now }
    {
        &self.bytes[..self.filled]
    }
}
