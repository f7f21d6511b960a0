//! A report that repeats what its bidder reported before.
ghost use Rattle.std.specs.Prelude.{◌≡◌, ◌≢◌, true, Ok, IfOk};
ghost use Rattle.clock.specs.Repeats.{TakesAgain};

use crate::clocks::Clock;
use byte_numbers::are_short_numbers;
use lot_base::NoMemory;
use std::alloc::Global;

impl Clock {
    /// Applies a bidder's report of the quantities that bytes spell where they are those of its report of the round before: that
    /// demand stays, and none is read or looked through. Tells whether it was applied; else nothing has changed, and the report is to
    /// be read and judged as any.
    pub fn apply_again(
        &mut self,
        _alloc: Global,
        bidder: u8,
        round: u32,
        quantities: &[u8],
    ) -> Result<bool, NoMemory>
        ensures done { IfOk result (λ done. done ≡ true → TakesAgain self.old self.new bidder round quantities.now) }
        ensures left { result ≢ Ok true → self.new ≡ self.old }
    {
        let Some(Some(latest)) = self.latest.get(bidder as usize) else {
            return Ok(false);
        };
        if round != self.steps + 1 || self.reported[bidder as usize] {
            return Ok(false);
        }
        if !are_short_numbers(latest.quantities(), quantities) {
            return Ok(false);
        }
        self.past.reserve(1, 0)?;
        self.count_in(bidder, None);
        Ok(true)
    }
}
