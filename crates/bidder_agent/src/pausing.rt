//! How long an agent pauses between two rounds through the clocks.
ghost use Rattle.std.specs.Prelude.{◌≡◌, ◌*◌, min, max};
ghost use Rattle.std.specs.Duration.{as_nanos};

use std::marker::Model;
use std::thread;
use std::time::{Clock, Duration};

/// The shortest pause, in microseconds.
const LEAST_PAUSE: u64 = 50;

/// The longest pause for each clock that was looked at, in microseconds.
const GREATEST_PAUSE: u64 = 5_000;

/// The pause after the round through the clocks that an agent is in, seen as its length in microseconds: 0 where a look of this round
/// showed something new.
#[derive(Drop)]
pub(crate) struct Pause {
    micros: u64,
}

impl Model for Pause {
    ghost use Rattle.std.specs.Prelude.{ℕ, ◌≤◌, ◌*◌};
    ghost use Rattle.bidder_agent.specs.declared.pausing.TheConstants.{GREATEST_PAUSE};

    ghost Value = { ℕ };

    ghost view = { λ pause. pause.micros };

    ghost invariant = { λ pause. pause.micros ≤ 255 * GREATEST_PAUSE };
}

impl Pause {
    /// No pause, as after a round with something new.
    pub(crate) fn none() -> Pause
        ensures { result ≡ 0 }
    {
        Pause { micros: 0 }
    }

    /// A look showed something new, so this round has no pause.
    pub(crate) fn news(&mut self)
        ensures { self.new ≡ 0 }
    {
        self.micros = 0;
    }

    /// Its length.
    fn length(&self) -> Duration
        ensures { as_nanos result ≡ 1000 * self.now }
    {
        Duration::from_micros(self.micros)
    }

    /// Pauses after a round of so many looks. The pause after the next one is twice as long, within the shortest and the longest for these.
    pub(crate) fn rest(&mut self, clock: &impl Clock, looks: u8)
        ensures { self.new ≡ max LEAST_PAUSE (min (2 * self.old) (looks * GREATEST_PAUSE)) }
    {
        let length = self.length();
        if !length.is_zero() {
            thread::sleep(clock, length);
        }
        let longest = u64::from(looks) * GREATEST_PAUSE;
        self.micros = (2 * self.micros).min(longest).max(LEAST_PAUSE);
    }
}
