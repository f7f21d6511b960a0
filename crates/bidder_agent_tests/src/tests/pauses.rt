//! How long an agent sleeps, told by a clock that keeps it.
use super::{count_of, joined, talk};
use house_io::SureLink;
use std::alloc::Global;
use std::cell::RefCell;
use std::io;
use std::process::Abort;
use std::test::Fail;
use std::time::{Clock, Duration, Instant};
use worked_auctions::talks::{
    BYE, ENDED_0, ENDED_2, REPLIES, RUNNING_0, RUNNING_2, TAKEN_0, TAKEN_2, WELCOME,
};

/// More than the equal looks of any talk here.
const LOOKS: u32 = 20;

/// A clock that stands still, and keeps each sleep.
#[derive(Drop)]
pub struct SleepList {
    slept: RefCell<Vec<Duration>>,
}

impl SleepList {
    /// One that has kept none.
    pub fn new(alloc: Global) -> SleepList {
        SleepList {
            slept: RefCell::new(Vec::new(alloc)),
        }
    }

    /// The sleeps, in order.
    pub fn into_slept(self) -> Vec<Duration> {
        let SleepList { slept } = self;
        slept.into_inner()
    }
}

impl Clock for SleepList {
    fn monotonic(&self) -> io::Result<Duration> {
        Ok(Duration::ZERO)
    }

    fn since_1970(&self) -> io::Result<Duration> {
        Ok(Duration::ZERO)
    }

    // One for which there is no memory is missed by the test.
    fn sleep(&self, duration: Duration) {
        if let Ok(mut slept) = self.slept.try_borrow_mut() {
            let _missed = slept.push(duration);
        }
    }
}

/// The first round through the two clocks: both looks are new, and reported.
const FIRST: &[&[u8]] = &[WELCOME, RUNNING_0, TAKEN_0, RUNNING_2, TAKEN_2];

/// A round in which nothing is new.
const EQUAL: &[&[u8]] = &[RUNNING_0, RUNNING_2];

/// Both clocks end.
const ENDS: &[&[u8]] = &[ENDED_0, ENDED_2, BYE];

/// A round in which the second clock ends.
const ENDED_FIRST: &[&[u8]] = &[RUNNING_0, ENDED_2];

/// The other clock ends after it.
const ENDED_LAST: &[&[u8]] = &[ENDED_0, BYE];

/// Clock 2 runs in round 2, at a price of 1.
const LATER_2: &[u8] = b"\x00\x00\x00\x0c\x12\x02\x00\x00\x00\x02\x00\x00\x01\x00\x00\x00\x01";

/// Its report in that round is taken.
const TAKEN_LATER: &[u8] = b"\x00\x00\x00\x05\x13\x02\x00\x00\x00\x02";

/// Clock 2 ended in round 2, at a price of 1.
const ENDED_LATER: &[u8] = b"\x00\x00\x00\x0c\x12\x02\x00\x00\x00\x02\x01\x00\x01\x00\x00\x00\x01";

/// A round in which the second clock is in a new round of its own.
const LATER: &[&[u8]] = &[RUNNING_0, LATER_2, TAKEN_LATER];

/// What comes in a talk in which both clocks are seen at their ends: pieces, and how often each. Then the microseconds of each sleep.
type Case<'a> = (&'a [(&'a [&'a [u8]], usize)], &'a [u64]);

const CASES: &[Case] = &[
    (&[(REPLIES, 1)], &[]),
    (
        &[(FIRST, 1), (EQUAL, 12), (ENDS, 1)],
        &[
            50, 100, 200, 400, 800, 1600, 3200, 6400, 10000, 10000, 10000, 10000,
        ],
    ),
    (
        &[
            (FIRST, 1),
            (EQUAL, 3),
            (ENDED_FIRST, 1),
            (&[RUNNING_0], 2),
            (ENDED_LAST, 1),
        ],
        &[50, 100, 200, 50, 100],
    ),
    (
        &[
            (FIRST, 1),
            (ENDED_FIRST, 1),
            (&[RUNNING_0], 10),
            (ENDED_LAST, 1),
        ],
        &[50, 100, 200, 400, 800, 1600, 3200, 5000, 5000, 5000],
    ),
    (
        &[
            (FIRST, 1),
            (EQUAL, 2),
            (LATER, 1),
            (&[RUNNING_0, LATER_2], 3),
            (&[ENDED_0, ENDED_LATER, BYE], 1),
        ],
        &[50, 100, 50, 100, 200],
    ),
];

/// The pieces, each so often.
fn repeated(alloc: Global, pieces: &[(&[&[u8]], usize)]) -> Result<Vec<u8>, Fail> {
    let mut bytes = Vec::new(alloc);
    for (piece, times) in pieces {
        let once = joined(alloc, piece)?;
        for _ in 0..*times {
            bytes.extend_from_slice(&once)?;
        }
    }
    Ok(bytes)
}

/// Whether an agent to whom these pieces come sees both clocks at their ends.
fn sees_the_ends(
    rt: &impl Abort,
    clock: &impl Clock,
    alloc: Global,
    pieces: &[(&[&[u8]], usize)],
) -> Result<bool, Fail> {
    let mut link = SureLink::new(alloc, repeated(alloc, pieces)?, 1000)?;
    let answer = talk(rt, clock, alloc, &mut link, LOOKS)?;
    Ok(count_of(&answer) == Ok(2))
}

/// Whether these are the sleeps, by their microseconds.
pub fn are_micros(slept: &[Duration], micros: &[u64]) -> bool {
    slept.len() == micros.len()
        && slept
            .iter()
            .zip(micros)
            .all(|(slept, micros)| *slept == Duration::from_micros(*micros))
}

/// Whether the clock of such an agent is asked for these sleeps, in this order.
fn sleeps(rt: &impl Abort, alloc: Global, case: &Case) -> Result<bool, Fail> {
    let (pieces, micros) = case;
    let clock = SleepList::new(alloc);
    let sees = sees_the_ends(rt, &clock, alloc, pieces)?;
    Ok(sees && are_micros(&clock.into_slept(), micros))
}

#[test]
fn a_pause_doubles_and_news_ends_it(rt: HostRuntime) -> Result<(), Fail> {
    for case in CASES {
        assert!(rt; sleeps(&rt, rt.alloc(), case)?, "{case:?}");
    }
    Ok(())
}

#[test]
fn an_agent_sleeps_by_the_clock_of_the_system(rt: HostRuntime) -> Result<(), Fail> {
    let begun = Instant::now(&rt)?;
    assert!(rt; sees_the_ends(&rt, &rt, rt.alloc(), &[(FIRST, 1), (EQUAL, 6), (ENDS, 1)])?);
    assert!(rt; begun.elapsed(&rt)? >= Duration::from_micros(3150));
    Ok(())
}
