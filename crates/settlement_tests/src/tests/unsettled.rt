//! Auctions that do not settle: no choice clears, or a clock is open or halted. Of which clocks there is a row.
use super::clocks::{ONE, Report, Reports, settled, terms_of};
use expected_values::equal_in;
use settlement::{Settlement, row_of};
use std::alloc::Global;
use std::process::Abort;
use std::test::Fail;

/// The first bidder wants both goods or nothing, the second one of them: at prices 2 and 2 no choice sells both.
const BY_TWO: &[Report] = &[
    (1, 1, &[1, 1]),
    (2, 1, &[0, 1, 1, 0, 1, 1]),
    (1, 2, &[1, 1]),
    (2, 2, &[0, 1, 1, 0]),
    (1, 3, &[0, 0]),
    (2, 3, &[0, 0, 0, 1, 1, 0]),
];

/// Each alone gets what it wants.
const COMPLEMENTS: Reports = Reports::Listed(&[
    BY_TWO,
    &[(2, 1, &[0, 1, 1, 0, 1, 1])],
    &[(1, 1, &[1, 1])],
]);

/// The bundle of no unit of either good.
const NEITHER: &[u16] = &[0, 0];

/// Nobody wants anything on the clock of three bidders.
const OF_THREE: &[Report] = &[(1, 1, NEITHER), (2, 1, NEITHER), (3, 1, NEITHER)];

/// The same without the first.
const WITHOUT_FIRST: &[Report] = &[(2, 1, NEITHER), (3, 1, NEITHER)];

/// The same without the second.
const WITHOUT_SECOND: &[Report] = &[(1, 1, NEITHER), (3, 1, NEITHER)];

/// Where the third takes part nobody wants anything. Without it the others report as above.
const ONE_WITHOUT: Reports = Reports::Listed(&[OF_THREE, WITHOUT_FIRST, WITHOUT_SECOND, BY_TWO]);

/// How an auction of this supply for two bidders stands.
fn two_stand(
    rt: &impl Abort,
    alloc: Global,
    supply: &[u16],
    ceiling: u32,
    reports: Reports,
) -> Result<Settlement, Fail> {
    let terms = terms_of(supply, 2, ceiling)?;
    settled(rt, alloc, &terms, reports)
}

#[test]
fn complements_leave_no_award(rt: HostRuntime) -> Result<(), Fail> {
    let settlement = two_stand(&rt, rt.alloc(), &[1, 1], 10, COMPLEMENTS)?;
    assert!(rt;
        matches!(settlement, Settlement::NoAward { clock: 0 }),
        "{settlement:?}"
    );
    let terms = terms_of(&[1, 1], 3, 10)?;
    let settlement = settled(&rt, rt.alloc(), &terms, ONE_WITHOUT)?;
    assert!(rt;
        matches!(settlement, Settlement::NoAward { clock: 3 }),
        "{settlement:?}"
    );
    Ok(())
}

/// The reports of both bidders until the price is at the ceiling.
const HALTING: &[Report] = &[
    (1, 1, ONE),
    (2, 1, ONE),
    (1, 2, ONE),
    (2, 2, ONE),
    (1, 3, ONE),
    (2, 3, ONE),
];

/// The clock of both bidders halts at the ceiling. Without the second, the first has not reported.
const OPEN: Reports = Reports::Listed(&[HALTING, &[(2, 1, ONE)], &[]]);

/// Without the second, the first has reported.
const HALTED: Reports = Reports::Listed(&[HALTING, &[(2, 1, ONE)], &[(1, 1, ONE)]]);

#[test]
fn an_open_clock_comes_before_a_halted_one(rt: HostRuntime) -> Result<(), Fail> {
    let open = two_stand(&rt, rt.alloc(), &[1], 2, OPEN)?;
    assert!(rt;
        matches!(
            open,
            Settlement::Open {
                clock: 2,
                round: 1,
                missing: 1
            }
        ),
        "{open:?}"
    );
    let halted = two_stand(&rt, rt.alloc(), &[1], 2, HALTED)?;
    assert!(rt;
        matches!(halted, Settlement::Halted { clock: 0, good: 0 }),
        "{halted:?}"
    );
    Ok(())
}

/// The bundle of one unit of the second good.
const THE_SECOND: &[u16] = &[0, 1];

/// What the first two report until the price of the second good is at the ceiling.
const SECOND_HALTS: &[Report] = &[
    (1, 1, THE_SECOND),
    (2, 1, THE_SECOND),
    (1, 2, THE_SECOND),
    (2, 2, THE_SECOND),
    (1, 3, THE_SECOND),
    (2, 3, THE_SECOND),
];

/// The front of it.
const SECOND_RISES: &[Report] = &[(1, 1, THE_SECOND), (2, 1, THE_SECOND), (1, 2, THE_SECOND)];

/// Where the third takes part nobody wants anything. On the clock without it the price of the second good rises.
const THIRD_OPEN: Reports = Reports::Listed(&[
    OF_THREE,
    WITHOUT_FIRST,
    WITHOUT_SECOND,
    SECOND_RISES,
]);

/// There it rises to the ceiling.
const THIRD_HALTED: Reports = Reports::Listed(&[
    OF_THREE,
    WITHOUT_FIRST,
    WITHOUT_SECOND,
    SECOND_HALTS,
]);

#[test]
fn the_last_clock_is_open_and_halts(rt: HostRuntime) -> Result<(), Fail> {
    let terms = terms_of(&[1, 1], 3, 2)?;
    let open = settled(&rt, rt.alloc(), &terms, THIRD_OPEN)?;
    assert!(rt;
        matches!(
            open,
            Settlement::Open {
                clock: 3,
                round: 2,
                missing: 2
            }
        ),
        "{open:?}"
    );
    let halted = settled(&rt, rt.alloc(), &terms, THIRD_HALTED)?;
    assert!(rt;
        matches!(halted, Settlement::Halted { clock: 3, good: 1 }),
        "{halted:?}"
    );
    Ok(())
}

/// Whether the clock of all, of this supply and for two bidders, has a row where it is told so.
fn has_row(alloc: Global, supply: &[u16], ceiling: u32, reports: &[Report]) -> Result<bool, Fail> {
    let terms = terms_of(supply, 2, ceiling)?;
    let clock = reported_clocks::clock_of(alloc, &terms, 0, reports)?;
    Ok(row_of(alloc, &terms, &clock)?.is_some())
}

#[test]
fn clocks_that_ended_with_a_choice_have_a_row(rt: HostRuntime) -> Result<(), Fail> {
    for (story, supply, ceiling, reports, has) in [
        (
            "nobody has reported",
            [1].as_slice(),
            2,
            [].as_slice(),
            false,
        ),
        ("it has halted at its ceiling", &[1], 2, HALTING, false),
        ("no choice clears", &[1, 1], 10, BY_TWO, false),
        (
            "one wants the unit",
            &[1],
            2,
            &[(1, 1, ONE), (2, 1, &[0])],
            true,
        ),
    ] {
        let found = has_row(rt.alloc(), supply, ceiling, reports)?;
        equal_in(story, found, has)?;
    }
    Ok(())
}
