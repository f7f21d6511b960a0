//! The greatest numbers of bidders and units, and the greatest price.
ghost use Rattle.std.specs.Prelude.{◌≤◌};

use super::clocks::{ONE, Reports, terms_of};
use super::outcomes::{Award, Row, Told, settles_so};
use lot_base::NoMemory;
use std::alloc::Global;
use std::test::Fail;

/// What no unit and one unit are worth to a bidder.
const TWENTY: &[u32] = &[0, 20];

/// The unit is worth 20 to each of twelve bidders.
const TWELVE_EQUALS: &[&[u32]] = &[
    TWENTY, TWENTY, TWENTY, TWENTY, TWENTY, TWENTY, TWENTY, TWENTY, TWENTY, TWENTY, TWENTY, TWENTY,
];

/// The bundle of no unit.
const NONE: &[u16] = &[0];

/// The row of one of the twelve who gets nothing.
const GETS_NONE: Award = (NONE, -200, -200, 0);

/// The row of the one who gets the unit.
const GETS_ONE: Award = (ONE, -200, -200, 20);

/// The row of the clock of all twelve.
const OF_ALL: Row = (
    20,
    &[20],
    &[
        NONE, NONE, NONE, NONE, NONE, NONE, NONE, NONE, NONE, NONE, NONE, ONE,
    ],
);

/// The row of a clock of eleven of them.
const OF_ELEVEN: Row = (
    20,
    &[20],
    &[
        NONE, NONE, NONE, NONE, NONE, NONE, NONE, NONE, NONE, NONE, ONE,
    ],
);

/// In each of 20 steps eleven bidders want ten units more than there are.
const TWELVE_TOLD: Told = (
    &[],
    &[20],
    &[
        GETS_NONE, GETS_NONE, GETS_NONE, GETS_NONE, GETS_NONE, GETS_NONE, GETS_NONE, GETS_NONE,
        GETS_NONE, GETS_NONE, GETS_NONE, GETS_ONE,
    ],
    &[
        OF_ALL, OF_ELEVEN, OF_ELEVEN, OF_ELEVEN, OF_ELEVEN, OF_ELEVEN, OF_ELEVEN, OF_ELEVEN,
        OF_ELEVEN, OF_ELEVEN, OF_ELEVEN, OF_ELEVEN, OF_ELEVEN,
    ],
);

#[test]
fn twelve_equals_settle(rt: HostRuntime) -> Result<(), Fail> {
    let terms = terms_of(&[1], 12, 10_000)?;
    let settles = settles_so(
        &rt,
        rt.alloc(),
        &terms,
        Reports::True(TWELVE_EQUALS),
        &TWELVE_TOLD,
    )?;
    assert!(rt; settles);
    Ok(())
}

/// To each of two bidders the unit is worth as much as the greatest ceiling allows.
const AT_THE_GREATEST: Told = (
    &[],
    &[9_999],
    &[(&[0], 0, 0, 0), (&[1], 0, 0, 9_999)],
    &[
        (9_999, &[9_999], &[&[0], &[1]]),
        (0, &[0], &[&[1]]),
        (0, &[0], &[&[1]]),
    ],
);

#[test]
fn two_equals_settle_at_the_greatest_price(rt: HostRuntime) -> Result<(), Fail> {
    let terms = terms_of(&[1], 2, 10_000)?;
    let reports = Reports::True(&[&[0, 9_999], &[0, 9_999]]);
    let settles = settles_so(&rt, rt.alloc(), &terms, reports, &AT_THE_GREATEST)?;
    assert!(rt; settles);
    Ok(())
}

/// What each quantity of 2,047 units is worth where so many units count, and each is worth so much.
fn values_of(alloc: Global, worth: u32, cap: u32) -> Result<Vec<u32>, NoMemory>
    requires worth { worth ≤ 100 }
    requires cap { cap ≤ 2047 }
{
    let mut values = Vec::new(alloc);
    for units in 0..2048u32 {
        values.push(units.min(cap) * worth)?;
    }
    Ok(values)
}

/// At 80 the second wants any quantity up to 1,000. The first pays what 1,000 units are worth to it.
const MANY_UNITS_TOLD: Told = (
    &[],
    &[80],
    &[(&[2047], 0, 83_760, 80_000), (&[0], 0, 0, 0)],
    &[
        (80, &[80], &[&[2047], &[0]]),
        (0, &[0], &[&[1000]]),
        (0, &[0], &[&[2047]]),
    ],
);

#[test]
fn the_greatest_supply_settles(rt: HostRuntime) -> Result<(), Fail> {
    let alloc = rt.alloc();
    let terms = terms_of(&[2047], 2, 10_000)?;
    let first = values_of(alloc, 90, 2047)?;
    let second = values_of(alloc, 80, 1000)?;
    let reports = Reports::True(&[&first, &second]);
    let settles = settles_so(&rt, alloc, &terms, reports, &MANY_UNITS_TOLD)?;
    assert!(rt; settles);
    Ok(())
}
