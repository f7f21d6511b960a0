//! Auctions of two units of one good, with and without a reserve.
use super::clocks::{Reports, terms_opening_at};
use super::outcomes::{Told, settles_so};
use settlement::laws::{credit_example, explained_example, reserve_example};
use std::test::Fail;

/// Two units; the bidders value them at 10 and 4, 8 and 3, 6 and 1.
const UNIFORM: &[&[u32]] = &[&[0, 10, 14], &[0, 8, 11], &[0, 6, 7]];

/// The numbers are those of the law.
const AT_SIX: Told = (
    &[],
    &[6],
    &[(&[1], -4, -4, 6), (&[1], -5, -5, 6), (&[0], -7, -7, 0)],
    &[
        (6, &[6], &[&[1], &[1], &[0]]),
        (3, &[3], &[&[1], &[1]]),
        (4, &[4], &[&[1], &[1]]),
        (4, &[4], &[&[1], &[1]]),
    ],
);

/// A reserve of 5: they pay as much. The clocks without a bidder end where they opened.
const FROM_FIVE: Told = (
    &[5],
    &[6],
    &[(&[1], 0, 0, 6), (&[1], 0, 0, 6), (&[0], 0, 0, 0)],
    &[
        (1, &[6], &[&[1], &[1], &[0]]),
        (0, &[5], &[&[1], &[1]]),
        (0, &[5], &[&[1], &[1]]),
        (0, &[5], &[&[1], &[1]]),
    ],
);

/// A reserve of 9: one unit stays unsold, and the other is sold at it. The numbers are those of the law.
const FROM_NINE: Told = (
    &[9],
    &[9],
    &[(&[1], 0, 0, 9), (&[0], 0, 0, 0), (&[0], 0, 0, 0)],
    &[
        (0, &[9], &[&[1], &[0], &[0]]),
        (0, &[9], &[&[0], &[0]]),
        (0, &[9], &[&[1], &[0]]),
        (0, &[9], &[&[1], &[0]]),
    ],
);

/// Two units; the bidders value them at 10 and 9, 8 and 3.
const UNEVEN: &[&[u32]] = &[&[0, 10, 19], &[0, 8, 11]];

/// The first pays what the second loses, and not twice the price.
const WITH_CREDIT: Told = (
    &[],
    &[8],
    &[(&[2], 0, 5, 11), (&[0], 0, 0, 0)],
    &[
        (8, &[8], &[&[2], &[0]]),
        (0, &[0], &[&[2]]),
        (0, &[0], &[&[2]]),
    ],
);

#[test]
fn auctions_of_two_units_settle(rt: HostRuntime) -> Result<(), Fail> {
    let from_five = terms_opening_at(&[2], &[5], 3)?;
    for (story, terms, values, told) in [
        (
            "three bidders pay the price of uniform units",
            explained_example(),
            UNIFORM,
            AT_SIX,
        ),
        (
            "a reserve below the price changes no payment",
            from_five,
            UNIFORM,
            FROM_FIVE,
        ),
        (
            "a unit stays unsold at its reserve",
            reserve_example(),
            UNIFORM,
            FROM_NINE,
        ),
        (
            "a credit lowers the payment",
            credit_example(),
            UNEVEN,
            WITH_CREDIT,
        ),
    ] {
        let settles = settles_so(&rt, rt.alloc(), &terms, Reports::True(values), &told)?;
        assert!(rt; settles, "{story}");
    }
    Ok(())
}
