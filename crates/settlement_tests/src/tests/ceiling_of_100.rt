//! Auctions with a ceiling of 100: of one good, of two and of six.
use super::clocks::{ONE, Reports, terms_of, terms_opening_at};
use super::outcomes::{Told, settles_so};
use std::alloc::Global;
use std::process::Abort;
use std::test::Fail;

/// Whether an auction of this supply, for so many bidders and with a ceiling of 100, settles so.
fn supply_settles_so(
    rt: &impl Abort,
    alloc: Global,
    supply: &[u16],
    bidders: u8,
    reports: Reports,
    told: &Told,
) -> Result<bool, Fail> {
    let terms = terms_of(supply, bidders, 100)?;
    settles_so(rt, alloc, &terms, reports, told)
}

/// Two goods of one unit; each bidder wants one good, the first at 5 or 4, the second at 3 or 0.
const ONE_EACH: Reports = Reports::True(&[&[0, 4, 5, 5], &[0, 0, 3, 3]]);

const ONE_EACH_TOLD: Told = (
    &[],
    &[1, 0],
    &[(&[0, 1], 0, 0, 0), (&[1, 0], 0, 0, 1)],
    &[
        (1, &[1, 0], &[&[0, 1], &[1, 0]]),
        (0, &[0, 0], &[&[1, 0]]),
        (0, &[0, 0], &[&[1, 0]]),
    ],
);

/// A unit of one good and two of another; each bidder wants a unit of the first, at 3 and at 2, and none of the other.
const FIRST_GOOD: Reports = Reports::True(&[&[0, 0, 0, 3, 3, 3], &[0, 0, 0, 2, 2, 2]]);

const FIRST_GOOD_TOLD: Told = (
    &[],
    &[2, 0],
    &[(&[1, 0], 0, 0, 2), (&[0, 0], 0, 0, 0)],
    &[
        (2, &[2, 0], &[&[1, 0], &[0, 0]]),
        (0, &[0, 0], &[&[1, 0]]),
        (0, &[0, 0], &[&[1, 0]]),
    ],
);

/// The one bidder wants both units.
const ONE_BIDDER: Reports = Reports::Listed(&[&[(1, 1, &[2])], &[]]);

const ONE_BIDDER_TOLD: Told = (
    &[],
    &[0],
    &[(&[2], 0, 0, 0)],
    &[(0, &[0], &[&[2]]), (0, &[0], &[])],
);

/// The bundles of no unit and of one.
const EITHER: &[u16] = &[0, 1];

/// Both bidders want the unit or nothing.
const ANYTHING: Reports = Reports::Listed(&[
    &[(1, 1, EITHER), (2, 1, EITHER)],
    &[(2, 1, EITHER)],
    &[(1, 1, EITHER)],
]);

const ANYTHING_TOLD: Told = (
    &[],
    &[0],
    &[(&[0], 0, 0, 0), (&[0], 0, 0, 0)],
    &[
        (0, &[0], &[&[0], &[0]]),
        (0, &[0], &[&[0]]),
        (0, &[0], &[&[0]]),
    ],
);

/// The bundle of no unit of any of six goods.
const NONE_OF_SIX: &[u16] = &[0, 0, 0, 0, 0, 0];

/// The bundle of one unit of each.
const ALL_OF_SIX: &[u16] = &[1, 1, 1, 1, 1, 1];

/// Both bidders want all six goods at prices of 0, and the first one alone at prices of 1.
const SIX_GOODS: Reports = Reports::Listed(&[
    &[
        (1, 1, ALL_OF_SIX),
        (2, 1, ALL_OF_SIX),
        (1, 2, ALL_OF_SIX),
        (2, 2, NONE_OF_SIX),
    ],
    &[(2, 1, ALL_OF_SIX)],
    &[(1, 1, ALL_OF_SIX)],
]);

const SIX_GOODS_TOLD: Told = (
    &[],
    &[1, 1, 1, 1, 1, 1],
    &[(ALL_OF_SIX, 0, 0, 6), (NONE_OF_SIX, 0, 0, 0)],
    &[
        (1, &[1, 1, 1, 1, 1, 1], &[ALL_OF_SIX, NONE_OF_SIX]),
        (0, &[0, 0, 0, 0, 0, 0], &[ALL_OF_SIX]),
        (0, &[0, 0, 0, 0, 0, 0], &[ALL_OF_SIX]),
    ],
);

/// At price 4 both bidders want the unit or nothing.
const TIE: Reports = Reports::Listed(&[
    &[
        (1, 1, ONE),
        (2, 1, ONE),
        (1, 2, ONE),
        (2, 2, ONE),
        (1, 3, ONE),
        (2, 3, ONE),
        (1, 4, ONE),
        (2, 4, ONE),
        (1, 5, EITHER),
        (2, 5, EITHER),
    ],
    &[(2, 1, ONE)],
    &[(1, 1, ONE)],
]);

const TIE_TOLD: Told = (
    &[],
    &[4],
    &[(&[0], 0, 0, 0), (&[1], 0, 0, 4)],
    &[
        (4, &[4], &[&[0], &[1]]),
        (0, &[0], &[&[1]]),
        (0, &[0], &[&[1]]),
    ],
);

/// At price 0 the first wants both units and the second one; at price 1 the second alone wants units, and both. By its report the first
/// raised the price at which the second buys, and what the second left of the supply is its credit.
const RAISED: Reports = Reports::Listed(&[
    &[(1, 1, &[2]), (2, 1, ONE), (1, 2, &[0]), (2, 2, &[2])],
    &[(2, 1, ONE)],
    &[(1, 1, &[2])],
]);

const RAISED_TOLD: Told = (
    &[],
    &[1],
    &[(&[0], 0, 1, -1), (&[2], 0, 0, 2)],
    &[
        (1, &[1], &[&[0], &[2]]),
        (0, &[0], &[&[1]]),
        (0, &[0], &[&[2]]),
    ],
);

/// What happens, the supply, how many bidders there are, their reports, and the outcome.
type Auction<'a> = (&'a str, &'a [u16], u8, Reports<'a>, Told<'a>);

const AUCTIONS: &[Auction] = &[
    (
        "two goods go to two bidders",
        &[1, 1],
        2,
        ONE_EACH,
        ONE_EACH_TOLD,
    ),
    (
        "a good without a price stays unsold",
        &[1, 2],
        2,
        FIRST_GOOD,
        FIRST_GOOD_TOLD,
    ),
    (
        "one bidder pays nothing",
        &[2],
        1,
        ONE_BIDDER,
        ONE_BIDDER_TOLD,
    ),
    (
        "the first choice sells nothing where nothing has a price",
        &[1],
        2,
        ANYTHING,
        ANYTHING_TOLD,
    ),
    ("a tie goes to the last bidder", &[1], 2, TIE, TIE_TOLD),
    (
        "reports of no valuations pay a bidder",
        &[2],
        2,
        RAISED,
        RAISED_TOLD,
    ),
    (
        "six goods go to one bidder",
        ALL_OF_SIX,
        2,
        SIX_GOODS,
        SIX_GOODS_TOLD,
    ),
];

#[test]
fn auctions_with_a_ceiling_of_100_settle(rt: HostRuntime) -> Result<(), Fail> {
    for (story, supply, bidders, reports, told) in AUCTIONS {
        let settles = supply_settles_so(&rt, rt.alloc(), supply, *bidders, *reports, told)?;
        assert!(rt; settles, "{story}");
    }
    Ok(())
}

/// The first of two goods opens at 2.
const OPENED_TOLD: Told = (
    &[2, 0],
    &[3, 0],
    &[(&[1, 0], 0, 0, 3), (&[0, 0], 0, 0, 0)],
    &[
        (1, &[3, 0], &[&[1, 0], &[0, 0]]),
        (0, &[2, 0], &[&[1, 0]]),
        (0, &[2, 0], &[&[1, 0]]),
    ],
);

// The first good is worth 5 to the first bidder and 3 to the second, and the other nothing.
#[test]
fn an_auction_opens_at_two_prices(rt: HostRuntime) -> Result<(), Fail> {
    let terms = terms_opening_at(&[1, 1], &[2, 0], 2)?;
    let reports = Reports::True(&[&[0, 0, 5, 5], &[0, 0, 3, 3]]);
    let settles = settles_so(&rt, rt.alloc(), &terms, reports, &OPENED_TOLD)?;
    assert!(rt; settles);
    Ok(())
}
