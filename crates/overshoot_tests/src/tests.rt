//! What no clause says: that calls succeed where there is memory, and clocks and demands that were worked by hand.
use expected_values::{equal, equal_in};
use lot_base::{Goods, Prices, Terms};
use overshoot::{Explained, SetVerdict, exchange, explain, greatest};
use reported_clocks::{clock_of, demand_of};
use std::alloc::{AllocError, Global};
use std::process::Abort;
use std::test::Fail;

/// A bidder, a round, and the quantities of the bundles of its demand, one bundle after another.
type Told<'a> = (u8, u32, &'a [u16]);

/// A clock, and what is said of it.
#[derive(Clone, Copy)]
struct Case<'a> {
    story: &'a str,
    supply: &'a [u16],
    opening: &'a [u32],
    bidders: u8,
    ceiling: u32,
    clock: u8,
    reports: &'a [Told<'a>],
    /// What the clock has come to, and its set of greatest shortfall with the shortfall.
    line: &'a str,
    most_short: (u8, u32),
}

/// The first bidder wants both goods or nothing, the second one of them: at prices 2 and 2 no choice sells both.
const COMPLEMENTS: &[Told] = &[
    (1, 1, &[1, 1]),
    (2, 1, &[0, 1, 1, 0, 1, 1]),
    (1, 2, &[1, 1]),
    (2, 2, &[0, 1, 1, 0]),
    (1, 3, &[0, 0]),
    (2, 3, &[0, 0, 0, 1, 1, 0]),
];

const CASES: &[Case] = &[
    Case {
        story: "complements: no choice sells both goods",
        supply: &[1, 1],
        opening: &[0, 0],
        bidders: 2,
        ceiling: 10,
        clock: 0,
        reports: COMPLEMENTS,
        line: "overshoot 3 short 1",
        most_short: (3, 1),
    },
    Case {
        story: "complements: the second bidder alone",
        supply: &[1, 1],
        opening: &[0, 0],
        bidders: 2,
        ceiling: 10,
        clock: 1,
        reports: &[(2, 1, &[0, 1, 1, 0, 1, 1])],
        line: "award",
        most_short: (0, 0),
    },
    Case {
        story: "complements: the first bidder alone",
        supply: &[1, 1],
        opening: &[0, 0],
        bidders: 2,
        ceiling: 10,
        clock: 2,
        reports: &[(1, 1, &[1, 1])],
        line: "award",
        most_short: (0, 0),
    },
    Case {
        story: "complements: the second bidder has not reported",
        supply: &[1, 1],
        opening: &[0, 0],
        bidders: 2,
        ceiling: 10,
        clock: 0,
        reports: &[(1, 1, &[1, 1])],
        line: "running",
        most_short: (0, 0),
    },
    Case {
        story: "gaps: both want all three units, and then none or two of them, so that no choice sells three",
        supply: &[3],
        opening: &[0],
        bidders: 2,
        ceiling: 10,
        clock: 0,
        reports: &[(1, 1, &[3]), (2, 1, &[3]), (1, 2, &[0, 2]), (2, 2, &[0, 2])],
        line: "broken 1 x [2] y [0] good 0",
        most_short: (0, 0),
    },
    Case {
        story: "gaps on the clock without bidder 1, whose smallest member is 2",
        supply: &[3],
        opening: &[0],
        bidders: 3,
        ceiling: 10,
        clock: 1,
        reports: &[(2, 1, &[3]), (3, 1, &[3]), (2, 2, &[0, 2]), (3, 2, &[0, 2])],
        line: "broken 2 x [2] y [0] good 0",
        most_short: (0, 0),
    },
    Case {
        story: "a gap of the second bidder: the demand of the first has one bundle, and lacks nothing",
        supply: &[4],
        opening: &[0],
        bidders: 2,
        ceiling: 10,
        clock: 0,
        reports: &[(1, 1, &[4]), (2, 1, &[4]), (1, 2, &[1]), (2, 2, &[0, 4])],
        line: "broken 2 x [4] y [0] good 0",
        most_short: (0, 0),
    },
    Case {
        story: "openings: good 0 is at its opening, and may stay unsold; good 1 has risen",
        supply: &[4, 3],
        opening: &[7, 2],
        bidders: 2,
        ceiling: 10,
        clock: 0,
        reports: &[
            (1, 1, &[0, 3]),
            (2, 1, &[0, 3]),
            (1, 2, &[0, 0, 0, 1]),
            (2, 2, &[0, 0, 0, 1]),
        ],
        line: "overshoot 2 short 1",
        most_short: (2, 1),
    },
    Case {
        story: "openings: nobody wants what is at its opening, and all of it stays unsold",
        supply: &[2],
        opening: &[5],
        bidders: 2,
        ceiling: 10,
        clock: 0,
        reports: &[(1, 1, &[0]), (2, 1, &[0])],
        line: "award",
        most_short: (0, 0),
    },
    Case {
        story: "the price of a unit that both want is at the ceiling",
        supply: &[1],
        opening: &[0],
        bidders: 2,
        ceiling: 2,
        clock: 0,
        reports: &[
            (1, 1, &[1]),
            (2, 1, &[1]),
            (1, 2, &[1]),
            (2, 2, &[1]),
            (1, 3, &[1]),
            (2, 3, &[1]),
        ],
        line: "halted",
        most_short: (0, 0),
    },
    Case {
        story: "six goods, whose prices rose from 0 to 1 for two who want all of them, and then nothing",
        supply: &[1, 1, 1, 1, 1, 1],
        opening: &[0, 0, 0, 0, 0, 0],
        bidders: 2,
        ceiling: 10,
        clock: 0,
        reports: &[
            (1, 1, &[1, 1, 1, 1, 1, 1]),
            (2, 1, &[1, 1, 1, 1, 1, 1]),
            (1, 2, &[0, 0, 0, 0, 0, 0]),
            (2, 2, &[0, 0, 0, 0, 0, 0]),
        ],
        line: "overshoot 63 short 6",
        most_short: (63, 6),
    },
    Case {
        story: "the clock without bidder 12: the first of eleven members takes all six goods",
        supply: &[1, 1, 1, 1, 1, 1],
        opening: &[0, 0, 0, 0, 0, 0],
        bidders: 12,
        ceiling: 10,
        clock: 12,
        reports: ONE_OF_ELEVEN,
        line: "award",
        most_short: (0, 0),
    },
    Case {
        story: "a gap of the last of twelve bidders",
        supply: &[4],
        opening: &[0],
        bidders: 12,
        ceiling: 10,
        clock: 0,
        reports: LAST_OF_TWELVE,
        line: "broken 12 x [4] y [0] good 0",
        most_short: (0, 0),
    },
];

/// Of the members 1 to 11 the first wants a unit of each of six goods, and the others nothing.
const ONE_OF_ELEVEN: &[Told] = &[
    (1, 1, &[1, 1, 1, 1, 1, 1]),
    (2, 1, &[0, 0, 0, 0, 0, 0]),
    (3, 1, &[0, 0, 0, 0, 0, 0]),
    (4, 1, &[0, 0, 0, 0, 0, 0]),
    (5, 1, &[0, 0, 0, 0, 0, 0]),
    (6, 1, &[0, 0, 0, 0, 0, 0]),
    (7, 1, &[0, 0, 0, 0, 0, 0]),
    (8, 1, &[0, 0, 0, 0, 0, 0]),
    (9, 1, &[0, 0, 0, 0, 0, 0]),
    (10, 1, &[0, 0, 0, 0, 0, 0]),
    (11, 1, &[0, 0, 0, 0, 0, 0]),
];

/// Two of twelve bidders want all four units, and then one of them one unit, and the last one all or nothing.
const LAST_OF_TWELVE: &[Told] = &[
    (1, 1, &[4]),
    (2, 1, &[0]),
    (3, 1, &[0]),
    (4, 1, &[0]),
    (5, 1, &[0]),
    (6, 1, &[0]),
    (7, 1, &[0]),
    (8, 1, &[0]),
    (9, 1, &[0]),
    (10, 1, &[0]),
    (11, 1, &[0]),
    (12, 1, &[4]),
    (1, 2, &[1]),
    (2, 2, &[0]),
    (3, 2, &[0]),
    (4, 2, &[0]),
    (5, 2, &[0]),
    (6, 2, &[0]),
    (7, 2, &[0]),
    (8, 2, &[0]),
    (9, 2, &[0]),
    (10, 2, &[0]),
    (11, 2, &[0]),
    (12, 2, &[0, 4]),
];

fn terms_of(rt: &impl Abort, case: &Case) -> Result<Terms, Fail> {
    let goods = Goods::new(case.supply)?;
    let opening = Prices::read(case.opening).ok_or("opening")?;
    equal(opening.count(), goods.count())?;
    Ok(Terms::with_opening(goods, case.bidders, case.ceiling, opening)?)
}

/// What a clock has come to, in words.
fn line_of(alloc: Global, explained: &Explained) -> Result<String, AllocError> {
    match explained {
        Explained::Running => String::from_str(alloc, "running"),
        Explained::Halted => String::from_str(alloc, "halted"),
        Explained::Award => String::from_str(alloc, "award"),
        Explained::Overshoot { set, short } => {
            let set = set.0;
            format!(in alloc; "overshoot {set} short {short}")
        }
        Explained::Broken { bidder, x, y, good } => {
            let (x, y) = (x.as_slice(), y.as_slice());
            format!(in alloc; "broken {bidder} x {x:?} y {y:?} good {good}")
        }
    }
}

/// Checks what a clock has come to, and its set of greatest shortfall.
fn check_case(rt: &(impl AllocGlobal + Abort), case: &Case) -> Result<(), Fail> {
    let terms = terms_of(rt, case)?;
    assert!(rt; case.clock <= terms.bidders);
    let clock = clock_of(rt.alloc(), &terms, case.clock, case.reports)?;
    let line = line_of(rt.alloc(), &explain(rt.alloc(), &terms, &clock)?)?;
    equal_in(case.story, line.as_str(), case.line)?;
    let (set, short) = greatest(&terms, &clock);
    equal_in(case.story, (set.0, short), case.most_short)?;
    Ok(())
}

#[test]
fn clocks_are_explained(rt: HostRuntime) -> Result<(), Fail> {
    for case in CASES {
        check_case(&rt, case)?;
    }
    Ok(())
}

/// All quantities of a good.
fn all_quantities(alloc: Global, units: u16) -> Result<Vec<u16>, AllocError> {
    let mut quantities = Vec::new(alloc);
    for quantity in 0..units {
        quantities.push(quantity)?;
    }
    quantities.push(units)?;
    Ok(quantities)
}

#[test]
fn the_clock_of_a_bidder_who_wants_any_of_2048_bundles_is_explained(
    rt: HostRuntime,
) -> Result<(), Fail> {
    let all = all_quantities(rt.alloc(), 2047)?;
    check_case(
        &rt,
        &Case {
            story: "any of 2,048 bundles",
            supply: &[2047],
            opening: &[0],
            bidders: 1,
            ceiling: 10,
            clock: 0,
            reports: &[(1, 1, &all)],
            line: "award",
            most_short: (0, 0),
        },
    )
}

/// Whether a demand has the exchange property, in words.
fn words_of(alloc: Global, verdict: &SetVerdict) -> Result<String, AllocError> {
    match verdict {
        SetVerdict::Holds => String::from_str(alloc, "holds"),
        SetVerdict::Breaks { x, y, good } => {
            let (x, y) = (x.as_slice(), y.as_slice());
            format!(in alloc; "x {x:?} y {y:?} good {good}")
        }
    }
}

/// A supply, the quantities of the bundles of a demand, and the verdict.
type Listed<'a> = (&'a [u16], &'a [u16], &'a str);

const DEMANDS: &[Listed] = &[
    (&[2], &[0, 1, 2], "holds"),
    (&[2], &[1], "holds"),
    (&[2], &[0, 2], "x [2] y [0] good 0"),
    // Neighbours exchange; bundles two apart do not.
    (&[4], &[0, 1, 3, 4], "x [3] y [0] good 0"),
    // Either good, or any of three: a unit goes against one of another good.
    (&[1, 1], &[0, 1, 1, 0], "holds"),
    (&[1, 1, 1], &[0, 0, 1, 0, 1, 0, 1, 0, 0], "holds"),
    // Both goods or nothing.
    (&[1, 1], &[0, 0, 1, 1], "x [1, 1] y [0, 0] good 0"),
    // One good, or two others.
    (
        &[1, 1, 1],
        &[0, 0, 1, 1, 1, 0],
        "x [0, 0, 1] y [1, 1, 0] good 2",
    ),
    // The first good has a gap beside the whole of the second one.
    (
        &[1, 2],
        &[0, 0, 0, 2, 1, 0, 1, 1, 1, 2],
        "x [0, 2] y [0, 0] good 1",
    ),
];

/// Checks the verdict on a demand.
fn check_verdict(rt: &(impl AllocGlobal + Abort), listed: &Listed) -> Result<(), Fail> {
    let (supply, quantities, words) = *listed;
    let goods = Goods::new(supply)?;
    let demand = demand_of(rt.alloc(), &goods, quantities)?;
    let told = words_of(rt.alloc(), &exchange(rt.alloc(), &goods, &demand)?)?;
    equal_in(quantities, told.as_str(), words)?;
    Ok(())
}

#[test]
fn demands_have_their_verdicts(rt: HostRuntime) -> Result<(), Fail> {
    for listed in DEMANDS {
        check_verdict(&rt, listed)?;
    }
    Ok(())
}

#[test]
fn the_largest_demand_has_its_verdict(rt: HostRuntime) -> Result<(), Fail> {
    let all = all_quantities(rt.alloc(), 2047)?;
    check_verdict(&rt, &(&[2047], &all, "holds"))
}
