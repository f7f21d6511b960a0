//! What no clause says: that calls succeed where there is memory, and observations that were worked by hand.
ghost use Rattle.std.specs.Prelude.{◌≡◌, ◌≤◌, ◌<◌, ◌+◌, IfOk, length};
ghost use Rattle.std.specs.List.{AllByRecursion};
ghost use Rattle.lot_base.specs.Demands.{IsDemand};
ghost use Rattle.lot_base.specs.declared.limits.TheConstants.{GREATEST_CEILING};
ghost use Rattle.rationale.specs.declared.limits.TheConstants.{MOST_OBSERVATIONS};

use demand_set::Demand;
use expected_values::{equal, equal_in};
use lot_base::limits::GREATEST_CEILING;
use lot_base::{Goods, Prices};
use rationale::{Decision, Link, MOST_OBSERVATIONS, Rationale};
use std::alloc::{AllocError, Global};
use std::process::Abort;
use std::test::Fail;

/// Prices, and the quantities of the bundles that were demanded at them, one bundle after another.
type Seen<'a> = (&'a [u32], &'a [u16]);

/// Observations, and what is decided of them: the values, or the links.
struct Case<'a> {
    story: &'a str,
    supply: &'a [u16],
    seen: &'a [Seen<'a>],
    line: &'a str,
}

const CASES: &[Case] = &[
    Case {
        story: "no observation: all bundles are worth nothing",
        supply: &[1, 1],
        seen: &[],
        line: "values 0 0 0 0",
    },
    Case {
        story: "one unit at 5: it is worth 6 at least, and a second one need not be worth anything",
        supply: &[2],
        seen: &[(&[5], &[1])],
        line: "values 0 6 6",
    },
    Case {
        story: "the unit at 0, and either at 1",
        supply: &[1],
        seen: &[(&[0], &[1]), (&[1], &[0, 1])],
        line: "values 0 1",
    },
    Case {
        story: "either at 0, and nothing at 1",
        supply: &[1],
        seen: &[(&[0], &[0, 1]), (&[1], &[0])],
        line: "values 0 0",
    },
    Case {
        story: "the unit alone and nothing alone, at the same price",
        supply: &[1],
        seen: &[(&[7], &[1]), (&[7], &[0])],
        line: "links 2/1 x [1] y [0]/2 x [0] y [1]/",
    },
    Case {
        story: "all bundles at 0",
        supply: &[1, 2],
        seen: &[(&[0, 0], &[0, 0, 0, 1, 0, 2, 1, 0, 1, 1, 1, 2])],
        line: "values 0 0 0 0 0 0",
    },
    Case {
        story: "three that agree two by two, and not together",
        supply: &[1, 1],
        seen: &[(&[0, 0], &[1, 0]), (&[2, 0], &[0, 1]), (&[2, 2], &[0, 0])],
        line: "links 3/1 x [1, 0] y [0, 1]/2 x [0, 1] y [0, 0]/3 x [0, 0] y [1, 0]/",
    },
    Case {
        story: "the same without the third",
        supply: &[1, 1],
        seen: &[(&[0, 0], &[1, 0]), (&[2, 0], &[0, 1])],
        line: "values 0 1 2 1",
    },
    Case {
        story: "the least link is neither the first that was added nor the last that is found",
        supply: &[1, 1],
        seen: &[
            (&[9, 9], &[0, 0]),
            (&[2, 2], &[0, 0]),
            (&[2, 0], &[0, 1]),
            (&[0, 0], &[1, 0]),
        ],
        line: "links 3/2 x [0, 0] y [1, 0]/4 x [1, 0] y [0, 1]/3 x [0, 1] y [0, 0]/",
    },
    Case {
        story: "the greatest price",
        supply: &[1],
        seen: &[(&[10_000], &[1])],
        line: "values 0 10001",
    },
    Case {
        story: "a line of rounds, whose last one binds",
        supply: &[1],
        seen: &[(&[0], &[1]), (&[1], &[1]), (&[2], &[1]), (&[3], &[1])],
        line: "values 0 4",
    },
    Case {
        story: "a line by two, then by three, then back",
        supply: &[2],
        seen: &[
            (&[0], &[2]),
            (&[2], &[2]),
            (&[4], &[2]),
            (&[7], &[2]),
            (&[10], &[2]),
            (&[3], &[2]),
            (&[12], &[0]),
        ],
        line: "values 0 10 21",
    },
];

fn read(rt: &impl Abort, alloc: Global, goods: &Goods, quantities: &[u16]) -> Result<Demand, Fail>
    ensures { IfOk result (λ d. IsDemand goods.now d) }
{
    let count = goods.count();
    assert!(rt; count >= 1 && count <= 6);
    equal(quantities.len() % count as usize, 0)?;
    Ok(Demand::read_quantities(alloc, goods, count, quantities)?)
}

/// These prices of the goods, none above the greatest ceiling.
fn prices_of(rt: &impl Abort, goods: &Goods, prices: &[u32]) -> Result<Prices, Fail>
    ensures goods { IfOk result (λ p. length p ≡ length goods.now) }
    ensures low { IfOk result (λ p. AllByRecursion (λ price. price ≤ GREATEST_CEILING) p) }
{
    let prices = Prices::read(prices).ok_or("prices")?;
    equal(prices.count(), goods.count())?;
    match prices.first_from(GREATEST_CEILING + 1) {
        Some(_) => Err("price".into()),
        None => Ok(prices),
    }
}

/// Adds an observation, whose number is to be this one.
fn add(
    rt: &impl Abort,
    alloc: Global,
    rationale: &mut Rationale,
    goods: &Goods,
    seen: &Seen,
    number: u32,
) -> Result<(), Fail>
    requires supply { rationale.old.supply ≡ goods.now }
    requires few { length rationale.old.observations < MOST_OBSERVATIONS }
    ensures supply { IfOk result (λ _. rationale.new.supply ≡ goods.now) }
    ensures count { IfOk result (λ _. length rationale.new.observations ≡ length rationale.old.observations + 1) }
{
    let prices = prices_of(rt, goods, seen.0)?;
    let demand = read(rt, alloc, goods, seen.1)?;
    match rationale.add(alloc, &prices, demand) {
        Ok(told) => equal(told, number)?,
        Err(_) => return Err("memory".into()),
    }
    Ok(())
}

/// The observations of a list.
fn rationale_of(
    rt: &impl Abort,
    alloc: Global,
    supply: &[u16],
    list: &[Seen],
) -> Result<Rationale, Fail> {
    let goods = Goods::new(supply)?;
    let mut rationale = Rationale::new(alloc, &goods)?;
    assert!(rt; list.len() < 100);
    for place in 0..list.len() {
        let number = place as u32 + 1;
        add(rt, alloc, &mut rationale, &goods, &list[place], number)?;
    }
    Ok(rationale)
}

/// What is decided, in words.
fn line_of(alloc: Global, decision: &Decision) -> Result<String, AllocError> {
    match decision {
        Decision::Rational(values) => {
            let mut line = String::from_str(alloc, "values")?;
            for value in values.as_slice() {
                line.push_str(&format!(in alloc; " {value}")?)?;
            }
            Ok(line)
        }
        Decision::Cycle(links) => {
            let count = links.as_slice().len();
            let mut line = format!(in alloc; "links {count}/")?;
            for link in links.as_slice() {
                line.push_str(&link_line(alloc, link)?)?;
            }
            Ok(line)
        }
    }
}

fn link_line(alloc: Global, link: &Link) -> Result<String, AllocError> {
    let number = link.observation;
    let (x, y) = (link.x.as_slice(), link.y.as_slice());
    format!(in alloc; "{number} x {x:?} y {y:?}/")
}

#[test]
fn observations_are_decided(rt: HostRuntime) -> Result<(), Fail> {
    for case in CASES {
        let rationale = rationale_of(&rt, rt.alloc(), case.supply, case.seen)?;
        let line = line_of(rt.alloc(), &rationale.decide(rt.alloc())?)?;
        equal_in(case.story, line.as_str(), case.line)?;
    }
    Ok(())
}

/// All quantities of a good.
fn all_quantities(alloc: Global, units: u16) -> Result<Vec<u16>, AllocError> {
    let mut quantities = Vec::new(alloc);
    for quantity in 0..units {
        quantities.push(quantity)?;
    }
    quantities.push(units)?;
    Ok(quantities)
}

/// The greatest and the least value of a bundle, if values are decided.
fn extremes(decision: &Decision) -> Option<(i64, i64)> {
    match decision {
        Decision::Rational(values) => {
            let values = values.as_slice();
            let greatest = *values.iter().max()?;
            let least = *values.iter().min()?;
            Some((greatest, least))
        }
        Decision::Cycle(_) => None,
    }
}

#[test]
fn the_largest_box_is_decided(rt: HostRuntime) -> Result<(), Fail> {
    let all = all_quantities(rt.alloc(), 2047)?;
    let free: &[Seen] = &[(&[0], &all)];
    let rationale = rationale_of(&rt, rt.alloc(), &[2047], free)?;
    let told = extremes(&rationale.decide(rt.alloc())?);
    equal(told, Some((0, 0)))?;

    let dear: &[Seen] = &[(&[10_000], &[2047]), (&[0], &[2047])];
    let rationale = rationale_of(&rt, rt.alloc(), &[2047], dear)?;
    let told = extremes(&rationale.decide(rt.alloc())?);
    equal(told, Some((20_470_001, 0)))?;
    Ok(())
}

/// One good in one unit, which is wanted at a price of 5 in all of the most observations but the last.
fn long_rationale(rt: &impl Abort, alloc: Global, goods: &Goods) -> Result<Rationale, Fail>
    ensures supply { IfOk result (λ r. r.supply ≡ goods.now) }
    ensures count { IfOk result (λ r. length r.observations + 1 ≡ MOST_OBSERVATIONS) }
{
    let mut rationale = Rationale::new(alloc, goods)?;
    for number in 1..MOST_OBSERVATIONS {
        add(rt, alloc, &mut rationale, goods, &(&[5], &[1]), number)?;
    }
    Ok(rationale)
}

#[test]
fn the_most_observations_are_decided(rt: HostRuntime) -> Result<(), Fail> {
    let goods = Goods::new(&[1])?;
    let mut rationale = long_rationale(&rt, rt.alloc(), &goods)?;
    let line = line_of(rt.alloc(), &rationale.decide(rt.alloc())?)?;
    equal(line.as_str(), "values 0 6")?;

    let last: Seen = (&[5], &[0]);
    add(&rt, rt.alloc(), &mut rationale, &goods, &last, 1_000_000)?;
    let line = line_of(rt.alloc(), &rationale.decide(rt.alloc())?)?;
    equal(line.as_str(), "links 2/1 x [1] y [0]/1000000 x [0] y [1]/")?;
    Ok(())
}
