//! The greatest clocks and auctions: that there is memory for them no clause says.
ghost use Rattle.std.specs.Prelude.{◌≡◌};

use super::*;
use expected_values::{equal, equal_in};

/// Twelve bidders for six goods of a unit each, in all three forms.
const TWELVE_BIDDERS: &str = "[[valuations]]
form = \"unit\"
values = [9, 4, 7, 3, 8, 6]
[[valuations]]
form = \"marginal\"
lists = [[5], [3], [6], [4], [2], [7]]
[[valuations]]
form = \"capped\"
values = [6, 5, 4, 7, 3, 8]
cap = 2
[[valuations]]
form = \"unit\"
values = [2, 8, 5, 9, 6, 7]
[[valuations]]
form = \"marginal\"
lists = [[7], [2], [4], [6], [5], [3]]
[[valuations]]
form = \"capped\"
values = [3, 6, 8, 5, 7, 4]
cap = 3
[[valuations]]
form = \"unit\"
values = [7, 7, 7, 7, 7, 7]
[[valuations]]
form = \"marginal\"
lists = [[1], [6], [2], [5], [4], [8]]
[[valuations]]
form = \"capped\"
values = [9, 2, 6, 4, 8, 5]
cap = 1
[[valuations]]
form = \"unit\"
values = [5, 3, 9, 8, 4, 6]
[[valuations]]
form = \"marginal\"
lists = [[4], [5], [3], [7], [6], [1]]
[[valuations]]
form = \"capped\"
values = [8, 7, 5, 6, 2, 9]
cap = 2
";

/// Two bidders, to whom the first of two goods is worth all that the greatest ceiling allows, and the second nothing.
const TWO_EQUALS: &str = "[[valuations]]
form = \"marginal\"
lists = [[9999], [0]]
[[valuations]]
form = \"marginal\"
lists = [[9999], [0]]
";

/// Two bidders, to whom each of 1,100 units is worth 4, and each of up to 600 units 3.
const MANY_UNITS: &str = "[[valuations]]
form = \"capped\"
values = [4]
cap = 1100
[[valuations]]
form = \"capped\"
values = [3]
cap = 600
";

/// Auctions with the greatest ceiling, and what they come to, on a line.
const GREATEST: &[Case] = &[
    // By trying all bundles, prices and allocations.
    Case {
        story: "twelve bidders for six goods",
        supply: &[1, 1, 1, 1, 1, 1],
        opening: &[0, 1, 0, 2, 0, 0],
        bidders: 12,
        start: &[4, 1, 9, 2, 9, 5],
        values: TWELVE_BIDDERS,
        text: "[9, 7, 9, 8, 8, 8] [0, 0, 0, 0, 1, 0] 7 [0, 0, 0, 0, 0, 0] 0 [0, 0, 0, 0, 0, 0] 0 [0, 0, 0, 1, 0, 0] 7 [0, 0, 0, 0, 0, 0] 0 [0, 0, 0, 0, 0, 0] 0 [0, 0, 0, 0, 0, 0] 0 [0, 0, 0, 0, 0, 0] 0 [1, 0, 0, 0, 0, 0] 8 [0, 0, 1, 0, 0, 0] 8 [0, 0, 0, 0, 0, 0] 0 [0, 1, 0, 0, 0, 1] 15 6/1 6/2 6/1 6/1 6/1 6/1 6/1 6/1 6/1 6/2 6/1 6/1 6/1",
    },
    // One good rises by 9,999 where both want it, and the other falls as far. The second has to take the unit.
    Case {
        story: "up to the greatest price, and down from it",
        supply: &[1, 1],
        opening: &[0, 0],
        bidders: 2,
        start: &[0, 9_999],
        values: TWO_EQUALS,
        text: "[9999, 0] [0, 0] 0 [1, 0] 9999 9999/9999 0/9999 0/9999",
    },
    // At 4 the first demands any quantity, and at 0 the second any from 600 on. The first pays what 600 units are worth to the second.
    Case {
        story: "demands of up to 1,101 bundles",
        supply: &[1_100],
        opening: &[0],
        bidders: 2,
        start: &[10],
        values: MANY_UNITS,
        text: "[4] [1100] 1800 [0] 0 0/6 0/10 0/6",
    },
];

#[test]
fn the_greatest_auctions_float(rt: HostRuntime) -> Result<(), Fail> {
    for case in GREATEST {
        let line = case_line(&rt, rt.alloc(), case)?;
        equal_in(case.story, line.as_str(), case.text)?;
    }
    Ok(())
}

/// What a case comes to with the greatest ceiling, on a line.
fn case_line(rt: &impl Abort, alloc: Global, case: &Case) -> Result<String, Fail> {
    let terms = terms_of(rt, case.supply, case.opening, case.bidders, 10_000)?;
    let start = start_of(rt, &terms, case.start)?;
    let valuations = valuations_of(rt, alloc, &terms, case.values);
    let answer = float(alloc, &terms, valuations.as_slice(), &start);
    Ok(brief(alloc, &answer)?)
}

/// One unit of one of two goods, and after it maybe one unit of each.
fn one_unit(alloc: Global, good: u8, or_both: bool) -> Result<Vec<u16>, AllocError> {
    let mut quantities = Vec::new(alloc);
    quantities.extend_from_slice(if good == 0 { &[1, 0] } else { &[0, 1] })?;
    if or_both {
        quantities.extend_from_slice(&[1, 1])?;
    }
    Ok(quantities)
}

/// Maybe nothing, and after it one unit of the other of two goods.
fn other_unit(alloc: Global, good: u8, or_none: bool) -> Result<Vec<u16>, AllocError> {
    let mut quantities = Vec::new(alloc);
    if or_none {
        quantities.extend_from_slice(&[0, 0])?;
    }
    quantities.extend_from_slice(if good == 0 { &[0, 1] } else { &[1, 0] })?;
    Ok(quantities)
}

/// Both bidders report in a round, and both reports are taken.
fn report_both(
    rt: &impl Abort,
    alloc: Global,
    clock: &mut TwoWay,
    goods: &Goods,
    round: u32,
    demands: [&[u16]; 2],
) -> Result<(), Fail>
    requires { clock.old.terms.goods ≡ goods.now }
    ensures { clock.new.terms ≡ clock.old.terms }
{
    let first = read_demand(rt, alloc, goods, demands[0])?;
    let second = read_demand(rt, alloc, goods, demands[1])?;
    let by_first = offer(alloc, clock, 1, round, first)?;
    let by_second = offer(alloc, clock, 2, round, second)?;
    equal_in(round, by_first.as_str(), "Take")?;
    equal_in(round, by_second.as_str(), "Take")?;
    Ok(())
}

/// A good rises by 10,000: both want a unit of it. What the second wants changes in each round, and not what it wants at the least.
fn rise(
    rt: &impl Abort,
    alloc: Global,
    clock: &mut TwoWay,
    goods: &Goods,
    good: u8,
) -> Result<(), Fail>
    requires { clock.old.terms.goods ≡ goods.now }
    ensures { clock.new.terms ≡ clock.old.terms }
{
    let plain = one_unit(alloc, good, false)?;
    let other = one_unit(alloc, good, true)?;
    for step in 0..10_000u32 {
        let round = u32::from(good) * 10_000 + step + 1;
        let second = if step % 2 == 0 { &plain } else { &other };
        report_both(rt, alloc, clock, goods, round, [&plain, second])?;
    }
    Ok(())
}

/// A good falls by 10,000: nobody wants it. What the first wants changes in each round, and not what it wants at the most.
fn fall(
    rt: &impl Abort,
    alloc: Global,
    clock: &mut TwoWay,
    goods: &Goods,
    good: u8,
) -> Result<(), Fail>
    requires { clock.old.terms.goods ≡ goods.now }
    ensures { clock.new.terms ≡ clock.old.terms }
{
    let plain = other_unit(alloc, good, false)?;
    let other = other_unit(alloc, good, true)?;
    for step in 0..10_000u32 {
        let round = 20_000 + u32::from(good) * 10_000 + step + 1;
        let first = if step % 2 == 0 { &plain } else { &other };
        report_both(rt, alloc, clock, goods, round, [first, &[0, 0]])?;
    }
    Ok(())
}

/// A clock of two goods, of which one after the other rises from 0 to the greatest ceiling, and then falls as far.
fn long_line(rt: &impl Abort, alloc: Global) -> Result<String, Fail> {
    let terms = terms_of(rt, &[1, 1], &[0, 0], 2, 10_000)?;
    let start = start_of(rt, &terms, &[0, 0])?;
    let mut clock = TwoWay::new(alloc, &terms, 0, &start)?;
    for rising in 0..2 {
        rise(rt, alloc, &mut clock, &terms.goods, rising)?;
    }
    for falling in 0..2 {
        fall(rt, alloc, &mut clock, &terms.goods, falling)?;
    }
    let none = [0, 0].as_slice();
    report_both(rt, alloc, &mut clock, &terms.goods, 40_001, [none, none])?;
    Ok(standing_line(alloc, &clock, 2)?)
}

// Each step takes one off the sum of all. Without the first, or the second, a step up takes nothing off, and a step down one.
#[test]
fn a_clock_of_80_000_reports_ends(rt: HostRuntime) -> Result<(), Fail> {
    let line = long_line(&rt, rt.alloc())?;
    equal(
        line.as_str(),
        "round 40001 Ended [0, 0] up 20000 down 20000 sums -40000 -20000 -20000",
    )?;
    Ok(())
}
