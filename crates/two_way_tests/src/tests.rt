//! What no clause says: that calls succeed where there is memory, auctions that were worked by hand, and four hundred that were made.
ghost use Rattle.std.specs.Prelude.{◌≡◌, ◌≤◌, ◌<◌, IfOk, length};
ghost use Rattle.lot_base.specs.Demands.{IsDemand};
ghost use Rattle.trial.specs.Trials.{AreValuationsOf};
ghost use Rattle.two_way.specs.Histories.{IsStart};

use crate::made::LINES;
use award_assembly::Choice;
use clock::Judgement;
use demand_set::{Demand, Report};
use expected_values::{equal, equal_in};
use lot_base::{Goods, Prices, Terms};
use std::alloc::{AllocError, Global};
use std::process::Abort;
use std::test::Fail;
use two_way::{AwardRow, FloatFault, Floated, TwoWay, first_outside, float};
use valuation::{Valuation, read};

mod greatest;

/// Three bidders, to whom no, one and two units are worth 0, 10 and 14, then 0, 8 and 11, then 0, 6 and 7.
const THREE_BIDDERS: &str = "[[valuations]]
form = \"table\"
values = [0, 10, 14]
[[valuations]]
form = \"table\"
values = [0, 8, 11]
[[valuations]]
form = \"table\"
values = [0, 6, 7]
";

/// Two bidders, to whom they are worth 0, 10 and 19, then 0, 8 and 11.
const TWO_BIDDERS: &str = "[[valuations]]
form = \"table\"
values = [0, 10, 19]
[[valuations]]
form = \"table\"
values = [0, 8, 11]
";

/// A bidder to whom nothing is worth anything.
const NOBODY: &str = "[[valuations]]
form = \"table\"
values = [0, 0, 0]
";

/// A bidder to whom the second of two goods is worth 5.
const SECOND_GOOD: &str = "[[valuations]]
form = \"unit\"
values = [0, 5]
";

/// The first bidder wants both goods or nothing.
const COMPLEMENTS: &str = "[[valuations]]
form = \"table\"
values = [0, 0, 0, 3]
[[valuations]]
form = \"unit\"
values = [2, 2]
";

/// The second bidder wants both goods or nothing.
const SECOND_COMPLEMENTS: &str = "[[valuations]]
form = \"unit\"
values = [2, 2]
[[valuations]]
form = \"table\"
values = [0, 0, 0, 3]
";

/// An auction, the prices at which its clocks start, and what it comes to.
struct Case<'a> {
    story: &'a str,
    supply: &'a [u16],
    opening: &'a [u32],
    bidders: u8,
    start: &'a [u32],
    values: &'a str,
    text: &'a str,
}

const CASES: &[Case] = &[
    Case {
        story: "three bidders, from 10 down",
        supply: &[2],
        opening: &[0],
        bidders: 3,
        start: &[10],
        values: THREE_BIDDERS,
        text: "prices [8]
bidder 1 award [1] debit -6 credit -4 pays 6
bidder 2 award [1] debit -4 credit -2 pays 6
bidder 3 award [0] debit -2 credit -2 pays 0
clock 0 up 0 down 2 prices [8] choice [1] [1] [0]
clock 1 up 0 down 4 prices [6] choice [1] [1]
clock 2 up 0 down 4 prices [6] choice [1] [1]
clock 3 up 0 down 2 prices [8] choice [1] [1]
",
    },
    Case {
        story: "three bidders, from the opening up",
        supply: &[2],
        opening: &[0],
        bidders: 3,
        start: &[0],
        values: THREE_BIDDERS,
        text: "prices [6]
bidder 1 award [1] debit -4 credit -4 pays 6
bidder 2 award [1] debit -5 credit -5 pays 6
bidder 3 award [0] debit -7 credit -7 pays 0
clock 0 up 6 down 0 prices [6] choice [1] [1] [0]
clock 1 up 3 down 0 prices [3] choice [1] [1]
clock 2 up 4 down 0 prices [4] choice [1] [1]
clock 3 up 4 down 0 prices [4] choice [1] [1]
",
    },
    Case {
        story: "three bidders, from just below the ceiling",
        supply: &[2],
        opening: &[0],
        bidders: 3,
        start: &[99],
        values: THREE_BIDDERS,
        text: "prices [8]
bidder 1 award [1] debit -184 credit -182 pays 6
bidder 2 award [1] debit -182 credit -180 pays 6
bidder 3 award [0] debit -180 credit -180 pays 0
clock 0 up 0 down 91 prices [8] choice [1] [1] [0]
clock 1 up 0 down 93 prices [6] choice [1] [1]
clock 2 up 0 down 93 prices [6] choice [1] [1]
clock 3 up 0 down 91 prices [8] choice [1] [1]
",
    },
    Case {
        story: "three bidders, some clocks up and some down",
        supply: &[2],
        opening: &[0],
        bidders: 3,
        start: &[5],
        values: THREE_BIDDERS,
        text: "prices [6]
bidder 1 award [1] debit 0 credit 0 pays 6
bidder 2 award [1] debit 0 credit 0 pays 6
bidder 3 award [0] debit 0 credit 0 pays 0
clock 0 up 1 down 0 prices [6] choice [1] [1] [0]
clock 1 up 0 down 0 prices [5] choice [1] [1]
clock 2 up 0 down 0 prices [5] choice [1] [1]
clock 3 up 0 down 0 prices [5] choice [1] [1]
",
    },
    Case {
        story: "a unit stays unsold at a reserve of 9",
        supply: &[2],
        opening: &[9],
        bidders: 3,
        start: &[12],
        values: THREE_BIDDERS,
        text: "prices [9]
bidder 1 award [1] debit -6 credit -6 pays 9
bidder 2 award [0] debit -5 credit -5 pays 0
bidder 3 award [0] debit -5 credit -5 pays 0
clock 0 up 0 down 3 prices [9] choice [1] [0] [0]
clock 1 up 0 down 3 prices [9] choice [0] [0]
clock 2 up 0 down 3 prices [9] choice [1] [0]
clock 3 up 0 down 3 prices [9] choice [1] [0]
",
    },
    Case {
        story: "two bidders, from 0: a credit of 5",
        supply: &[2],
        opening: &[0],
        bidders: 2,
        start: &[0],
        values: TWO_BIDDERS,
        text: "prices [8]
bidder 1 award [2] debit 0 credit 5 pays 11
bidder 2 award [0] debit 0 credit 0 pays 0
clock 0 up 8 down 0 prices [8] choice [2] [0]
clock 1 up 0 down 0 prices [0] choice [2]
clock 2 up 0 down 0 prices [0] choice [2]
",
    },
    Case {
        story: "nobody demands anything",
        supply: &[2],
        opening: &[0],
        bidders: 1,
        start: &[3],
        values: NOBODY,
        text: "prices [0]
bidder 1 award [0] debit -6 credit -6 pays 0
clock 0 up 0 down 3 prices [0] choice [0]
clock 1 up 0 down 3 prices [0] choice
",
    },
    Case {
        story: "of two sets that are as short the smaller falls",
        supply: &[1, 1],
        opening: &[0, 0],
        bidders: 1,
        start: &[3, 3],
        values: SECOND_GOOD,
        text: "prices [0, 3]
bidder 1 award [0, 1] debit -6 credit -3 pays 0
clock 0 up 0 down 3 prices [0, 3] choice [0, 1]
clock 1 up 0 down 3 prices [0, 0] choice
",
    },
    Case {
        story: "complements are refused",
        supply: &[1, 1],
        opening: &[0, 0],
        bidders: 2,
        start: &[1, 1],
        values: COMPLEMENTS,
        text: "not substitutes: bidder 1 x [1, 1] y [0, 0] good 0",
    },
    Case {
        story: "complements of the second bidder are refused",
        supply: &[1, 1],
        opening: &[0, 0],
        bidders: 2,
        start: &[1, 1],
        values: SECOND_COMPLEMENTS,
        text: "not substitutes: bidder 2 x [1, 1] y [0, 0] good 0",
    },
];

/// The terms of this supply, opening and so many bidders.
fn terms_of(
    rt: &impl Abort,
    supply: &[u16],
    opening: &[u32],
    bidders: u8,
    ceiling: u32,
) -> Result<Terms, Fail> {
    let goods = Goods::new(supply)?;
    let opening = Prices::read(opening).ok_or("opening")?;
    equal(opening.count(), goods.count())?;
    Ok(Terms::with_opening(goods, bidders, ceiling, opening)?)
}

/// Prices from which the clocks may start.
fn start_of(rt: &impl Abort, terms: &Terms, prices: &[u32]) -> Result<Prices, Fail>
    ensures { IfOk result (IsStart terms.now) }
{
    let start = Prices::read(prices).ok_or("start")?;
    equal(start.count(), terms.goods.count())?;
    match first_outside(terms, &start) {
        None => Ok(start),
        Some(good) => panic!(rt; "start good {good}"),
    }
}

/// The valuations of a file.
fn valuations_of(rt: &impl Abort, alloc: Global, terms: &Terms, text: &str) -> Vec<Valuation>
    ensures { AreValuationsOf terms.now result.items }
{
    match read(alloc, terms, text.as_bytes()) {
        Ok(valuations) => valuations,
        Err(fault) => panic!(rt; "{fault:?}"),
    }
}

/// A bidder's row, in words.
fn row_line(alloc: Global, bidder: usize, row: &AwardRow) -> Result<String, AllocError> {
    let award = row.award.as_slice();
    let (debit, credit, pays) = (row.debit, row.credit, row.pays);
    format!(in alloc; "bidder {bidder} award {award:?} debit {debit} credit {credit} pays {pays}\n")
}

/// The bundles of a choice, in words.
fn choice_words(alloc: Global, choice: &Choice) -> Result<String, AllocError> {
    let mut words = String::new(alloc);
    for place in 0..choice.len() {
        let bundle = choice.get(place);
        let bundle = bundle.as_slice();
        let word = format!(in alloc; " {bundle:?}")?;
        words.push_str(word.as_str())?;
    }
    Ok(words)
}

/// A clock and its choice, in words.
fn clock_line(
    alloc: Global,
    number: usize,
    clock: &TwoWay,
    choice: &Choice,
) -> Result<String, AllocError> {
    let prices = clock.look().prices;
    let (up, down, prices) = (clock.ups(), clock.downs(), prices.as_slice());
    let words = choice_words(alloc, choice)?;
    format!(in alloc; "clock {number} up {up} down {down} prices {prices:?} choice{words}\n")
}

/// Prices, rows and clocks, in words.
fn floated_text(alloc: Global, floated: &Floated) -> Result<String, AllocError> {
    let prices = floated.prices.as_slice();
    let mut text = format!(in alloc; "prices {prices:?}\n")?;
    for (place, row) in floated.rows.as_slice().iter().enumerate() {
        let line = row_line(alloc, place + 1, row)?;
        text.push_str(line.as_str())?;
    }
    let choices = floated.choices.as_slice().iter();
    for (number, (clock, choice)) in floated.clocks.iter().zip(choices).enumerate() {
        let line = clock_line(alloc, number, clock, choice)?;
        text.push_str(line.as_str())?;
    }
    Ok(text)
}

/// What `float` answers, in words.
fn text_of(alloc: Global, answer: &Result<Floated, FloatFault>) -> Result<String, AllocError> {
    match answer {
        Ok(floated) => floated_text(alloc, floated),
        Err(FloatFault::NotSubstitutes { bidder, x, y, good }) => {
            let (x, y) = (x.as_slice(), y.as_slice());
            format!(in alloc; "not substitutes: bidder {bidder} x {x:?} y {y:?} good {good}")
        }
        Err(FloatFault::NoMemory) => Err(AllocError),
    }
}

/// What a case comes to, in words.
fn case_text(rt: &impl Abort, alloc: Global, case: &Case) -> Result<String, Fail> {
    let terms = terms_of(rt, case.supply, case.opening, case.bidders, 100)?;
    let start = start_of(rt, &terms, case.start)?;
    let valuations = valuations_of(rt, alloc, &terms, case.values);
    let answer = float(alloc, &terms, valuations.as_slice(), &start);
    Ok(text_of(alloc, &answer)?)
}

#[test]
fn auctions_float(rt: HostRuntime) -> Result<(), Fail> {
    for case in CASES {
        let text = case_text(&rt, rt.alloc(), case)?;
        equal_in(case.story, text.as_str(), case.text)?;
    }
    Ok(())
}

/// Numbers drawn one after another.
#[derive(Drop)]
struct Draws {
    state: u32,
}

impl Draws {
    /// The next one, below a limit.
    fn below(&mut self, limit: u32) -> u32
        requires { 1 ≤ limit }
        ensures { result < limit }
    {
        self.state = self.state.wrapping_mul(69_069).wrapping_add(1);
        (self.state >> 16) % limit
    }
}

/// A made auction, but for the valuations.
#[derive(Drop)]
struct Market {
    supply: Vec<u16>,
    opening: Vec<u32>,
    start: Vec<u32>,
    ceiling: u32,
}

/// The opening of a good and its start price.
fn made_prices(draws: &mut Draws, ceiling: u32, reserved: bool) -> (u32, u32)
    requires { 1 ≤ ceiling }
{
    let low = if reserved { draws.below(ceiling) } else { 0 };
    (low, low + draws.below(ceiling - low))
}

/// So many goods of one or two units, and a ceiling from 3 to 12. In half of the auctions the openings are 0.
fn made_market(alloc: Global, draws: &mut Draws, goods: u32) -> Result<Market, AllocError> {
    let ceiling = 3 + draws.below(10);
    let reserved = draws.below(2) == 1;
    let mut supply = Vec::new(alloc);
    let mut opening = Vec::new(alloc);
    let mut start = Vec::new(alloc);
    for _ in 0..goods {
        supply.push(1 + draws.below(2) as u16)?;
        let (low, price) = made_prices(draws, ceiling, reserved);
        opening.push(low)?;
        start.push(price)?;
    }
    Ok(Market {
        supply,
        opening,
        start,
        ceiling,
    })
}

/// So many values below a limit, as a list of a file.
fn made_values(
    alloc: Global,
    draws: &mut Draws,
    count: u32,
    limit: u32,
) -> Result<String, AllocError>
    requires { 1 ≤ limit }
{
    let mut text = String::from_str(alloc, "[")?;
    for _ in 0..count {
        let value = draws.below(limit);
        let part = format!(in alloc; "{value}, ")?;
        text.push_str(part.as_str())?;
    }
    text.push_str("]")?;
    Ok(text)
}

/// What the units of a good are worth, the first one below a limit and the second no more than the first.
fn made_list(alloc: Global, draws: &mut Draws, units: u16, limit: u32) -> Result<String, AllocError>
    requires { 1 ≤ limit }
{
    let first = draws.below(limit);
    if units == 1 {
        return format!(in alloc; "[{first}], ");
    }
    let second = draws.below(first + 1);
    format!(in alloc; "[{first}, {second}], ")
}

/// Such a list for each good.
fn made_lists(
    alloc: Global,
    draws: &mut Draws,
    supply: &[u16],
    limit: u32,
) -> Result<String, AllocError>
    requires { 1 ≤ limit }
{
    let mut text = String::from_str(alloc, "[")?;
    for units in supply {
        let part = made_list(alloc, draws, *units, limit)?;
        text.push_str(part.as_str())?;
    }
    text.push_str("]")?;
    Ok(text)
}

/// A bidder, as a part of a file: one unit counts, each unit has a value of its own, or one to three units count.
fn made_bidder(
    alloc: Global,
    draws: &mut Draws,
    market: &Market,
    goods: u32,
) -> Result<String, AllocError>
    requires goods { (1 ≤ goods) × (goods ≤ 3) }
    requires ceiling { 1 ≤ market.now.ceiling }
{
    let ceiling = market.ceiling;
    let form = draws.below(3);
    if form == 0 {
        let values = made_values(alloc, draws, goods, ceiling)?;
        return format!(in alloc; "[[valuations]]\nform = \"unit\"\nvalues = {values}\n");
    }
    if form == 1 {
        let lists = made_lists(
            alloc,
            draws,
            &market.supply,
            (ceiling - 1) / (2 * goods) + 1,
        )?;
        return format!(in alloc; "[[valuations]]\nform = \"marginal\"\nlists = {lists}\n");
    }
    let cap = 1 + draws.below(3);
    let values = made_values(alloc, draws, goods, (ceiling - 1) / 3 + 1)?;
    format!(in alloc; "[[valuations]]\nform = \"capped\"\ncap = {cap}\nvalues = {values}\n")
}

/// A file of so many bidders.
fn made_file(
    alloc: Global,
    draws: &mut Draws,
    market: &Market,
    goods: u32,
    bidders: u32,
) -> Result<String, AllocError>
    requires goods { (1 ≤ goods) × (goods ≤ 3) }
    requires ceiling { 1 ≤ market.now.ceiling }
{
    let mut file = String::new(alloc);
    for _ in 0..bidders {
        let bidder = made_bidder(alloc, draws, market, goods)?;
        file.push_str(bidder.as_str())?;
    }
    Ok(file)
}

/// A bidder's award and what it pays.
fn row_words(alloc: Global, row: &AwardRow) -> Result<String, AllocError> {
    let (award, pays) = (row.award.as_slice(), row.pays);
    format!(in alloc; " {award:?} {pays}")
}

/// How many steps up and down a clock has made.
fn clock_words(alloc: Global, clock: &TwoWay) -> Result<String, AllocError> {
    let (up, down) = (clock.ups(), clock.downs());
    format!(in alloc; " {up}/{down}")
}

/// What `float` answers, on a line.
fn brief(alloc: Global, answer: &Result<Floated, FloatFault>) -> Result<String, AllocError> {
    let Ok(floated) = answer else {
        return String::from_str(alloc, "refused");
    };
    let prices = floated.prices.as_slice();
    let mut line = format!(in alloc; "{prices:?}")?;
    for row in floated.rows.as_slice() {
        let words = row_words(alloc, row)?;
        line.push_str(words.as_str())?;
    }
    for clock in &floated.clocks {
        let words = clock_words(alloc, clock)?;
        line.push_str(words.as_str())?;
    }
    Ok(line)
}

/// What the auction of a number comes to.
fn made_line(rt: &impl Abort, alloc: Global, number: u32) -> Result<String, Fail> {
    let mut draws = Draws {
        state: number.wrapping_mul(2_654_435_761),
    };
    let goods = 1 + draws.below(3);
    let market = made_market(alloc, &mut draws, goods)?;
    assert!(rt; market.ceiling >= 1);
    let bidders = 1 + draws.below(3);
    let file = made_file(alloc, &mut draws, &market, goods, bidders)?;
    let terms = terms_of(
        rt,
        &market.supply,
        &market.opening,
        bidders as u8,
        market.ceiling,
    )?;
    let start = start_of(rt, &terms, &market.start)?;
    let valuations = valuations_of(rt, alloc, &terms, file.as_str());
    let answer = float(alloc, &terms, valuations.as_slice(), &start);
    Ok(brief(alloc, &answer)?)
}

#[test]
fn made_auctions_float(rt: HostRuntime) -> Result<(), Fail> {
    equal(LINES.lines().count(), 400)?;
    for (number, line) in (0..400).zip(LINES.lines()) {
        let found = made_line(&rt, rt.alloc(), number)?;
        equal_in(number, found.as_str(), line)?;
    }
    Ok(())
}

/// A bidder, a round, the quantities of the bundles of its demand, one bundle after another, and what becomes of the report.
type Told<'a> = (u8, u32, &'a [u16], &'a str);

/// A clock, what is offered to it in order, and how it stands then.
struct Course<'a> {
    story: &'a str,
    supply: &'a [u16],
    opening: &'a [u32],
    bidders: u8,
    ceiling: u32,
    number: u8,
    start: &'a [u32],
    reports: &'a [Told<'a>],
    line: &'a str,
}

const COURSES: &[Course] = &[
    Course {
        story: "down from 10, with reports that are not taken",
        supply: &[2],
        opening: &[0],
        bidders: 3,
        ceiling: 20,
        number: 0,
        start: &[10],
        reports: &[
            (1, 1, &[0, 1], "Take"),
            (1, 1, &[0, 1], "Again"),
            (1, 1, &[1], "Conflict(1)"),
            (4, 1, &[1], "NotMember"),
            (2, 0, &[1], "NoRound"),
            (2, 2, &[1], "Early(1)"),
            (2, 1, &[0], "Take"),
            (3, 1, &[0], "Take"),
            (3, 2, &[0], "Take"),
            (2, 2, &[0], "Take"),
            (1, 2, &[1], "Take"),
            (1, 1, &[0, 1], "Again"),
            (1, 3, &[1], "Take"),
            (2, 3, &[0, 1], "Take"),
            (3, 3, &[0], "Take"),
            (1, 4, &[1], "Over(3)"),
        ],
        line: "round 3 Ended [8] up 0 down 2 sums -2 -4 -2 -2",
    },
    Course {
        story: "up once, and the direction turns in the round in which it ends",
        supply: &[2],
        opening: &[0],
        bidders: 3,
        ceiling: 20,
        number: 0,
        start: &[5],
        reports: &[
            (1, 1, &[1], "Take"),
            (2, 1, &[1], "Take"),
            (3, 1, &[1], "Take"),
            (1, 2, &[1], "Take"),
            (2, 2, &[1], "Take"),
            (3, 2, &[0, 1], "Take"),
        ],
        line: "round 2 Ended [6] up 1 down 0 sums -1 0 0 0",
    },
    Course {
        story: "once it goes down it never goes up again, whatever is demanded",
        supply: &[1],
        opening: &[0],
        bidders: 2,
        ceiling: 20,
        number: 0,
        start: &[2],
        reports: &[
            (1, 1, &[0], "Take"),
            (2, 1, &[0], "Take"),
            (1, 2, &[1], "Take"),
            (2, 2, &[1], "Take"),
        ],
        line: "round 2 Ended [1] up 0 down 1 sums -1 -1 -1",
    },
    Course {
        story: "it halts at the ceiling on the way up",
        supply: &[1],
        opening: &[0],
        bidders: 2,
        ceiling: 3,
        number: 0,
        start: &[2],
        reports: &[
            (1, 1, &[1], "Take"),
            (2, 1, &[1], "Take"),
            (1, 2, &[1], "Take"),
            (2, 2, &[1], "Take"),
            (2, 3, &[1], "Over(2)"),
        ],
        line: "round 2 Halted(0) [3] up 1 down 0 sums -1 0 0",
    },
    Course {
        story: "no price falls below its opening: good 0 stays and good 1 comes down",
        supply: &[1, 1],
        opening: &[2, 0],
        bidders: 1,
        ceiling: 20,
        number: 0,
        start: &[2, 1],
        reports: &[(1, 1, &[0, 0], "Take"), (1, 2, &[0, 0], "Take")],
        line: "round 2 Ended [2, 0] up 0 down 1 sums -1 -1",
    },
    Course {
        story: "without members it comes down by itself",
        supply: &[2],
        opening: &[0],
        bidders: 1,
        ceiling: 20,
        number: 1,
        start: &[3],
        reports: &[(1, 1, &[0], "NotMember")],
        line: "round 4 Ended [0] up 0 down 3 sums -6 -6",
    },
    Course {
        story: "the clock without bidder 1, whose sums are without two; nothing is taken yet",
        supply: &[1],
        opening: &[0],
        bidders: 2,
        ceiling: 20,
        number: 1,
        start: &[19],
        reports: &[(1, 1, &[0], "NotMember"), (2, 1, &[0], "Take")],
        line: "round 2 Running [18] up 0 down 1 sums -1 -1 -1",
    },
];

fn read_demand(
    rt: &impl Abort,
    alloc: Global,
    goods: &Goods,
    quantities: &[u16],
) -> Result<Demand, Fail>
    ensures { IfOk result (λ d. IsDemand goods.now d) }
{
    let count = goods.count();
    assert!(rt; count >= 1 && count <= 6);
    equal(quantities.len() % count as usize, 0)?;
    Ok(Demand::read_quantities(alloc, goods, count, quantities)?)
}

/// What becomes of a report that is offered, in words.
fn offer(
    alloc: Global,
    clock: &mut TwoWay,
    bidder: u8,
    round: u32,
    demand: Demand,
) -> Result<String, Fail>
    requires { IsDemand clock.old.terms.goods demand }
    ensures { clock.new.terms ≡ clock.old.terms }
{
    let judgement = clock.judge(bidder, round, &demand);
    if let Judgement::Take = judgement {
        clock.apply(
            alloc,
            Report {
                bidder,
                round,
                demand,
            },
        )?;
    }
    Ok(format!(in alloc; "{judgement:?}")?)
}

/// How a clock stands, in words.
fn standing_line(alloc: Global, clock: &TwoWay, bidders: u8) -> Result<String, AllocError>
    requires { bidders ≤ 12 }
{
    let look = clock.look();
    let (round, phase, prices) = (look.round, look.phase, look.prices.as_slice());
    let (up, down) = (clock.ups(), clock.downs());
    let mut line = format!(in alloc;
        "round {round} {phase:?} {prices:?} up {up} down {down} sums"
    )?;
    for bidder in 0..bidders + 1 {
        let sum = clock.sum_without(bidder);
        let word = format!(in alloc; " {sum}")?;
        line.push_str(word.as_str())?;
    }
    Ok(line)
}

/// How a clock stands after a course.
fn course_line(rt: &impl Abort, alloc: Global, course: &Course) -> Result<String, Fail> {
    let terms = terms_of(
        rt,
        course.supply,
        course.opening,
        course.bidders,
        course.ceiling,
    )?;
    let start = start_of(rt, &terms, course.start)?;
    assert!(rt; course.number <= terms.bidders);
    let mut clock = TwoWay::new(alloc, &terms, course.number, &start)?;
    for (bidder, round, quantities, words) in course.reports {
        let demand = read_demand(rt, alloc, &terms.goods, quantities)?;
        let found = offer(alloc, &mut clock, *bidder, *round, demand)?;
        equal_in((bidder, round), found.as_str(), *words)?;
    }
    Ok(standing_line(alloc, &clock, terms.bidders)?)
}

#[test]
fn clocks_take_their_course(rt: HostRuntime) -> Result<(), Fail> {
    for course in COURSES {
        let line = course_line(&rt, rt.alloc(), course)?;
        equal_in(course.story, line.as_str(), course.line)?;
    }
    Ok(())
}
