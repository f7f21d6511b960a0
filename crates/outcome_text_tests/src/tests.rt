//! What no clause says: that calls succeed where there is memory, and texts that were worked by hand.
use award_assembly::Choice;
use clock::Look;
use expected_values::{equal, equal_in};
use lot_base::{Bundle, Phase, Prices, Sequence};
use outcome_text::{read_plain, write_json, write_plain, write_standing};
use settlement::{AwardRow, ClockRow, Outcome};
use std::alloc::Global;
use std::test::Fail;
use worked_auctions::outcomes::{
    FROM_FIVE, FROM_NINE, ONE_BIDDER, ONE_BIDDER_JSON, ONE_EACH, THREE_BIDDERS,
};

/// The one bidder, with the greatest opening price.
const GREATEST_OPENING: &str = "settled goods 1 bidders 1
prices 0
opening 4294967295
bidder 1 award 2 debit 0 credit 0 pays 0
clock 0 steps 0 prices 0
choice 0 1 2
clock 1 steps 0 prices 0
";

/// The greatest and the least numbers.
const EXTREMES: &str = "settled goods 1 bidders 1
prices 4294967295
bidder 1 award 65535 debit -9223372036854775808 credit 0 pays 9223372036854775807
clock 0 steps 4294967295 prices 4294967295
choice 0 1 65535
clock 1 steps 0 prices 0
";

/// What is read from a text. There is nothing where it is refused, or where there is no memory.
fn outcome_of(alloc: Global, text: &str) -> Option<Outcome> {
    match read_plain(alloc, text.as_bytes()) {
        Ok(outcome) => outcome,
        Err(_) => None,
    }
}

fn plain_of(alloc: Global, outcome: &Outcome) -> Option<Vec<u8>> {
    write_plain(alloc, outcome).ok()
}

fn json_of(alloc: Global, outcome: &Outcome) -> Option<Vec<u8>> {
    write_json(alloc, outcome).ok()
}

/// Whether just these bytes were written.
fn are_bytes(written: Option<Vec<u8>>, wanted: &str) -> bool {
    match written {
        None => false,
        Some(bytes) => bytes.as_slice() == wanted.as_bytes(),
    }
}

/// Whether a text is read and written again as it is, and whether it names opening prices.
fn is_written_again(alloc: Global, text: &str) -> Option<(bool, bool)> {
    match outcome_of(alloc, text) {
        None => None,
        Some(outcome) => Some((
            are_bytes(plain_of(alloc, &outcome), text),
            outcome.opening.is_some(),
        )),
    }
}

/// Each text that is read, and whether it names opening prices.
const TEXTS: &[(&str, bool)] = &[
    (THREE_BIDDERS, false),
    (ONE_BIDDER, false),
    (ONE_EACH, false),
    (EXTREMES, false),
    (FROM_FIVE, true),
    (FROM_NINE, true),
    (GREATEST_OPENING, true),
];

#[test]
fn texts_are_read_and_written_again(rt: HostRuntime) -> Result<(), Fail> {
    for (text, opening) in TEXTS {
        let found = is_written_again(rt.alloc(), text);
        equal_in(text, found, Some((true, *opening)))?;
    }
    Ok(())
}

/// Whether the outcome of a text is written as this line.
fn is_written_as_json(alloc: Global, text: &str, wanted: &str) -> bool {
    match outcome_of(alloc, text) {
        None => false,
        Some(outcome) => are_bytes(json_of(alloc, &outcome), wanted),
    }
}

const THREE_BIDDERS_JSON: &str =
    "{\"bidders\":[{\"award\":[1],\"bidder\":1,\"credit\":-4,\"debit\":-4,\"pays\":6},{\"award\":[1],\"bidder\":2,\"credit\":-5,\"debit\":-5,\"pays\":6},{\"award\":[0],\"bidder\":3,\"credit\":-7,\"debit\":-7,\"pays\":0}],\"clocks\":[{\"choices\":[{\"bidder\":1,\"bundle\":[1]},{\"bidder\":2,\"bundle\":[1]},{\"bidder\":3,\"bundle\":[0]}],\"clock\":0,\"prices\":[6],\"steps\":6},{\"choices\":[{\"bidder\":2,\"bundle\":[1]},{\"bidder\":3,\"bundle\":[1]}],\"clock\":1,\"prices\":[3],\"steps\":3},{\"choices\":[{\"bidder\":1,\"bundle\":[1]},{\"bidder\":3,\"bundle\":[1]}],\"clock\":2,\"prices\":[4],\"steps\":4},{\"choices\":[{\"bidder\":1,\"bundle\":[1]},{\"bidder\":2,\"bundle\":[1]}],\"clock\":3,\"prices\":[4],\"steps\":4}],\"goods\":1,\"prices\":[6]}\n";

#[test]
fn json_has_its_members_in_the_order_of_their_keys(rt: HostRuntime) {
    assert!(rt; is_written_as_json(rt.alloc(), ONE_BIDDER, ONE_BIDDER_JSON));
    assert!(rt; is_written_as_json(rt.alloc(), THREE_BIDDERS, THREE_BIDDERS_JSON));
}

const GREATEST_OPENING_JSON: &str =
    "{\"bidders\":[{\"award\":[2],\"bidder\":1,\"credit\":0,\"debit\":0,\"pays\":0}],\"clocks\":[{\"choices\":[{\"bidder\":1,\"bundle\":[2]}],\"clock\":0,\"prices\":[0],\"steps\":0},{\"choices\":[],\"clock\":1,\"prices\":[0],\"steps\":0}],\"goods\":1,\"opening\":[4294967295],\"prices\":[0]}\n";

#[test]
fn json_has_the_opening_before_the_prices(rt: HostRuntime) {
    assert!(rt; is_written_as_json(rt.alloc(), GREATEST_OPENING, GREATEST_OPENING_JSON));
}

/// Whether a text is refused. Nothing is said where there is no memory.
fn is_refused(alloc: Global, bytes: &[u8]) -> Option<bool> {
    match read_plain(alloc, bytes) {
        Ok(outcome) => Some(outcome.is_none()),
        Err(_) => None,
    }
}

/// The text of one bidder, with the first of these words changed.
fn changed(alloc: Global, old: &str, new: &str) -> Option<String> {
    match ONE_BIDDER.split_once(old) {
        None => None,
        Some((front, back)) => format!(in alloc; "{front}{new}{back}").ok(),
    }
}

/// Whether the text of one bidder is refused with this change.
fn is_refused_with(alloc: Global, old: &str, new: &str) -> Option<bool> {
    match changed(alloc, old, new) {
        None => None,
        Some(text) => is_refused(alloc, text.as_bytes()),
    }
}

/// The text of one bidder with a byte that is no text after it.
fn with_no_text(alloc: Global) -> Option<Vec<u8>> {
    match ONE_BIDDER.as_bytes().to_vec(alloc) {
        Err(_) => None,
        Ok(bytes) => with_byte(bytes, 0xff),
    }
}

fn with_byte(bytes: Vec<u8>, byte: u8) -> Option<Vec<u8>> {
    let mut bytes = bytes;
    match bytes.push(byte) {
        Ok(()) => Some(bytes),
        Err(_) => None,
    }
}

/// Changes of the text of one bidder: old words and new ones.
const CHANGES: &[(&str, &str)] = &[
    // numbers
    ("award 2", "award 02"),
    ("debit 0", "debit -0"),
    ("pays 0", "pays +0"),
    ("pays 0", "pays 0.0"),
    ("award 2", "award 65536"),
    (
        "clock 1 steps 0 prices 0",
        "clock 1 steps 0 prices 4294967296",
    ),
    ("clock 1 steps 0", "clock 1 steps 4294967296"),
    ("debit 0", "debit 9223372036854775808"),
    ("debit 0", "debit -9223372036854775809"),
    ("prices 0\nbidder", "prices 1\nbidder"),
    ("goods 1", "goods 0"),
    ("goods 1", "goods 2"),
    ("goods 1", "goods 7"),
    ("bidders 1", "bidders 0"),
    ("bidders 1", "bidders 2"),
    ("bidders 1", "bidders 13"),
    ("bidder 1 award", "bidder 2 award"),
    ("clock 1", "clock 2"),
    ("choice 0 1 2", "choice 1 1 2"),
    ("choice 0 1 2", "choice 0 2 2"),
    ("choice 0 1 2", "choice 0 1 2 0"),
    // lines
    ("choice 0 1 2\n", "choice 0 1 2\nchoice 0 1 2\n"),
    ("choice 0 1 2\n", ""),
    (
        "clock 1 steps 0 prices 0\n",
        "clock 1 steps 0 prices 0\nclock 2 steps 0 prices 0\n",
    ),
    ("clock 1 steps 0 prices 0\n", ""),
    ("clock 1 steps 0 prices 0\n", "clock 1 steps 0 prices 0\n\n"),
    ("clock 1 steps 0 prices 0\n", "clock 1 steps 0 prices 0"),
    // blanks, and words in the place of others
    ("goods 1", "goods  1"),
    ("goods 1", "goods\t1"),
    ("pays 0\n", "pays 0 \n"),
    ("pays 0\n", "pays 0\r\n"),
    ("settled", " settled"),
    ("settled", "Settled"),
    ("debit 0 credit", "credit 0 debit"),
];

/// The line of the prices with others in its place, for the line of the opening prices.
const OPENING_LINES: &[&str] = &[
    "prices 0\nopening\n",
    "prices 0\nopening 0 0\n",
    "prices 0\nopening 4294967296\n",
    "prices 0\nopening -1\n",
    "prices 0\nopening 0\nopening 0\n",
    "prices 0\nOpening 0\n",
    "prices 0 opening 0\n",
    "opening 0\nprices 0\n",
    "opening 0\n",
];

/// The first of these changes with which the text of one bidder is not refused.
fn first_taken<'a>(alloc: Global, changes: &[(&'a str, &'a str)]) -> Option<(&'a str, &'a str)> {
    for (old, new) in changes {
        if is_refused_with(alloc, old, new) != Some(true) {
            return Some((*old, *new));
        }
    }
    None
}

/// The first of these lines that is taken in the place of the line of the prices.
fn first_line_taken<'a>(alloc: Global, lines: &[&'a str]) -> Option<&'a str> {
    for new in lines {
        if is_refused_with(alloc, "prices 0\n", new) != Some(true) {
            return Some(*new);
        }
    }
    None
}

#[test]
fn other_texts_are_refused(rt: HostRuntime) -> Result<(), Fail> {
    equal(first_taken(rt.alloc(), CHANGES), None)?;
    equal(first_line_taken(rt.alloc(), OPENING_LINES), None)?;
    equal_in("empty", is_refused(rt.alloc(), b""), Some(true))?;
    equal_in("a newline", is_refused(rt.alloc(), b"\n"), Some(true))?;
    assert!(rt; is_no_text_refused(rt.alloc()), "no text");
    Ok(())
}

/// Whether bytes that are no text are refused.
fn is_no_text_refused(alloc: Global) -> bool {
    match with_no_text(alloc) {
        None => false,
        Some(bytes) => is_refused(alloc, &bytes) == Some(true),
    }
}

/// Rows of nothing for so many bidders.
fn empty_rows(alloc: Global, award: Bundle, bidders: u8) -> Option<Vec<AwardRow>> {
    let mut rows = Vec::new(alloc);
    for _ in 0..bidders {
        let row = AwardRow {
            award,
            debit: 0,
            credit: 0,
            pays: 0,
        };
        rows.push(row).ok()?;
    }
    Some(rows)
}

/// The choice of one bundle by each of so many bidders but the one of this number.
fn choices_without(alloc: Global, bundle: Bundle, bidders: u8, without: u8) -> Option<Choice> {
    let mut bundles = Vec::new(alloc);
    for bidder in 1..bidders as usize + 1 {
        if bidder != without as usize {
            bundles.push(bundle).ok()?;
        }
    }
    Some(Choice::from_vec(bundles))
}

/// The clocks of so many bidders, without a step.
fn still_clocks(
    alloc: Global,
    bundle: Bundle,
    prices: Prices,
    bidders: u8,
) -> Option<Vec<ClockRow>> {
    let mut clocks = Vec::new(alloc);
    for clock in 0..=bidders {
        let choices = choices_without(alloc, bundle, bidders, clock)?;
        let row = ClockRow {
            steps: 0,
            prices,
            choices,
        };
        clocks.push(row).ok()?;
    }
    Some(clocks)
}

/// Prices of 0, nothing for anybody, and clocks without a step.
fn nothing_sold(alloc: Global, zeros: &[u16], prices: &[u32], bidders: u8) -> Option<Outcome> {
    let bundle = Bundle::read(zeros)?;
    let prices = Prices::read(prices)?;
    let rows = empty_rows(alloc, bundle, bidders)?;
    let clocks = still_clocks(alloc, bundle, prices, bidders)?;
    Some(Outcome {
        prices,
        opening: Some(prices),
        rows: Sequence::from_vec(rows),
        clocks: Sequence::from_vec(clocks),
    })
}

/// The outcome in which nothing of so many goods is sold.
fn outcome_of_nothing(alloc: Global, goods: usize, bidders: u8) -> Option<Outcome> {
    if goods > 6 {
        return None;
    }
    nothing_sold(alloc, &[0; 6][..goods], &[0; 6][..goods], bidders)
}

/// It as a text.
fn text_of_nothing(alloc: Global, goods: usize, bidders: u8) -> Option<Vec<u8>> {
    match outcome_of_nothing(alloc, goods, bidders) {
        None => None,
        Some(outcome) => plain_of(alloc, &outcome),
    }
}

/// How many bytes its JSON has.
fn json_length(alloc: Global, goods: usize, bidders: u8) -> Option<usize> {
    match outcome_of_nothing(alloc, goods, bidders) {
        None => None,
        Some(outcome) => length_of(json_of(alloc, &outcome)),
    }
}

/// How many bytes were written.
fn length_of(written: Option<Vec<u8>>) -> Option<usize> {
    match written {
        None => None,
        Some(bytes) => Some(bytes.len()),
    }
}

/// Whether that text is refused. Nothing is said where there is no memory.
fn is_nothing_refused(alloc: Global, goods: usize, bidders: u8) -> Option<bool> {
    match text_of_nothing(alloc, goods, bidders) {
        None => None,
        Some(text) => is_refused(alloc, &text),
    }
}

#[test]
fn there_are_one_to_twelve_bidders(rt: HostRuntime) -> Result<(), Fail> {
    for (bidders, refused) in [(0, true), (1, false), (12, false), (13, true)] {
        for goods in 1..7 {
            let found = is_nothing_refused(rt.alloc(), goods, bidders);
            equal_in((goods, bidders), found, Some(refused))?;
        }
    }
    Ok(())
}

/// Goods, bidders, and the bytes of the JSON in which nothing of these is sold.
const LENGTHS: &[(usize, u8, usize)] = &[(1, 1, 238), (1, 12, 5119), (6, 1, 298), (6, 12, 6829)];

#[test]
fn json_holds_twelve_bidders_and_six_goods(rt: HostRuntime) -> Result<(), Fail> {
    for (goods, bidders, bytes) in LENGTHS {
        let found = json_length(rt.alloc(), *goods, *bidders);
        equal_in((goods, bidders), found, Some(*bytes))?;
    }
    Ok(())
}

/// How a clock stands: its round, its phase, its prices, and the line that tells this.
type Standing = (u32, Phase, &'static [u32], &'static str);

const ONE_PRICE: &[u32] = &[7];

const SIX_PRICES: &[u32] = &[0, 1, 20, 300, 4_294_967_295, 0];

const STANDINGS: &[Standing] = &[
    (
        1,
        Phase::Running,
        ONE_PRICE,
        "clock 12 round 1 running prices 7 missing 3\n",
    ),
    (
        2,
        Phase::Ended,
        ONE_PRICE,
        "clock 12 round 2 ended prices 7\n",
    ),
    (
        3,
        Phase::Halted(0),
        ONE_PRICE,
        "clock 12 round 3 halted 0 prices 7\n",
    ),
    (
        10,
        Phase::Running,
        SIX_PRICES,
        "clock 12 round 10 running prices 0 1 20 300 4294967295 0 missing 3\n",
    ),
    (
        4_294_967_295,
        Phase::Ended,
        SIX_PRICES,
        "clock 12 round 4294967295 ended prices 0 1 20 300 4294967295 0\n",
    ),
    (
        60_001,
        Phase::Halted(5),
        SIX_PRICES,
        "clock 12 round 60001 halted 5 prices 0 1 20 300 4294967295 0\n",
    ),
];

fn standing_of(alloc: Global, look: &Look) -> Option<Vec<u8>> {
    write_standing(alloc, 12, look, 3).ok()
}

/// Whether a clock that stands so is told by its line.
fn is_told(alloc: Global, standing: &Standing) -> bool {
    let (round, phase, prices, wanted) = *standing;
    match Prices::read(prices) {
        None => false,
        Some(prices) => {
            let look = Look {
                round,
                phase,
                prices,
            };
            are_bytes(standing_of(alloc, &look), wanted)
        }
    }
}

#[test]
fn a_standing_is_one_line(rt: HostRuntime) {
    for standing in STANDINGS {
        assert!(rt; is_told(rt.alloc(), standing), "{standing:?}");
    }
}
