//! Two goods, of two units and of one, so the bundles are (0, 0), (0, 1), (1, 0), (1, 1), (2, 0) and (2, 1); the ceiling is 10.
use lot_base::{Goods, Prices, Terms};
use std::alloc::AllocError;
use std::process::Abort;
use std::test::Fail;
use valuation::{Costs, Surplus, Valuation, column_of, read};

mod demands;
mod files;

/// A file, and the values of its last bidder or the fault, as `Debug` prints them.
type Case<'a> = (&'a str, &'a str);

/// The goods.
fn goods(rt: &impl Abort) -> Goods {
    match Goods::new(&[2, 1]) {
        Ok(goods) => goods,
        Err(_) => panic!(rt; "goods"),
    }
}

/// Terms for so many bidders.
fn terms(rt: &impl Abort, bidders: u8) -> Terms {
    match Terms::new(goods(rt), bidders, 10) {
        Ok(terms) => terms,
        Err(_) => panic!(rt; "terms"),
    }
}

/// What the bytes are answered with.
fn answer(
    rt: &(impl AllocGlobal + Abort),
    bidders: u8,
    bytes: &[u8],
) -> Result<String, AllocError> {
    match read(rt.alloc(), &terms(rt, bidders), bytes) {
        Ok(valuations) => match valuations.last() {
            Some(last) => format!(in rt.alloc(); "{:?}", last.as_slice()),
            None => String::from_str(rt.alloc(), "none"),
        },
        Err(fault) => format!(in rt.alloc(); "{fault:?}"),
    }
}

/// Checks each file against its answer.
fn check(
    rt: &(impl AllocGlobal + Abort),
    bidders: u8,
    head: &str,
    cases: &[Case],
) -> Result<(), AllocError> {
    for (text, wanted) in cases {
        let file = format!(in rt.alloc(); "{head}{text}")?;
        let found = answer(rt, bidders, file.as_bytes())?;
        assert_eq!(rt; found.as_str(), *wanted, "{head}{text}");
    }
    Ok(())
}
