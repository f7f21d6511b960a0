//! Tables, each with its verdict. The first broken triples were found by going through the definition.
use exchange_check::{Verdict, check};
use expected_values::equal_in;
use lot_base::{Goods, Terms};
use std::alloc::AllocError;
use std::process::Abort;
use std::test::Fail;
use valuation::{Valuation, read};

/// A supply, a table of values, and the verdict: `holds`, or the two bundles and the good.
type Case<'a> = (&'a [u16], &'a str, &'a str);

/// The goods of this supply.
fn goods(rt: &impl Abort, supply: &[u16]) -> Goods {
    match Goods::new(supply) {
        Ok(goods) => goods,
        Err(_) => panic!(rt; "goods"),
    }
}

/// Terms for one bidder.
fn terms(rt: &impl Abort, goods: Goods) -> Terms {
    match Terms::new(goods, 1, 100) {
        Ok(terms) => terms,
        Err(_) => panic!(rt; "terms"),
    }
}

/// The valuation with these values.
fn valuation(
    rt: &(impl AllocGlobal + Abort),
    goods: Goods,
    values: &str,
) -> Result<Valuation, AllocError> {
    let text = format!(in rt.alloc(); "[[valuations]]\nform = \"table\"\nvalues = [{values}]\n")?;
    match read(rt.alloc(), &terms(rt, goods), text.as_bytes()) {
        Ok(mut valuations) => match valuations.pop() {
            Some(valuation) => Ok(valuation),
            None => panic!(rt; "no valuation"),
        },
        Err(fault) => panic!(rt; "{fault:?}"),
    }
}

/// The verdict in words.
fn words(rt: &impl AllocGlobal, verdict: &Verdict) -> Result<String, AllocError> {
    match verdict {
        Verdict::Holds => String::from_str(rt.alloc(), "holds"),
        Verdict::Breaks { x, y, good } => {
            format!(in rt.alloc(); "{:?} {:?} {good}", x.as_slice(), y.as_slice())
        }
    }
}

#[test]
fn tables_have_their_verdicts(rt: HostRuntime) -> Result<(), Fail> {
    let cases: [Case; 9] = [
        (&[2, 1], "0, 3, 4, 6, 7, 8", "holds"),
        (&[1, 1], "0, 0, 0, 0", "holds"),
        (&[2, 1], "0, 0, 1, 0, 2, 0", "[0, 1] [2, 0] 1"),
        (&[3], "0, 0, 1, 3", "[2] [0] 0"),
        (&[3], "0, 3, 5, 6", "holds"),
        (&[1, 1], "0, 2, 0, 3", "[1, 1] [0, 0] 0"),
        (&[1, 1], "0, 2, 3, 5", "holds"),
        (&[1, 1, 1], "0, 1, 1, 2, 1, 1, 2, 2", "holds"),
        (
            &[1, 1, 1],
            "0, 2, 2, 3, 2, 4, 3, 4",
            "[0, 1, 0] [1, 0, 1] 1",
        ),
    ];
    for (supply, values, wanted) in cases {
        let goods = goods(&rt, supply);
        let found = words(&rt, &check(&goods, &valuation(&rt, goods, values)?))?;
        equal_in(values, found.as_str(), wanted)?;
    }
    Ok(())
}
