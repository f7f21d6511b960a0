//! What the clauses do not say: that calls succeed with ample memory, and values from outside. Digests are those of
//! `sha256sum`; the faults are those of the format, read by hand.
use auction_file::{AuctionFault, KeyText, MOST_BYTES, read};
use std::alloc::AllocError;
use std::process::Abort;
use std::test::Fail;

mod accepted;
mod faults;
mod odd;
mod order;
mod reserves;

const HEAD: &str = "version = 1\nceiling = 10\n";

const HEAD_2: &str = "version = 2\nceiling = 10\n";

const GOODS: &str = r#"
[[goods]]
name = "oil"
supply = 1
"#;

/// Goods of version 2.
const THREE_GOODS: &str = r#"
[[goods]]
name = "oil"
supply = 1
opening = 9

[[goods]]
name = "gas"
supply = 2

[[goods]]
opening = 0x4
name = "coal"
supply = 3
"#;

const BIDDERS: &str = r#"
[[bidders]]
name = "ada"
token = "ba7816bf8f01cfea414140de5dae2223b00361a396177a9cb410ff61f20015ad"

[[bidders]]
name = "bob"
token = "2cf24dba5fb0a30e26e83b2ac5b9e29e1b161e5c1fa7425e73043362938b9824"
"#;

/// A file of three parts, and the fault of it as `Debug` prints it; `read` where there is none.
type Case<'a> = (&'a str, &'a str, &'a str, &'a str);

/// What the file of these parts is answered with.
fn answer(
    rt: &(impl AllocGlobal + Abort),
    head: &str,
    goods: &str,
    bidders: &str,
) -> Result<String, AllocError> {
    let text = format!(in rt.alloc(); "{head}{goods}{bidders}")?;
    answer_to(rt, text.as_bytes())
}

/// What these bytes are answered with.
fn answer_to(rt: &(impl AllocGlobal + Abort), bytes: &[u8]) -> Result<String, AllocError> {
    assert!(rt; bytes.len() <= MOST_BYTES);
    match read(rt.alloc(), bytes) {
        Ok(_) => String::from_str(rt.alloc(), "read"),
        Err(fault) => format!(in rt.alloc(); "{fault:?}"),
    }
}

/// Checks each file against its answer.
fn check(rt: &(impl AllocGlobal + Abort), cases: &[Case]) -> Result<(), AllocError> {
    for (head, goods, bidders, fault) in cases {
        let found = answer(rt, head, goods, bidders)?;
        assert_eq!(rt; found.as_str(), *fault, "{head}{goods}{bidders}");
    }
    Ok(())
}
