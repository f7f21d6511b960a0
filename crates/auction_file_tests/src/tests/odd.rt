//! Files at the limits of the format, and spellings that are seldom seen.
use super::*;
use expected_values::equal;

#[test]
fn tells_keys_apart_by_their_bytes(rt: HostRuntime) -> Result<(), Fail> {
    let found = answer_to(&rt, b"\xff = 1\n")?;
    equal(found.as_str(), "NotToml")?;
    check(
        &rt,
        &[
            ("\"\" = 1\n", GOODS, BIDDERS, "UnknownKey(\"\")"),
            (
                "\"\u{e9}\" = 1\nz = 1\n",
                GOODS,
                BIDDERS,
                "UnknownKey(\"z\")",
            ),
            (
                "versions = 1\nversio = 1\n",
                GOODS,
                BIDDERS,
                "UnknownKey(\"versio\")",
            ),
            ("Version = 1\n", GOODS, BIDDERS, "UnknownKey(\"Version\")"),
            (HEAD, "[[good]]\n", BIDDERS, "UnknownKey(\"good\")"),
        ],
    )?;
    Ok(())
}

#[test]
fn reads_numbers_up_to_their_limits(rt: HostRuntime) -> Result<(), Fail> {
    let largest = "goods = [{ name = \"oil\", supply = 9223372036854775807 }]\n";
    let smallest = "goods = [{ name = \"oil\", supply = -9223372036854775808 }]\n";
    let full = r#"goods = [
    { name = "a", supply = 3 }, { name = "b", supply = 3 }, { name = "c", supply = 3 },
    { name = "d", supply = 3 }, { name = "e", supply = 3 }, { name = "f", supply = 1 },
]
"#;
    let over = r#"goods = [
    { name = "a", supply = 3 }, { name = "b", supply = 3 }, { name = "c", supply = 3 },
    { name = "d", supply = 3 }, { name = "e", supply = 3 }, { name = "f", supply = 2 },
]
"#;
    check(
        &rt,
        &[
            ("version = 1\nceiling = 10_000\n", GOODS, BIDDERS, "read"),
            ("version = 0\nceiling = 10\n", GOODS, BIDDERS, "Version(0)"),
            (
                "version = 1\nceiling = 1979-05-27\n",
                GOODS,
                BIDDERS,
                "WrongKind(Ceiling)",
            ),
            (HEAD, full, BIDDERS, "read"),
            (HEAD, over, BIDDERS, "Goods(BoxTooLarge(3072))"),
            (
                HEAD,
                largest,
                BIDDERS,
                "BadSupply { good: 0, value: 9223372036854775807 }",
            ),
            (
                HEAD,
                smallest,
                BIDDERS,
                "BadSupply { good: 0, value: -9223372036854775808 }",
            ),
            (
                HEAD,
                "goods = [{ name = \"oil\", supply = 65535 }]\n",
                BIDDERS,
                "Goods(BoxTooLarge(65536))",
            ),
            (
                HEAD,
                "goods = [{ name = \"oil\", supply = 1.0 }]\n",
                BIDDERS,
                "WrongKind(Supply(0))",
            ),
        ],
    )?;
    Ok(())
}

#[test]
fn reads_names_and_digests_up_to_their_limits(rt: HostRuntime) -> Result<(), Fail> {
    let token = "BA7816bf8f01cfea414140de5dae2223b00361a396177a9cb410ff61f20015aD";
    let digits = "ba7816bf8f01cfea414140de5dae2223b00361a396177a9cb410ff61f20015";
    let mixed = format!(in rt.alloc(); "bidders = [{{ name = \"a\", token = \"{token}\" }}]\n")?;
    let wide = format!(in rt.alloc();
        "bidders = [{{ name = \"a\", token = \"{digits}\u{e9}\" }}]\n"
    )?;
    let accented = format!(in rt.alloc();
        "bidders = [{{ name = \"\u{e9}\", token = \"{token}\" }}]\n"
    )?;
    let mut twelve = String::from_str(rt.alloc(), "bidders = [")?;
    for number in 1..13u32 {
        let bidder = format!(in rt.alloc(); "{{ name = \"b{number}\", token = \"{token}\" }}, ")?;
        twelve.push_str(bidder.as_str())?;
    }
    twelve.push_str("]\n")?;
    check(
        &rt,
        &[
            (HEAD, mixed.as_str(), GOODS, "read"),
            (HEAD, wide.as_str(), GOODS, "BadDigest(1)"),
            (
                HEAD,
                "bidders = [{ name = \"a\", token = \"\" }]\n",
                GOODS,
                "BadDigest(1)",
            ),
            (HEAD, accented.as_str(), GOODS, "BadName(BidderName(1))"),
            (HEAD, twelve.as_str(), GOODS, "read"),
            (HEAD, "goods = [[1]]\n", BIDDERS, "WrongKind(GoodTable(0))"),
            (HEAD, "goods = [{}]\n", BIDDERS, "Missing(GoodName(0))"),
        ],
    )?;
    Ok(())
}

#[test]
fn reads_a_file_of_the_most_bytes(rt: HostRuntime) -> Result<(), Fail> {
    equal(MOST_BYTES, 65_536)?;
    let mut text = format!(in rt.alloc(); "{HEAD}{GOODS}{BIDDERS}#")?;
    for _ in 0..65_536 {
        if text.len() < 65_536 {
            text.push_str(" ")?;
        }
    }
    equal(text.len(), 65_536)?;
    let found = answer_to(&rt, text.as_bytes())?;
    equal(found.as_str(), "read")?;
    Ok(())
}
