//! One file for each fault at each key.
use super::*;
use expected_values::equal;

#[test]
fn refuses_the_keys_of_the_file(rt: HostRuntime) -> Result<(), Fail> {
    check(
        &rt,
        &[
            ("version = \n", GOODS, BIDDERS, "NotToml"),
            ("version = 1\nversion = 1\n", GOODS, BIDDERS, "NotToml"),
            ("version = 9223372036854775808\n", GOODS, BIDDERS, "NotToml"),
            (
                "version = 1\nceiling = 10\nopening = 0\n",
                GOODS,
                BIDDERS,
                "UnknownKey(\"opening\")",
            ),
            (
                "zinc = 1\nversion = 1\nZinc = 1\nceiling = 10\n",
                GOODS,
                BIDDERS,
                "UnknownKey(\"Zinc\")",
            ),
            ("ceiling = 10\n", GOODS, BIDDERS, "Missing(Version)"),
            (
                "version = \"1\"\nceiling = 10\n",
                GOODS,
                BIDDERS,
                "WrongKind(Version)",
            ),
            (
                "version = 1.0\nceiling = 10\n",
                GOODS,
                BIDDERS,
                "WrongKind(Version)",
            ),
            ("version = 3\nceiling = 10\n", GOODS, BIDDERS, "Version(3)"),
            (
                "version = -1\nceiling = 10\n",
                GOODS,
                BIDDERS,
                "Version(-1)",
            ),
            ("version = 1\n", GOODS, BIDDERS, "Missing(Ceiling)"),
            (
                "version = 1\nceiling = [10]\n",
                GOODS,
                BIDDERS,
                "WrongKind(Ceiling)",
            ),
            ("version = 1\nceiling = 1\n", GOODS, BIDDERS, "Ceiling(1)"),
            (
                "version = 1\nceiling = 10001\n",
                GOODS,
                BIDDERS,
                "Ceiling(10001)",
            ),
            (
                "version = 1\nceiling = -10\n",
                GOODS,
                BIDDERS,
                "Ceiling(-10)",
            ),
            (HEAD, "", BIDDERS, "Missing(Goods)"),
            (HEAD, "goods = 1\n", BIDDERS, "WrongKind(Goods)"),
            (
                HEAD,
                "[goods]\nname = \"oil\"\nsupply = 1\n",
                BIDDERS,
                "WrongKind(Goods)",
            ),
            (HEAD, GOODS, "", "Missing(Bidders)"),
            (
                HEAD,
                GOODS,
                "[bidders]\nname = \"ada\"\n",
                "WrongKind(Bidders)",
            ),
        ],
    )?;
    Ok(())
}

#[test]
fn refuses_the_keys_of_a_good(rt: HostRuntime) -> Result<(), Fail> {
    check(
        &rt,
        &[
            (HEAD, "goods = [1]\n", BIDDERS, "WrongKind(GoodTable(0))"),
            (
                HEAD,
                "goods = [{ name = \"oil\", supply = 1 }, \"gas\"]\n",
                BIDDERS,
                "WrongKind(GoodTable(1))",
            ),
            (
                HEAD,
                "[[goods]]\nname = \"oil\"\nsupply = 1\nunit = \"t\"\n",
                BIDDERS,
                "UnknownKey(\"unit\")",
            ),
            (
                HEAD,
                "[[goods]]\nsupply = 1\n",
                BIDDERS,
                "Missing(GoodName(0))",
            ),
            (
                HEAD,
                "[[goods]]\nname = 1\nsupply = 1\n",
                BIDDERS,
                "WrongKind(GoodName(0))",
            ),
            (
                HEAD,
                "[[goods]]\nname = \"\"\nsupply = 1\n",
                BIDDERS,
                "BadName(GoodName(0))",
            ),
            (
                HEAD,
                "[[goods]]\nname = \"Oil\"\nsupply = 1\n",
                BIDDERS,
                "BadName(GoodName(0))",
            ),
            (
                HEAD,
                "[[goods]]\nname = \"crude oil\"\nsupply = 1\n",
                BIDDERS,
                "BadName(GoodName(0))",
            ),
            (
                HEAD,
                "[[goods]]\nname = \"a-name-of-33-bytes-0123456789abcd\"\nsupply = 1\n",
                BIDDERS,
                "BadName(GoodName(0))",
            ),
            (
                HEAD,
                "[[goods]]\nname = \"oil\"\nsupply = 1\n[[goods]]\nname = \"oil\"\nsupply = 2\n",
                BIDDERS,
                "Repeated(GoodName(1))",
            ),
            (
                HEAD,
                "[[goods]]\nname = \"oil\"\n",
                BIDDERS,
                "Missing(Supply(0))",
            ),
            (
                HEAD,
                "[[goods]]\nname = \"oil\"\nsupply = true\n",
                BIDDERS,
                "WrongKind(Supply(0))",
            ),
            (
                HEAD,
                "[[goods]]\nname = \"oil\"\nsupply = -1\n",
                BIDDERS,
                "BadSupply { good: 0, value: -1 }",
            ),
            (
                HEAD,
                "[[goods]]\nname = \"oil\"\nsupply = 65536\n",
                BIDDERS,
                "BadSupply { good: 0, value: 65536 }",
            ),
        ],
    )?;
    Ok(())
}

#[test]
fn refuses_supplies_that_cannot_be_sold(rt: HostRuntime) -> Result<(), Fail> {
    let seven = r#"goods = [
    { name = "a", supply = 1 }, { name = "b", supply = 1 }, { name = "c", supply = 1 }, { name = "d", supply = 1 },
    { name = "e", supply = 1 }, { name = "f", supply = 1 }, { name = "g", supply = 0 },
]
"#;
    check(
        &rt,
        &[
            (HEAD, "goods = []\n", BIDDERS, "Goods(NoGoods)"),
            (HEAD, seven, BIDDERS, "Goods(TooManyGoods(7))"),
            (
                HEAD,
                "[[goods]]\nname = \"oil\"\nsupply = 0\n",
                BIDDERS,
                "Goods(ZeroSupply(0))",
            ),
            (
                HEAD,
                "[[goods]]\nname = \"oil\"\nsupply = 2048\n",
                BIDDERS,
                "Goods(BoxTooLarge(2049))",
            ),
        ],
    )?;
    Ok(())
}

#[test]
fn refuses_the_keys_of_a_bidder(rt: HostRuntime) -> Result<(), Fail> {
    let token = "token = \"ba7816bf8f01cfea414140de5dae2223b00361a396177a9cb410ff61f20015ad\"\n";
    let digits = "ba7816bf8f01cfea414140de5dae2223b00361a396177a9cb410ff61f20015a";
    let office = format!(in rt.alloc(); "[[bidders]]\nname = \"ada\"\n{token}[bidders.office]\n")?;
    let unnamed = format!(in rt.alloc(); "[[bidders]]\n{token}")?;
    let numbered = format!(in rt.alloc(); "[[bidders]]\nname = 1\n{token}")?;
    let shouted = format!(in rt.alloc(); "[[bidders]]\nname = \"ADA\"\n{token}")?;
    let twice = format!(in rt.alloc();
        "[[bidders]]\nname = \"ada\"\n{token}[[bidders]]\nname = \"ada\"\n{token}"
    )?;
    let short = format!(in rt.alloc(); "[[bidders]]\nname = \"ada\"\ntoken = \"{digits}\"\n")?;
    let long = format!(in rt.alloc(); "[[bidders]]\nname = \"ada\"\ntoken = \"{digits}00\"\n")?;
    let no_digit = format!(in rt.alloc(); "[[bidders]]\nname = \"ada\"\ntoken = \"{digits}g\"\n")?;
    let none = "bidders = []\n";
    let thirteen = "bidders = [1, 2, 3, 4, 5, 6, 7, 8, 9, 10, 11, 12, 13]\n";
    check(
        &rt,
        &[
            (HEAD, none, GOODS, "Bidders(0)"),
            (HEAD, thirteen, GOODS, "Bidders(13)"),
            (HEAD, "bidders = [1]\n", GOODS, "WrongKind(BidderTable(1))"),
            (HEAD, GOODS, office.as_str(), "UnknownKey(\"office\")"),
            (HEAD, GOODS, unnamed.as_str(), "Missing(BidderName(1))"),
            (HEAD, GOODS, numbered.as_str(), "WrongKind(BidderName(1))"),
            (HEAD, GOODS, shouted.as_str(), "BadName(BidderName(1))"),
            (HEAD, GOODS, twice.as_str(), "Repeated(BidderName(2))"),
            (
                HEAD,
                GOODS,
                "[[bidders]]\nname = \"ada\"\n",
                "Missing(Token(1))",
            ),
            (
                HEAD,
                GOODS,
                "[[bidders]]\nname = \"ada\"\ntoken = 7\n",
                "WrongKind(Token(1))",
            ),
            (HEAD, GOODS, short.as_str(), "BadDigest(1)"),
            (HEAD, GOODS, long.as_str(), "BadDigest(1)"),
            (HEAD, GOODS, no_digit.as_str(), "BadDigest(1)"),
        ],
    )?;
    Ok(())
}

#[test]
fn refuses_bytes_that_are_not_utf8(rt: HostRuntime) -> Result<(), Fail> {
    let found = answer_to(&rt, b"version = 1 # \xff\n")?;
    equal(found.as_str(), "NotToml")?;
    let found = answer_to(&rt, b"")?;
    equal(found.as_str(), "Missing(Version)")?;
    Ok(())
}

#[test]
fn counts_257_goods(rt: HostRuntime) -> Result<(), Fail> {
    let mut goods = String::new(rt.alloc());
    for place in 0..256u32 {
        let good = format!(in rt.alloc(); "[[goods]]\nname = \"g{place}\"\nsupply = 1\n")?;
        goods.push_str(good.as_str())?;
    }
    let all = goods.as_str();
    let good = format!(in rt.alloc(); "{all}[[goods]]\nname = \"last\"\nsupply = 1\n")?;
    let repeated = format!(in rt.alloc(); "{all}[[goods]]\nname = \"g0\"\nsupply = 1\n")?;
    let missing = format!(in rt.alloc(); "{all}[[goods]]\nname = \"last\"\n")?;
    let negative = format!(in rt.alloc(); "{all}[[goods]]\nname = \"last\"\nsupply = -1\n")?;
    let opened = format!(in rt.alloc();
        "{all}[[goods]]\nname = \"last\"\nsupply = 1\nopening = 10\n"
    )?;
    check(
        &rt,
        &[
            (HEAD, good.as_str(), BIDDERS, "Goods(TooManyGoods(257))"),
            (HEAD, repeated.as_str(), BIDDERS, "Repeated(GoodName(256))"),
            (HEAD, missing.as_str(), BIDDERS, "Missing(Supply(256))"),
            (
                HEAD,
                negative.as_str(),
                BIDDERS,
                "BadSupply { good: 255, value: -1 }",
            ),
            (
                HEAD_2,
                opened.as_str(),
                BIDDERS,
                "Opening { good: 256, value: 10 }",
            ),
        ],
    )?;
    Ok(())
}
