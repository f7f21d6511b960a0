//! Two faults in one file: the one that the format names first is answered.
use super::*;

#[test]
fn answers_the_first_of_two_at_the_top(rt: HostRuntime) -> Result<(), Fail> {
    check(
        &rt,
        &[
            ("opening = 1\nversion = \n", GOODS, BIDDERS, "NotToml"),
            (
                "opening = 1\nceiling = 10\n",
                GOODS,
                BIDDERS,
                "UnknownKey(\"opening\")",
            ),
            ("", GOODS, BIDDERS, "Missing(Version)"),
            ("version = true\n", GOODS, BIDDERS, "WrongKind(Version)"),
            ("version = 3\n", GOODS, BIDDERS, "Version(3)"),
            ("version = 2\n", "", BIDDERS, "Missing(Ceiling)"),
            ("version = 1\n", "", BIDDERS, "Missing(Ceiling)"),
            (
                "version = 1\nceiling = \"10\"\n",
                "goods = 1\n",
                BIDDERS,
                "WrongKind(Ceiling)",
            ),
            ("version = 1\nceiling = 1\n", "", BIDDERS, "Ceiling(1)"),
            (HEAD, "", "", "Missing(Goods)"),
            (HEAD, "goods = 1\nbidders = 1\n", "", "WrongKind(Goods)"),
        ],
    )?;
    Ok(())
}

#[test]
fn answers_the_first_of_two_at_the_goods(rt: HostRuntime) -> Result<(), Fail> {
    check(
        &rt,
        &[
            (
                HEAD,
                "goods = [1, { size = 1 }]\n",
                BIDDERS,
                "WrongKind(GoodTable(0))",
            ),
            (
                HEAD,
                "[[goods]]\nunit = \"t\"\nsupply = 1\n",
                BIDDERS,
                "UnknownKey(\"unit\")",
            ),
            (
                HEAD,
                "[[goods]]\nunit = \"t\"\nsort = 1\n",
                BIDDERS,
                "UnknownKey(\"sort\")",
            ),
            (HEAD, "[[goods]]\n", BIDDERS, "Missing(GoodName(0))"),
            (
                HEAD,
                "[[goods]]\nname = 1\n",
                BIDDERS,
                "WrongKind(GoodName(0))",
            ),
            (
                HEAD,
                "[[goods]]\nname = \"?\"\n",
                BIDDERS,
                "BadName(GoodName(0))",
            ),
            (
                HEAD,
                "goods = [{ name = \"?\", supply = 1 }, { name = \"?\" }]\n",
                BIDDERS,
                "BadName(GoodName(0))",
            ),
            (
                HEAD,
                "goods = [{ name = \"oil\", supply = 1 }, { name = \"oil\" }]\n",
                BIDDERS,
                "Repeated(GoodName(1))",
            ),
            (
                HEAD,
                "goods = [{ name = \"oil\" }, 1]\n",
                BIDDERS,
                "Missing(Supply(0))",
            ),
            (
                HEAD,
                "goods = [{ name = \"oil\", supply = \"1\" }, { name = \"oil\", supply = 1 }]\n",
                BIDDERS,
                "WrongKind(Supply(0))",
            ),
            (
                HEAD,
                "goods = [{ name = \"oil\", supply = -1 }, { unit = 1 }]\n",
                BIDDERS,
                "BadSupply { good: 0, value: -1 }",
            ),
            (
                HEAD,
                "goods = [{ name = \"oil\", supply = 0 }, { name = \"gas\", supply = -1 }]\n",
                BIDDERS,
                "BadSupply { good: 1, value: -1 }",
            ),
            (HEAD, "goods = []\n", "", "Goods(NoGoods)"),
            (
                HEAD,
                "goods = [{ name = \"oil\", supply = 0 }]\nbidders = 1\n",
                "",
                "Goods(ZeroSupply(0))",
            ),
            (
                HEAD,
                "goods = [{ name = \"oil\", supply = 0 }, { name = \"gas\", supply = 2048 }]\n",
                BIDDERS,
                "Goods(ZeroSupply(0))",
            ),
        ],
    )?;
    Ok(())
}

#[test]
fn answers_the_first_of_two_at_the_bidders(rt: HostRuntime) -> Result<(), Fail> {
    let token = "token = \"ba7816bf8f01cfea414140de5dae2223b00361a396177a9cb410ff61f20015ad\"";
    let ada = format!(in rt.alloc(); "[[bidders]]\nname = \"ada\"\n{token}\n")?;
    let ada = ada.as_str();
    let repeated = format!(in rt.alloc(); "{ada}[[bidders]]\nname = \"ada\"\ntoken = \"?\"\n")?;
    let missing = format!(in rt.alloc(); "[[bidders]]\nname = \"ada\"\n[[bidders]]\n")?;
    let bad = format!(in rt.alloc();
        "[[bidders]]\nname = \"bob\"\ntoken = \"?\"\n[[bidders]]\nsort = 1\n"
    )?;
    let second = format!(in rt.alloc();
        "{ada}[[bidders]]\nname = \"bob\"\ntoken = \"?\"\n[[bidders]]\n"
    )?;
    check(
        &rt,
        &[
            (
                HEAD,
                "bidders = [0, 1, 2, 3, 4, 5, 6, 7, 8, 9, 10, 11, 12]\n",
                GOODS,
                "Bidders(13)",
            ),
            (
                HEAD,
                "bidders = [1, { sort = 1 }]\n",
                GOODS,
                "WrongKind(BidderTable(1))",
            ),
            (
                HEAD,
                GOODS,
                "[[bidders]]\nsort = 1\n",
                "UnknownKey(\"sort\")",
            ),
            (
                HEAD,
                GOODS,
                "[[bidders]]\ntoken = 1\n",
                "Missing(BidderName(1))",
            ),
            (
                HEAD,
                GOODS,
                "[[bidders]]\nname = 1\n",
                "WrongKind(BidderName(1))",
            ),
            (
                HEAD,
                GOODS,
                "[[bidders]]\nname = \"?\"\ntoken = 1\n",
                "BadName(BidderName(1))",
            ),
            (HEAD, GOODS, repeated.as_str(), "Repeated(BidderName(2))"),
            (HEAD, GOODS, missing.as_str(), "Missing(Token(1))"),
            (HEAD, GOODS, bad.as_str(), "BadDigest(1)"),
            (HEAD, GOODS, second.as_str(), "BadDigest(2)"),
        ],
    )?;
    Ok(())
}
