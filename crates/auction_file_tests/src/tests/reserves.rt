//! The opening prices of a file of version 2, and where they stand among the other faults.
use super::*;

/// Checks each array of goods, in a file with this head, against its answer.
fn check_goods(
    rt: &(impl AllocGlobal + Abort),
    head: &str,
    cases: &[(&str, &str)],
) -> Result<(), AllocError> {
    for (goods, fault) in cases {
        let found = answer(rt, head, goods, BIDDERS)?;
        assert_eq!(rt; found.as_str(), *fault, "{head}{goods}");
    }
    Ok(())
}

#[test]
fn takes_openings_below_the_ceiling(rt: HostRuntime) -> Result<(), Fail> {
    check_goods(
        &rt,
        HEAD_2,
        &[
            (GOODS, "read"),
            (THREE_GOODS, "read"),
            (
                "goods = [{ name = \"oil\", supply = 1, opening = 0 }]\n",
                "read",
            ),
            (
                "goods = [{ name = \"oil\", supply = 1, opening = 9 }]\n",
                "read",
            ),
            (
                "goods = [{ name = \"oil\", supply = 1, opening = 10 }]\n",
                "Opening { good: 0, value: 10 }",
            ),
            (
                "goods = [{ name = \"oil\", supply = 1, opening = -1 }]\n",
                "Opening { good: 0, value: -1 }",
            ),
            (
                "goods = [{ name = \"oil\", supply = 1, opening = 9223372036854775807 }]\n",
                "Opening { good: 0, value: 9223372036854775807 }",
            ),
            (
                "goods = [{ name = \"oil\", supply = 1, opening = \"5\" }]\n",
                "WrongKind(Opening(0))",
            ),
            (
                "goods = [{ name = \"oil\", supply = 1, opening = 5.0 }]\n",
                "WrongKind(Opening(0))",
            ),
            (
                "goods = [{ name = \"oil\", supply = 1, opening = 9 }, { name = \"gas\", supply = 1, opening = 10 }]\n",
                "Opening { good: 1, value: 10 }",
            ),
        ],
    )?;
    Ok(())
}

#[test]
fn measures_an_opening_by_the_ceiling(rt: HostRuntime) -> Result<(), Fail> {
    let one = "goods = [{ name = \"oil\", supply = 1, opening = 1 }]\n";
    let two = "goods = [{ name = \"oil\", supply = 1, opening = 2 }]\n";
    let high = "goods = [{ name = \"oil\", supply = 1, opening = 9999 }]\n";
    check(
        &rt,
        &[
            ("version = 2\nceiling = 2\n", one, BIDDERS, "read"),
            (
                "version = 2\nceiling = 2\n",
                two,
                BIDDERS,
                "Opening { good: 0, value: 2 }",
            ),
            ("version = 2\nceiling = 10000\n", high, BIDDERS, "read"),
            (
                "version = 2\nceiling = 9999\n",
                high,
                BIDDERS,
                "Opening { good: 0, value: 9999 }",
            ),
            (
                HEAD_2,
                high,
                "bidders = 1\n",
                "Opening { good: 0, value: 9999 }",
            ),
            ("version = 0\nceiling = 10\n", one, BIDDERS, "Version(0)"),
            ("version = 3\nceiling = 10\n", one, BIDDERS, "Version(3)"),
            ("version = 2\nceiling = 1\n", two, BIDDERS, "Ceiling(1)"),
        ],
    )?;
    Ok(())
}

#[test]
fn knows_no_opening_in_version_1(rt: HostRuntime) -> Result<(), Fail> {
    check_goods(
        &rt,
        HEAD,
        &[
            (THREE_GOODS, "UnknownKey(\"opening\")"),
            (
                "goods = [{ name = \"oil\", supply = 1, opening = 0 }]\n",
                "UnknownKey(\"opening\")",
            ),
            (
                "goods = [{ unit = 1, name = \"oil\", supply = 1, opening = 0 }]\n",
                "UnknownKey(\"opening\")",
            ),
            (
                "goods = [{ opening = 0, name = \"oil\", supply = 1, colour = 1 }]\n",
                "UnknownKey(\"colour\")",
            ),
        ],
    )?;
    Ok(())
}

#[test]
fn answers_the_first_of_two_at_an_opening(rt: HostRuntime) -> Result<(), Fail> {
    check_goods(
        &rt,
        HEAD_2,
        &[
            (
                "goods = [{ opening = 10, unit = 1, name = \"oil\", supply = 1 }]\n",
                "UnknownKey(\"unit\")",
            ),
            (
                "goods = [{ opening = 10, supply = 1 }]\n",
                "Missing(GoodName(0))",
            ),
            (
                "goods = [{ opening = 10, name = \"oil\" }]\n",
                "Missing(Supply(0))",
            ),
            (
                "goods = [{ opening = 10, name = \"oil\", supply = -1 }]\n",
                "BadSupply { good: 0, value: -1 }",
            ),
            (
                "goods = [{ name = \"oil\", supply = 1, opening = 10 }, { name = \"?\", supply = 1 }]\n",
                "Opening { good: 0, value: 10 }",
            ),
            (
                "goods = [{ name = \"oil\", supply = 1, opening = true }, 1]\n",
                "WrongKind(Opening(0))",
            ),
            (
                "goods = [{ name = \"oil\", supply = 0 }, { name = \"gas\", supply = 1, opening = 10 }]\n",
                "Opening { good: 1, value: 10 }",
            ),
            (
                "goods = [{ name = \"oil\", supply = 0, opening = 9 }]\n",
                "Goods(ZeroSupply(0))",
            ),
        ],
    )?;
    Ok(())
}
