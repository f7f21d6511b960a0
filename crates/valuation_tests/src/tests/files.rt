//! Each fault at each key, and neighbouring faults in their order.
use super::*;
use expected_values::equal;

const ONE: &str = "[[valuations]]\n";

#[test]
fn the_file(rt: HostRuntime) -> Result<(), Fail> {
    check(
        &rt,
        1,
        "",
        &[
            ("valuations = \n", "NotToml"),
            ("valuations = []\nvaluations = []\n", "NotToml"),
            ("zinc = 1\nabc = 2\n", "UnknownKey(\"abc\")"),
            ("valuations = 3\nzinc = 1\n", "UnknownKey(\"zinc\")"),
            ("", "Missing(Valuations)"),
            ("valuations = 3\n", "WrongKind(Valuations)"),
            ("[valuations]\nform = \"unit\"\n", "WrongKind(Valuations)"),
            ("valuations = []\n", "Bidders(0)"),
            ("valuations = [3, 4]\n", "Bidders(2)"),
            ("valuations = [3]\n", "WrongKind(Table(1))"),
            ("valuations = [[]]\n", "WrongKind(Table(1))"),
            (
                "valuations = [{form = \"unit\", values = [5, 7]}]\n",
                "[0, 7, 5, 7, 5, 7]",
            ),
        ],
    )?;
    Ok(())
}

#[test]
fn the_form(rt: HostRuntime) -> Result<(), Fail> {
    check(
        &rt,
        1,
        ONE,
        &[
            ("", "Missing(Form(1))"),
            ("values = [0]\nzinc = 1\n", "Missing(Form(1))"),
            ("form = 3\n", "WrongKind(Form(1))"),
            ("form = \"tables\"\nzinc = 1\n", "Form(1)"),
            ("form = \"Unit\"\n", "Form(1)"),
            ("form = \"\"\n", "Form(1)"),
        ],
    )?;
    Ok(())
}

#[test]
fn tables(rt: HostRuntime) -> Result<(), Fail> {
    check(
        &rt,
        1,
        "[[valuations]]\nform = \"table\"\n",
        &[
            ("zinc = 1\n", "UnknownKey(\"zinc\")"),
            (
                "values = [0, 9, 1, 9, 2, 9]\ncap = 1\n",
                "UnknownKey(\"cap\")",
            ),
            ("", "Missing(Values(1))"),
            ("values = 3\n", "WrongKind(Values(1))"),
            ("values = [\"a\"]\n", "WrongKind(Values(1))"),
            ("values = [0, 9, 1, 9, 2, 9.0]\n", "WrongKind(Values(1))"),
            (
                "values = [-1, 9, 1, 9, 2]\n",
                "Length { bidder: 1, found: 5, needed: 6 }",
            ),
            (
                "values = [0, 9, 1, 9, 2, 9, 9]\n",
                "Length { bidder: 1, found: 7, needed: 6 }",
            ),
            ("values = []\n", "Length { bidder: 1, found: 0, needed: 6 }"),
            (
                "values = [0, 9, 1, -1, 10, 9]\n",
                "Value { bidder: 1, place: 3 }",
            ),
            (
                "values = [1, 9, 1, 9, 10, 9]\n",
                "Value { bidder: 1, place: 4 }",
            ),
            (
                "values = [0, 9, 1, 9, 9223372036854775807, 9]\n",
                "Value { bidder: 1, place: 4 }",
            ),
            ("values = [1, 9, 1, 9, 2, 9]\n", "EmptyNotZero(1)"),
            ("values = [0, 9, 1, 9, 2, 9]\n", "[0, 9, 1, 9, 2, 9]"),
        ],
    )?;
    Ok(())
}

#[test]
fn marginal_values(rt: HostRuntime) -> Result<(), Fail> {
    check(
        &rt,
        1,
        "[[valuations]]\nform = \"marginal\"\n",
        &[
            ("values = [1]\n", "UnknownKey(\"values\")"),
            ("", "Missing(Lists(1))"),
            ("lists = 3\n", "WrongKind(Lists(1))"),
            ("lists = [1, 2]\n", "WrongKind(Lists(1))"),
            ("lists = [[1, 2], [\"a\"]]\n", "WrongKind(Lists(1))"),
            (
                "lists = [[1]]\n",
                "Length { bidder: 1, found: 1, needed: 2 }",
            ),
            (
                "lists = [[10], [1, 2]]\n",
                "Length { bidder: 1, found: 1, needed: 2 }",
            ),
            (
                "lists = [[1, 2], []]\n",
                "Length { bidder: 1, found: 0, needed: 1 }",
            ),
            ("lists = [[1, 10], [-1]]\n", "Value { bidder: 1, place: 1 }"),
            ("lists = [[9, 9], [10]]\n", "Value { bidder: 1, place: 2 }"),
            ("lists = [[5, 5], [0]]\n", "Above { bidder: 1, index: 4 }"),
            ("lists = [[5, 3], [4]]\n", "Above { bidder: 1, index: 5 }"),
            ("lists = [[4, 2], [3]]\n", "[0, 3, 4, 7, 6, 9]"),
        ],
    )?;
    Ok(())
}

#[test]
fn units_and_caps(rt: HostRuntime) -> Result<(), Fail> {
    check(
        &rt,
        1,
        ONE,
        &[
            (
                "form = \"unit\"\nvalues = [1]\n",
                "Length { bidder: 1, found: 1, needed: 2 }",
            ),
            (
                "form = \"unit\"\nvalues = [1, 10]\n",
                "Value { bidder: 1, place: 1 }",
            ),
            ("form = \"unit\"\nvalues = [9, 2]\n", "[0, 2, 9, 9, 9, 9]"),
            (
                "form = \"capped\"\nvalues = [10, 1]\n",
                "Value { bidder: 1, place: 0 }",
            ),
            ("form = \"capped\"\nvalues = [1, 1]\n", "Missing(Cap(1))"),
            (
                "form = \"capped\"\nvalues = [1, 1]\ncap = \"1\"\n",
                "WrongKind(Cap(1))",
            ),
            (
                "form = \"capped\"\nvalues = [9, 9]\ncap = 65536\n",
                "Value { bidder: 1, place: 2 }",
            ),
            (
                "form = \"capped\"\nvalues = [9, 9]\ncap = -1\n",
                "Value { bidder: 1, place: 2 }",
            ),
            (
                "form = \"capped\"\nvalues = [5, 4]\ncap = 2\n",
                "Above { bidder: 1, index: 4 }",
            ),
            (
                "form = \"capped\"\nvalues = [5, 4]\ncap = 1\n",
                "[0, 4, 5, 5, 5, 5]",
            ),
            (
                "form = \"capped\"\nvalues = [3, 4]\ncap = 2\n",
                "[0, 4, 3, 7, 6, 7]",
            ),
            (
                "form = \"capped\"\nvalues = [4, 1]\ncap = 65535\n",
                "[0, 1, 4, 5, 8, 9]",
            ),
            (
                "form = \"capped\"\nvalues = [9, 9]\ncap = 0\n",
                "[0, 0, 0, 0, 0, 0]",
            ),
        ],
    )?;
    Ok(())
}

#[test]
fn two_bidders(rt: HostRuntime) -> Result<(), Fail> {
    check(
        &rt,
        2,
        "[[valuations]]\nform = \"unit\"\nvalues = [1, 2]\n",
        &[
            ("", "Bidders(1)"),
            (ONE, "Missing(Form(2))"),
            (
                "[[valuations]]\nform = \"unit\"\nvalues = [-1, 2]\n",
                "Value { bidder: 2, place: 0 }",
            ),
            (
                "[[valuations]]\nform = \"table\"\nvalues = [1, 0, 0, 0, 0, 0]\n",
                "EmptyNotZero(2)",
            ),
            (
                "[[valuations]]\nform = \"marginal\"\nlists = [[9, 9], [0]]\n",
                "Above { bidder: 2, index: 4 }",
            ),
            (
                "[[valuations]]\nform = \"unit\"\nvalues = [3, 0]\n",
                "[0, 0, 3, 3, 3, 3]",
            ),
        ],
    )?;
    Ok(())
}

#[test]
fn bytes_that_are_no_text(rt: HostRuntime) -> Result<(), Fail> {
    let found = answer(&rt, 1, b"valuations = [] # \xff\n")?;
    equal(found.as_str(), "NotToml")?;
    Ok(())
}
