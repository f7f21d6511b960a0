//! What units are worth to the bidders of the auctions, as a file of valuations says it.

/// Two units are worth 10 and 4 to the first bidder, 8 and 3 to the second, and 6 and 1 to the third.
pub const THREE_BIDDERS: &str = r#"[[valuations]]
form = "marginal"
lists = [[10, 4]]
[[valuations]]
form = "marginal"
lists = [[8, 3]]
[[valuations]]
form = "marginal"
lists = [[6, 1]]
"#;

/// Two units are worth 10 and 9 to the first bidder, and 8 and 3 to the second.
pub const UNEVEN: &str = r#"[[valuations]]
form = "marginal"
lists = [[10, 9]]
[[valuations]]
form = "marginal"
lists = [[8, 3]]
"#;

/// Two units are worth 5 and 3 to the one bidder.
pub const ONE_BIDDER: &str = r#"[[valuations]]
form = "marginal"
lists = [[5, 3]]
"#;

/// One unit is worth nothing to either of two bidders.
pub const WORTHLESS: &str = r#"[[valuations]]
form = "marginal"
lists = [[0]]
[[valuations]]
form = "marginal"
lists = [[0]]
"#;

/// One unit is worth 4 to each of two bidders.
pub const TIE: &str = r#"[[valuations]]
form = "marginal"
lists = [[4]]
[[valuations]]
form = "marginal"
lists = [[4]]
"#;

/// A unit of two goods is worth 5 or 4 to the first bidder, and 3 or nothing to the second.
pub const ONE_EACH: &str = r#"[[valuations]]
form = "unit"
values = [5, 4]
[[valuations]]
form = "unit"
values = [3, 0]
"#;

/// A unit of the first of two goods is worth 3 to the first bidder and 2 to the second, and the other good nothing.
pub const FIRST_GOOD: &str = r#"[[valuations]]
form = "unit"
values = [3, 0]
[[valuations]]
form = "unit"
values = [2, 0]
"#;
