//! What the auctions settle, as `settle` and `trial` write it.

/// Two units, which are worth 10 and 4, 8 and 3, and 6 and 1 to three bidders.
pub const THREE_BIDDERS: &str = "settled goods 1 bidders 3
prices 6
bidder 1 award 1 debit -4 credit -4 pays 6
bidder 2 award 1 debit -5 credit -5 pays 6
bidder 3 award 0 debit -7 credit -7 pays 0
clock 0 steps 6 prices 6
choice 0 1 1
choice 0 2 1
choice 0 3 0
clock 1 steps 3 prices 3
choice 1 2 1
choice 1 3 1
clock 2 steps 4 prices 4
choice 2 1 1
choice 2 3 1
clock 3 steps 4 prices 4
choice 3 1 1
choice 3 2 1
";

/// The same auction, of which no unit is sold below 5.
pub const FROM_FIVE: &str = "settled goods 1 bidders 3
prices 6
opening 5
bidder 1 award 1 debit 0 credit 0 pays 6
bidder 2 award 1 debit 0 credit 0 pays 6
bidder 3 award 0 debit 0 credit 0 pays 0
clock 0 steps 1 prices 6
choice 0 1 1
choice 0 2 1
choice 0 3 0
clock 1 steps 0 prices 5
choice 1 2 1
choice 1 3 1
clock 2 steps 0 prices 5
choice 2 1 1
choice 2 3 1
clock 3 steps 0 prices 5
choice 3 1 1
choice 3 2 1
";

/// The same below 9, where a unit stays unsold.
pub const FROM_NINE: &str = "settled goods 1 bidders 3
prices 9
opening 9
bidder 1 award 1 debit 0 credit 0 pays 9
bidder 2 award 0 debit 0 credit 0 pays 0
bidder 3 award 0 debit 0 credit 0 pays 0
clock 0 steps 0 prices 9
choice 0 1 1
choice 0 2 0
choice 0 3 0
clock 1 steps 0 prices 9
choice 1 2 0
choice 1 3 0
clock 2 steps 0 prices 9
choice 2 1 1
choice 2 3 0
clock 3 steps 0 prices 9
choice 3 1 1
choice 3 2 0
";

/// Two units, which are worth 10 and 9, and 8 and 3 to two bidders. The first pays what the second loses, and not twice the price.
pub const UNEVEN: &str = "settled goods 1 bidders 2
prices 8
bidder 1 award 2 debit 0 credit 5 pays 11
bidder 2 award 0 debit 0 credit 0 pays 0
clock 0 steps 8 prices 8
choice 0 1 2
choice 0 2 0
clock 1 steps 0 prices 0
choice 1 2 2
clock 2 steps 0 prices 0
choice 2 1 2
";

/// Two units, which are worth 5 and 3 to the one bidder.
pub const ONE_BIDDER: &str = "settled goods 1 bidders 1
prices 0
bidder 1 award 2 debit 0 credit 0 pays 0
clock 0 steps 0 prices 0
choice 0 1 2
clock 1 steps 0 prices 0
";

/// The same auction of one bidder, as `settle --json` writes it.
pub const ONE_BIDDER_JSON: &str =
    "{\"bidders\":[{\"award\":[2],\"bidder\":1,\"credit\":0,\"debit\":0,\"pays\":0}],\"clocks\":[{\"choices\":[{\"bidder\":1,\"bundle\":[2]}],\"clock\":0,\"prices\":[0],\"steps\":0},{\"choices\":[],\"clock\":1,\"prices\":[0],\"steps\":0}],\"goods\":1,\"prices\":[0]}\n";

/// One unit, which is worth nothing to either of two bidders.
pub const WORTHLESS: &str = "settled goods 1 bidders 2
prices 0
bidder 1 award 0 debit 0 credit 0 pays 0
bidder 2 award 0 debit 0 credit 0 pays 0
clock 0 steps 0 prices 0
choice 0 1 0
choice 0 2 0
clock 1 steps 0 prices 0
choice 1 2 0
clock 2 steps 0 prices 0
choice 2 1 0
";

/// One unit, which is worth 4 to each of two bidders. The last one gets it.
pub const TIE: &str = "settled goods 1 bidders 2
prices 4
bidder 1 award 0 debit 0 credit 0 pays 0
bidder 2 award 1 debit 0 credit 0 pays 4
clock 0 steps 4 prices 4
choice 0 1 0
choice 0 2 1
clock 1 steps 0 prices 0
choice 1 2 1
clock 2 steps 0 prices 0
choice 2 1 1
";

/// Two goods in one unit each. Two bidders want one of them: the first good is worth 5 and 3, the second 4 and 0.
pub const ONE_EACH: &str = "settled goods 2 bidders 2
prices 1 0
bidder 1 award 0 1 debit 0 credit 0 pays 0
bidder 2 award 1 0 debit 0 credit 0 pays 1
clock 0 steps 1 prices 1 0
choice 0 1 0 1
choice 0 2 1 0
clock 1 steps 0 prices 0 0
choice 1 2 1 0
clock 2 steps 0 prices 0 0
choice 2 1 1 0
";

/// One unit of a good and two of another. The first good is worth 3 and 2 to two bidders, and the other nothing.
pub const FIRST_GOOD: &str = "settled goods 2 bidders 2
prices 2 0
bidder 1 award 1 0 debit 0 credit 0 pays 2
bidder 2 award 0 0 debit 0 credit 0 pays 0
clock 0 steps 2 prices 2 0
choice 0 1 1 0
choice 0 2 0 0
clock 1 steps 0 prices 0 0
choice 1 2 1 0
clock 2 steps 0 prices 0 0
choice 2 1 1 0
";
