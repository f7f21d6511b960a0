//! What holds of every auction file.
ghost use Rattle.std.specs.Prelude.{◌≡◌, ℕ, List, Ok};
ghost use Rattle.auction_file.specs.Names.{AreDistinct};
ghost use Rattle.auction_file.specs.AuctionFile.{Listing, auction_of};

/// No two goods, and no two bidders, of a file that is read have one name.
pub fn names_law()
    ensures { (bytes : List ℕ) (listing : Listing) → auction_of bytes ≡ Ok listing →
        AreDistinct listing.good_names × AreDistinct listing.bidder_names }
{}
