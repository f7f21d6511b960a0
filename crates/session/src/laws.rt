//! What holds of every session.
ghost use Rattle.std.specs.Prelude.{◌≡◌, List, None};
ghost use Rattle.auction_file.specs.declared.listing.Auction.{Auction as AuctionValue};
ghost use Rattle.report_wire.specs.declared.messages.ToHouse.{ToHouse as Frame};
ghost use Rattle.session.specs.Turns.{goes_on_after, bidder_behind};

/// Whether a session goes on after frames, and its bidder then, depends on the frames and on the digests of the tokens alone.
pub fn session_law()
    ensures goes_on { (auction other : AuctionValue) (frames : List Frame) → auction.token_digests ≡ other.token_digests →
        goes_on_after auction None frames ≡ goes_on_after other None frames }
    ensures bidder { (auction other : AuctionValue) (frames : List Frame) → auction.token_digests ≡ other.token_digests →
        bidder_behind auction None frames ≡ bidder_behind other None frames }
{}
