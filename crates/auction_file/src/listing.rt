//! What an auction file says.
ghost use Rattle.std.specs.Prelude.{◌≡◌, length};

use crate::naming::Name;
use lot_base::{Sequence, Terms};

/// An auction: its terms, the names of its goods and bidders, and what each bidder's token digests to.
#[derive(Debug, Drop)]
pub struct Auction {
    /// The supplies, the number of bidders, the ceiling and the opening prices; of the file's version.
    pub terms: Terms,
    /// The name of each good, good 0 first.
    pub good_names: Sequence<Name>,
    /// The name of each bidder, that of bidder 1 first.
    pub bidder_names: Sequence<Name>,
    /// The SHA-256 of each bidder's token.
    pub token_digests: Sequence<[u8; 32]>,
    /// The SHA-256 of the file's bytes.
    pub digest: [u8; 32],
    pub ghost named_goods: { length good_names ≡ length terms.goods },
    pub ghost named_bidders: { length bidder_names ≡ terms.bidders },
    pub ghost known_tokens: { length token_digests ≡ terms.bidders },
}
