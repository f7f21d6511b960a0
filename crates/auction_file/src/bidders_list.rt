//! The bidders of an auction file.
ghost use Rattle.std.specs.Prelude.{◌≡◌, ◌<◌, ◌≤◌, length, map, IfOk};
ghost use Rattle.toml.specs.View.{view, table_view};
ghost use Rattle.auction_file.specs.AuctionFile.{digest_at, bidder_at, each, bidders_of};
ghost use Rattle.auction_file.specs.Seen.{GivesIfRoom};

use crate::elements::name_after;
use crate::faults::{AuctionFault, Key};
use crate::naming::Name;
use hex::FromHex;
use lot_base::limits::MOST_BIDDERS;
use std::alloc::{AllocError, Global};
use toml::{Table, Value};
use toml_tree::{array_at, known_keys, string_at, table_of};

/// A bidder of the file.
#[derive(Drop)]
pub(crate) struct Bidder {
    /// 1 to 32 bytes, and that of no bidder before it in the file.
    pub(crate) name: Name,
    /// The SHA-256 of its token.
    pub(crate) digest: [u8; 32],
}

/// The bidders of the file, in order.
#[tactic(auto, unfolding(crate::specs::AuctionFile::bidders_of))]
pub(crate) fn bidders_of(alloc: Global, file: &Table) -> Result<Vec<Bidder>, AuctionFault>
    ensures bidders { GivesIfRoom (λ v. v.items) result (bidders_of (table_view file.now)) }
    ensures some { IfOk result (λ v. 1 ≤ length v.items) }
    ensures few { IfOk result (λ v. length v.items ≤ 12) }
{
    let elements = array_at(file, "bidders", Key::Bidders)?;
    if elements.is_empty() || elements.len() > MOST_BIDDERS as usize {
        return Err(AuctionFault::Bidders(elements.len() as u64));
    }
    each_bidder(alloc, elements)
}

/// The bidders that the elements of an array are.
fn each_bidder(alloc: Global, elements: &[Value]) -> Result<Vec<Bidder>, AuctionFault>
    requires { length elements.now ≤ 12 }
    ensures bidders { GivesIfRoom (λ v. v.items) result (each bidder_at (map view elements.now)) }
    ensures count { IfOk result (λ v. length v.items ≡ length elements.now) }
{
    let mut bidders = Vec::new(alloc);
    for (place, element) in elements.iter().enumerate() {
        let bidder = bidder_at(alloc, &elements[..place], place, element)?;
        bidders.push(bidder)?;
    }
    Ok(bidders)
}

/// The bidder that an element is; these elements stand before it.
#[tactic(auto, unfolding(crate::specs::AuctionFile::bidder_at))]
fn bidder_at(
    alloc: Global,
    earlier: &[Value],
    place: usize,
    element: &Value,
) -> Result<Bidder, AuctionFault>
    requires { place < 12 }
    ensures { GivesIfRoom (λ b. b) result (bidder_at (map view earlier.now) place (view element.now)) }
{
    let number = place as u32 + 1;
    let table = table_of(element, Key::BidderTable(number))?;
    known_keys::<Key>(alloc, table, &["name", "token"])?;
    let name = name_after(earlier, table, Key::BidderName(number))?;
    let digest = digest_at(table, place as u8 + 1)?;
    Ok(Bidder { name, digest })
}

/// What a bidder's token digests to.
#[tactic(auto, unfolding(crate::specs::AuctionFile::digest_at))]
fn digest_at(table: &Table, bidder: u8) -> Result<[u8; 32], AuctionFault>
    ensures { result ≡ digest_at bidder (table_view table.now) }
{
    let text = string_at(table, "token", Key::Token(u32::from(bidder)))?;
    match <[u8; 32] as FromHex>::from_hex(text) {
        Ok(digest) => Ok(digest),
        Err(_) => Err(AuctionFault::BadDigest(bidder)),
    }
}

/// The names of the bidders.
pub(crate) fn bidder_names(alloc: Global, bidders: &[Bidder]) -> Result<Vec<Name>, AllocError>
    ensures { IfOk result (λ names. names.items ≡ map (λ bidder. bidder.name) bidders.now) }
{
    bidders.iter().map(|bidder| bidder.name).collect(alloc)
}

/// What the bidder's token digests to.
fn digest_of(bidder: &Bidder) -> [u8; 32]
    ensures { result ≡ bidder.now.digest }
{
    bidder.digest
}

/// The digests of the bidders' tokens.
pub(crate) fn token_digests(alloc: Global, bidders: &[Bidder]) -> Result<Vec<[u8; 32]>, AllocError>
    ensures { IfOk result (λ digests. digests.items ≡ map (λ bidder. bidder.digest) bidders.now) }
{
    bidders.iter().map(digest_of).collect(alloc)
}
