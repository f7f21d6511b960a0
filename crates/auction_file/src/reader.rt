//! Reading an auction file.
ghost use Rattle.std.specs.Prelude.{◌≡◌, ◌≢◌, ◌≤◌, length, map, IfOk, IfErr, Ok, Err};
ghost use Rattle.sha2.specs.Sha256.{sha256};
ghost use Rattle.toml.specs.View.{table_view};
ghost use Rattle.std.specs.List.{AllByRecursion};
ghost use Rattle.lot_base.specs.declared.limits.TheConstants.{LEAST_CEILING, GREATEST_CEILING, GREATEST_AUCTION};
ghost use Rattle.lot_base.specs.Goods.{IsRange};
ghost use Rattle.lot_base.specs.Limits.{supply_of};
ghost use Rattle.auction_file.specs.AuctionFile.{document_of, version_of, ceiling_of, sold, auction_of};
ghost use Rattle.auction_file.specs.Listing.{IsOpened, IsTermsFor, listing_of, listing};
ghost use Rattle.auction_file.specs.Seen.{GivesIfRoom};

use crate::bidders_list::{Bidder, bidder_names, bidders_of, token_digests};
use crate::faults::{AuctionFault, Key};
use crate::goods_list::{Good, good_names, goods_of, opening_prices};
use crate::listing::Auction;
use crate::ranges::within;
use lot_base::limits::{GREATEST_AUCTION, GREATEST_CEILING, LEAST_CEILING};
use lot_base::{Goods, Prices, Sequence, Terms};
use sha2::{Digest, Sha256};
use std::alloc::{AllocError, Global};
use toml::Table;
use toml_tree::{integer_at, known_keys, tree_of};

/// The most bytes of an auction file.
pub const MOST_BYTES: usize = GREATEST_AUCTION as usize;

/// The tree of the document.
#[tactic(auto, unfolding(crate::specs::AuctionFile::document_of))]
fn document_of(alloc: Global, bytes: &[u8]) -> Result<Table, AuctionFault>
    ensures { GivesIfRoom (λ t. table_view t) result (document_of bytes.now) }
{
    match tree_of(alloc, bytes) {
        Ok(Some(table)) => Ok(table),
        Ok(None) => Err(AuctionFault::NotToml),
        Err(_) => Err(AuctionFault::NoMemory),
    }
}

/// The version of the format, which is 1 or 2.
#[tactic(auto, unfolding(crate::specs::AuctionFile::version_of))]
fn version_of(file: &Table) -> Result<u16, AuctionFault>
    ensures version { result ≡ version_of (table_view file.now) }
    ensures range { IfOk result (λ version. IsRange 1 2 version) }
{
    let value = integer_at(file, "version", Key::Version)?;
    within(value, 1, 2).ok_or(AuctionFault::Version(value))
}

/// The ceiling of the prices.
#[tactic(auto, unfolding(crate::specs::AuctionFile::ceiling_of))]
fn ceiling_of(file: &Table) -> Result<u16, AuctionFault>
    ensures ceiling { result ≡ ceiling_of (table_view file.now) }
    ensures low { IfOk result (λ ceiling. LEAST_CEILING ≤ ceiling) }
    ensures high { IfOk result (λ ceiling. ceiling ≤ GREATEST_CEILING) }
{
    let value = integer_at(file, "ceiling", Key::Ceiling)?;
    within(value, LEAST_CEILING as u16, GREATEST_CEILING as u16).ok_or(AuctionFault::Ceiling(value))
}

/// The goods as they can be sold.
fn sold(alloc: Global, goods: &[Good]) -> Result<Goods, AuctionFault>
    ensures sold { GivesIfRoom (λ supply. supply) result (sold (supply_of (map (λ good. good.supply) goods.now))) }
    ensures count { IfOk result (λ supply. length supply ≡ length goods.now) }
{
    let supplies: Vec<u16> = goods.iter().map(|good| good.supply).collect(alloc)?;
    match Goods::new(supplies.as_slice()) {
        Ok(goods) => Ok(goods),
        Err(fault) => Err(AuctionFault::Goods(fault)),
    }
}

/// The opening prices of 1 to 6 goods.
fn opening_of(alloc: Global, goods: &[Good]) -> Result<Prices, AllocError>
    requires some { 1 ≤ length goods.now }
    requires few { length goods.now ≤ 6 }
    ensures { IfOk result (λ prices. prices ≡ map (λ good. good.opening) goods.now) }
{
    let opening = opening_prices(alloc, goods)?;
    let Some(prices) = Prices::read(opening.as_slice()) else {
        unreachable!()
    };
    Ok(prices)
}

/// The terms on which these goods are sold.
fn terms_of(
    alloc: Global,
    version: u16,
    ceiling: u16,
    goods: &[Good],
    supply: Goods,
    bidders: u8,
) -> Result<Terms, AllocError>
    requires version { IsRange 1 2 version }
    requires ceiling { IsRange LEAST_CEILING GREATEST_CEILING ceiling }
    requires opened { AllByRecursion (IsOpened version ceiling) goods.now }
    requires goods { length supply ≡ length goods.now }
    requires bidders { IsRange 1 12 bidders }
    ensures { IfOk result (λ terms. IsTermsFor version ceiling goods.now supply bidders terms) }
{
    if version == 1 {
        let Ok(terms) = Terms::new(supply, bidders, u32::from(ceiling)) else {
            unreachable!()
        };
        return Ok(terms);
    }
    let _goods = supply.count();
    let opening = opening_of(alloc, goods)?;
    let Ok(terms) = Terms::with_opening(supply, bidders, u32::from(ceiling), opening) else {
        unreachable!()
    };
    Ok(terms)
}

/// The auction of these goods and bidders.
fn auction_from(
    alloc: Global,
    terms: Terms,
    goods: &[Good],
    bidders: &[Bidder],
    digest: [u8; 32],
) -> Result<Auction, AllocError>
    requires goods { length goods.now ≡ length terms.goods }
    requires bidders { length bidders.now ≡ terms.bidders }
    ensures { IfOk result (λ auction. listing_of auction ≡ listing terms goods.now bidders.now digest) }
{
    Ok(Auction {
        terms,
        good_names: Sequence::from_vec(good_names(alloc, goods)?),
        bidder_names: Sequence::from_vec(bidder_names(alloc, bidders)?),
        token_digests: Sequence::from_vec(token_digests(alloc, bidders)?),
        digest,
    })
}

/// The SHA-256 of the bytes.
fn file_digest(bytes: &[u8]) -> [u8; 32]
    ensures { result ≡ sha256 bytes.now }
{
    Sha256::digest(bytes)
}

/// The auction that the bytes of an auction file say, or the first fault in the order of the format.
#[tactic(auto, unfolding(crate::specs::AuctionFile::auction_of))]
pub fn read(alloc: Global, bytes: &[u8]) -> Result<Auction, AuctionFault>
    requires { length bytes.now ≤ GREATEST_AUCTION }
    ensures read { IfOk result (λ auction. auction_of bytes.now ≡ Ok (listing_of auction)) }
    ensures refused { IfErr result (λ fault. fault ≢ AuctionFault.NoMemory → auction_of bytes.now ≡ Err fault) }
{
    let file = document_of(alloc, bytes)?;
    known_keys::<Key>(alloc, &file, &["version", "ceiling", "goods", "bidders"])?;
    let version = version_of(&file)?;
    let ceiling = ceiling_of(&file)?;
    let goods = goods_of(alloc, version, ceiling, &file)?;
    let supply = sold(alloc, goods.as_slice())?;
    let bidders = bidders_of(alloc, &file)?;
    let count = bidders.len() as u8;
    let terms = terms_of(alloc, version, ceiling, goods.as_slice(), supply, count)?;
    let digest = file_digest(bytes);
    Ok(auction_from(alloc, terms, goods.as_slice(), bidders.as_slice(), digest)?)
}
