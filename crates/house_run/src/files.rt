//! Reading a file of the shelf.
ghost use Rattle.std.specs.Prelude.{◌≡◌, ◌≤◌, ◌<◌, ℕ, List, length, IfOk, IfErr, OnOk, Ok, Err, ◌≢◌};
ghost use Rattle.house_io.specs.Faults.{Rose};
ghost use Rattle.house_io.specs.Shelves.{IfTells, with_name};
ghost use Rattle.auction_file.specs.Listing.{listing_of};
ghost use Rattle.report_log.specs.Logs.{AreBytes};
ghost use Rattle.house_run.specs.Reading.{IsAuctionOf};
ghost use Rattle.house_run.specs.Seen.{IsAuctionAt, content, outside, shelf_seen};
ghost use Rattle.house_run.specs.Markets.{HasValues};
ghost use Rattle.trial.specs.Trials.{AreValuationsOf};
ghost use Rattle.valuation.specs.ValuesFile.{values_of};
ghost use Rattle.house_run.specs.Steps.{EndsAtAuction, EndsAtValues, IsSteady, OnlyReads};

use crate::ends::{Ended, File};
use auction_file::{Auction, AuctionFault, MOST_BYTES, read};
use house_io::{ReadWhole, Refusal, Shelf, read_whole};
use lot_base::Terms;
use std::alloc::Global;
use valuation::{Valuation, ValuesFault};

/// The greatest length of an auction file.
const AUCTION_LIMIT: u64 = MOST_BYTES as u64;

/// The greatest length of a file of valuations.
const VALUES_LIMIT: u64 = valuation::MOST_BYTES as u64;

/// Reads a named file, and takes its source back.
pub(crate) fn read_file<H: Shelf>(
    alloc: Global,
    shelf: &mut H,
    name: &str,
    limit: u64,
) -> Result<Vec<u8>, ReadWhole>
    ensures bytes { IfOk result (λ v. IfTells (H.files shelf.new) (λ files. v.items ≡ content files name.now)) }
    ensures short { IfOk result (λ v. length v.items ≤ limit) }
    ensures failed { result ≡ Err ReadWhole.Failed → Rose (H.faults shelf.old name.now) (H.faults shelf.new name.now) }
    ensures quiet { (result ≡ Err ReadWhole.Failed → ⊥) → (other : List ℕ) → H.faults shelf.new other ≡ H.faults shelf.old other }
    ensures reads { OnlyReads name.now (shelf_seen H.Shelf shelf.old shelf.new) }
    ensures opened { OnOk result (H.opened shelf.new ≡ with_name name.now (H.opened shelf.old)) }
    ensures long { result ≡ Err ReadWhole.TooLong → IfTells (H.files shelf.new) (λ files. limit < length (content files name.now)) }
{
    let mut source = match shelf.source(alloc, name) {
        Ok(source) => source,
        Err(Refusal::Failed) => return Err(ReadWhole::Failed),
        Err(Refusal::NoMemory) => return Err(ReadWhole::NoMemory),
    };
    let answer = read_whole(alloc, &mut source, limit);
    shelf.close_source(name, source);
    answer
}

/// Reads a named auction file, or says how a command that needs it ends.
pub(crate) fn read_auction<H: Shelf>(
    alloc: Global,
    shelf: &mut H,
    name: &str,
) -> Result<Auction, Ended>
    ensures read { IfOk result (λ auction. IsAuctionAt (shelf_seen H.Shelf shelf.old shelf.new) name.now (listing_of auction)) }
    ensures steady { IfOk result (λ _. IsSteady (shelf_seen H.Shelf shelf.old shelf.new)) }
    ensures refused { IfErr result (λ end. EndsAtAuction name.now (outside H.Shelf shelf.old shelf.new) end) }
    ensures opened { OnOk result (H.opened shelf.new ≡ with_name name.now (H.opened shelf.old)) }
    ensures reads { OnlyReads name.now (shelf_seen H.Shelf shelf.old shelf.new) }
{
    let bytes = match read_file(alloc, shelf, name, AUCTION_LIMIT) {
        Ok(bytes) => bytes,
        Err(ReadWhole::Failed) => return Err(Ended::ReadFault),
        Err(ReadWhole::TooLong) => return Err(Ended::TooLong(File::Auction)),
        Err(ReadWhole::NoMemory) => return Err(Ended::NoMemory),
    };
    match auction_in(alloc, &bytes) {
        Ok(auction) => Ok(auction),
        Err(AuctionFault::NoMemory) => Err(Ended::NoMemory),
        Err(fault) => Err(Ended::BadAuction(fault)),
    }
}

/// The auction that the bytes say.
fn auction_in(alloc: Global, bytes: &[u8]) -> Result<Auction, AuctionFault>
    requires { length bytes.now ≤ MOST_BYTES }
    ensures says { IsAuctionOf result bytes.now }
    ensures bytes { AreBytes bytes.now }
{
    read(alloc, bytes)
}

/// Reads a named file of valuations, one for each bidder of the terms, or says how a command that needs them ends.
pub(crate) fn read_values<H: Shelf>(
    alloc: Global,
    shelf: &mut H,
    name: &str,
    terms: &Terms,
) -> Result<Vec<Valuation>, Ended>
    ensures read { IfOk result (λ v. HasValues (shelf_seen H.Shelf shelf.old shelf.new) terms.now name.now v.items) }
    ensures valuations { IfOk result (λ v. AreValuationsOf terms.now v.items) }
    ensures steady { IfOk result (λ _. IsSteady (shelf_seen H.Shelf shelf.old shelf.new)) }
    ensures refused { IfErr result (EndsAtValues terms.now name.now (shelf_seen H.Shelf shelf.old shelf.new)) }
    ensures opened { OnOk result (H.opened shelf.new ≡ with_name name.now (H.opened shelf.old)) }
    ensures reads { OnlyReads name.now (shelf_seen H.Shelf shelf.old shelf.new) }
{
    let bytes = match read_file(alloc, shelf, name, VALUES_LIMIT) {
        Ok(bytes) => bytes,
        Err(ReadWhole::Failed) => return Err(Ended::ReadFault),
        Err(ReadWhole::TooLong) => return Err(Ended::TooLong(File::Values)),
        Err(ReadWhole::NoMemory) => return Err(Ended::NoMemory),
    };
    match values_in(alloc, terms, &bytes) {
        Ok(valuations) => Ok(valuations),
        Err(ValuesFault::NoMemory) => Err(Ended::NoMemory),
        Err(fault) => Err(Ended::BadValues(fault)),
    }
}

/// The valuations that the bytes say.
fn values_in(alloc: Global, terms: &Terms, bytes: &[u8]) -> Result<Vec<Valuation>, ValuesFault>
    ensures says { IfOk result (λ v. values_of terms.now.goods terms.now.bidders terms.now.ceiling bytes.now ≡ Ok v.items) }
    ensures valuations { IfOk result (λ v. AreValuationsOf terms.now v.items) }
    ensures refused { IfErr result (λ fault. fault ≢ ValuesFault.NoMemory
        → values_of terms.now.goods terms.now.bidders terms.now.ceiling bytes.now ≡ Err fault) }
    ensures bytes { AreBytes bytes.now }
{
    valuation::read(alloc, terms, bytes)
}
