//! What no clause says: how runs end where there is memory, on words, files and frames that were written by hand.
use auction_file::AuctionFault;
use expected_values::equal_in;
use house_run::{Ended, File};
use std::test::Fail;

// What the others stand on: auction files; words, files and sinks; journals; links, doors and nets; the call of a run.
mod auctions;
mod fixtures;
mod journals;
mod nets;
mod runs;

// The words of the command line.
mod spelling;

// A command each: `check`; `fold`; `standing` and `settle`; `explain`; `judge`; `trial` and `make`; `float`; `bid`;
// `serve`; `migrate`.
mod bids;
mod checks;
mod explains;
mod floats;
mod folds;
mod judges;
mod migrates;
mod serves;
mod settles;
mod trials;

// `serve` and `bid` over TCP.
mod talks;

// Bytes that nobody honest sends, by all that reads bytes from outside.
mod hostile;

/// The status of an end.
fn number_of(ended: &Ended) -> u8 {
    ended.status()
}

#[test]
fn ends_have_their_numbers(rt: HostRuntime) -> Result<(), Fail> {
    for (ended, status) in [
        (Ended::Done, 0),
        (Ended::NoMemory, 1),
        (Ended::Usage, 2),
        (Ended::BadAuction(AuctionFault::NotToml), 3),
        (Ended::ReadFault, 4),
        (Ended::WriteFault, 5),
        (Ended::DiskFault(1), 6),
        (Ended::NetFault, 7),
        (
            Ended::Open {
                clock: 0,
                round: 1,
                missing: 2,
            },
            9,
        ),
        (Ended::NoAward { clock: 0 }, 10),
        (Ended::Halted { clock: 0, good: 0 }, 11),
        (Ended::TooLong(File::Auction), 14),
        (Ended::TooLong(File::Log), 14),
        (Ended::BadLog(0), 15),
        (Ended::LooksSpent(0), 17),
        (Ended::BadReply, 18),
        (Ended::NoBidder(3), 19),
        (Ended::OtherTerms, 20),
        (
            Ended::NotPrefix {
                clock: 0,
                number: 1,
            },
            21,
        ),
        (
            Ended::TargetFull {
                clock: 0,
                needed: 67_108_865,
            },
            22,
        ),
        (Ended::StartCount(2), 24),
        (
            Ended::StartRange {
                good: 0,
                value: 100,
            },
            25,
        ),
    ] {
        equal_in(&ended, number_of(&ended), status)?;
    }
    Ok(())
}
