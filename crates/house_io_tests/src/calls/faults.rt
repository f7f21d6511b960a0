//! What is said of calls that fail.
use super::{Row, first_other, found_at};
use crate::folder_asking::Asked;
use crate::noted_folder::{Call, FOLDER, MADE, OPENED, Place, SYNCED};
use house_io::Refusal;
use std::test::Fail;

/// Calls that fail, and what is said of them.
pub(super) const FAULTS: [Row; 7] = [
    // A read that fails is no end of the file. Two in a row are said once, and one after a read that went well is said anew.
    Row {
        stands: true,
        asked: &[
            Asked::Reads(0, 8),
            Asked::Reads(0, 8),
            Asked::Reads(0, 8),
            Asked::Reads(0, 8),
        ],
        failing: &[2, 4, 8],
        outcome: Ok(3),
        calls: &[
            OPENED,
            Call::SeekStart(0),
            Call::Read(8),
            Call::SeekStart(0),
            Call::Read(8),
            Call::SeekStart(0),
            Call::Read(8),
            Call::SeekStart(0),
            Call::Read(8),
        ],
        said: "journal: read: Input/output error (os error 5)\njournal: read: Input/output error (os error 5)\n",
    },
    // Another call is another cause.
    Row {
        stands: true,
        asked: &[Asked::Size, Asked::Syncs, Asked::Syncs],
        failing: &[1, 2, 3],
        outcome: Ok(3),
        calls: &[OPENED, Call::SeekEnd, SYNCED, SYNCED],
        said: "journal: size: Input/output error (os error 5)\njournal: sync: Input/output error (os error 5)\n",
    },
    // A write that fails after its first bytes.
    Row {
        stands: true,
        asked: &[Asked::Writes(5, 4)],
        failing: &[8],
        outcome: Ok(1),
        calls: &[
            OPENED,
            MADE,
            Call::Lock,
            Call::SyncAll(Place::Journal),
            FOLDER,
            Call::SyncAll(Place::Folder),
            Call::SeekStart(5),
            Call::Write(4),
            Call::Write(1),
        ],
        said: "journal: write: Input/output error (os error 5)\n",
    },
    // A file that cannot be opened.
    Row {
        stands: true,
        asked: &[Asked::Size],
        failing: &[0],
        outcome: Err(Refusal::Failed),
        calls: &[OPENED],
        said: "journal: open: Input/output error (os error 5)\n",
    },
    // An absent file of which the folder cannot be opened.
    Row {
        stands: false,
        asked: &[Asked::Size],
        failing: &[1],
        outcome: Err(Refusal::Failed),
        calls: &[OPENED, FOLDER],
        said: "journal: open: Input/output error (os error 5)\n",
    },
    // A source says its faults as a disk does.
    Row {
        stands: true,
        asked: &[Asked::Pulls(9), Asked::Pulls(9), Asked::Pulls(9)],
        failing: &[1, 2],
        outcome: Ok(2),
        calls: &[OPENED, Call::Read(9), Call::Read(9), Call::Read(9)],
        said: "journal: read: Input/output error (os error 5)\n",
    },
    Row {
        stands: true,
        asked: &[Asked::Pulls(9)],
        failing: &[0],
        outcome: Err(Refusal::Failed),
        calls: &[OPENED],
        said: "journal: open: Input/output error (os error 5)\n",
    },
];

#[test]
fn a_fault_is_said_once_for_each_cause_in_a_row(rt: HostRuntime) -> Result<(), Fail> {
    let number = first_other(rt.alloc(), &FAULTS);
    assert_eq!(rt; number, 7, "{:?}", found_at(rt.alloc(), &FAULTS, number));
    Ok(())
}
