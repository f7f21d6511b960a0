//! A claim, and the calls of it that fail.
use super::{FAR, Row, first_other, found_at};
use crate::folder_asking::Asked;
use crate::noted_folder::{Call, FOLDER, MADE, OPENED, Place};
use std::test::Fail;

/// Claims, and writes after the end.
pub(super) const CLAIMING: [Row; 6] = [
    // A claim opens it once more, locks it, and syncs it and its folder; a second one does nothing.
    Row {
        stands: false,
        asked: &[Asked::Claims, Asked::Claims, Asked::Writes(FAR, 4)],
        failing: &[],
        outcome: Ok(0),
        calls: &[
            OPENED,
            FOLDER,
            MADE,
            Call::Lock,
            Call::SyncAll(Place::Journal),
            FOLDER,
            Call::SyncAll(Place::Folder),
            Call::SeekStart(FAR),
            Call::Write(4),
            Call::Write(1),
        ],
        said: "",
    },
    // A write of no bytes after the end lengthens the file.
    Row {
        stands: true,
        asked: &[Asked::Writes(200_001, 0), Asked::Writes(2, 0)],
        failing: &[],
        outcome: Ok(0),
        calls: &[
            OPENED,
            MADE,
            Call::Lock,
            Call::SyncAll(Place::Journal),
            FOLDER,
            Call::SyncAll(Place::Folder),
            Call::SeekEnd,
            Call::SetLength(200_001),
            Call::SeekEnd,
        ],
        said: "",
    },
    // A file that cannot be opened to be written.
    Row {
        stands: true,
        asked: &[Asked::Claims],
        failing: &[1],
        outcome: Ok(1),
        calls: &[OPENED, MADE],
        said: "journal: claim: Input/output error (os error 5)\n",
    },
    // A lock that cannot be had, twice, and nothing of the file is touched.
    Row {
        stands: true,
        asked: &[Asked::Claims, Asked::Claims],
        failing: &[2, 4],
        outcome: Ok(2),
        calls: &[OPENED, MADE, Call::Lock, MADE, Call::Lock],
        said: "journal: claim: Input/output error (os error 5)\n",
    },
    // A sync of the file that fails, and then all is done again.
    Row {
        stands: true,
        asked: &[Asked::Claims, Asked::Claims],
        failing: &[3],
        outcome: Ok(1),
        calls: &[
            OPENED,
            MADE,
            Call::Lock,
            Call::SyncAll(Place::Journal),
            MADE,
            Call::Lock,
            Call::SyncAll(Place::Journal),
            FOLDER,
            Call::SyncAll(Place::Folder),
        ],
        said: "journal: claim: Input/output error (os error 5)\n",
    },
    // A sync of the folder that fails.
    Row {
        stands: true,
        asked: &[Asked::Claims],
        failing: &[5],
        outcome: Ok(1),
        calls: &[
            OPENED,
            MADE,
            Call::Lock,
            Call::SyncAll(Place::Journal),
            FOLDER,
            Call::SyncAll(Place::Folder),
        ],
        said: "journal: claim: Input/output error (os error 5)\n",
    },
];

#[test]
fn a_disk_in_a_folder_is_claimed_by_these_calls(rt: HostRuntime) -> Result<(), Fail> {
    let number = first_other(rt.alloc(), &CLAIMING);
    assert_eq!(rt; number, 6, "{:?}", found_at(rt.alloc(), &CLAIMING, number));
    Ok(())
}
