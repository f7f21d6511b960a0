//! A file that is read or synced, an absent one, and a source.
use super::{Row, first_other, found_at};
use crate::folder_asking::Asked;
use crate::noted_folder::{Call, FOLDER, OPENED, SYNCED};
use house_io::Refusal;
use std::test::Fail;

/// Files of which nothing is claimed.
pub(super) const READING: [Row; 4] = [
    // It is read without leave to write.
    Row {
        stands: true,
        asked: &[Asked::Size, Asked::Reads(4_095, 65_537), Asked::Syncs],
        failing: &[],
        outcome: Ok(0),
        calls: &[
            OPENED,
            Call::SeekEnd,
            Call::SeekStart(4_095),
            Call::Read(65_537),
            Call::Read(1),
            SYNCED,
        ],
        said: "",
    },
    // An absent name in a folder that is there is a disk without bytes, and no file is made.
    Row {
        stands: false,
        asked: &[Asked::Size, Asked::Reads(0, 8), Asked::Syncs],
        failing: &[],
        outcome: Ok(0),
        calls: &[OPENED, FOLDER],
        said: "",
    },
    Row {
        stands: true,
        asked: &[Asked::Pulls(65_537), Asked::Pulls(9)],
        failing: &[],
        outcome: Ok(0),
        calls: &[OPENED, Call::Read(65_537), Call::Read(9)],
        said: "",
    },
    // An absent name is no source.
    Row {
        stands: false,
        asked: &[Asked::Pulls(9)],
        failing: &[],
        outcome: Err(Refusal::Failed),
        calls: &[OPENED],
        said: "journal: open: entity not found\n",
    },
];

#[test]
fn a_file_in_a_folder_is_read_by_these_calls(rt: HostRuntime) -> Result<(), Fail> {
    let number = first_other(rt.alloc(), &READING);
    assert_eq!(rt; number, 4, "{:?}", found_at(rt.alloc(), &READING, number));
    Ok(())
}
