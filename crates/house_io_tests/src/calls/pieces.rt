//! Pieces that are written and read at offsets, lengths that are set, and syncs.
use super::{FAR, Row, first_other, found_at};
use crate::folder_asking::Asked;
use crate::noted_folder::{Call, FOLDER, MADE, OPENED, Place, SYNCED};
use std::test::Fail;

/// Pieces, lengths and syncs.
pub(super) const PIECES: [Row; 11] = [
    // A piece at the start is written, and the length is left as it is.
    Row {
        stands: true,
        asked: &[Asked::Writes(0, 4), Asked::Writes(0, 17)],
        failing: &[],
        outcome: Ok(0),
        calls: &[
            OPENED,
            MADE,
            Call::Lock,
            Call::SyncAll(Place::Journal),
            FOLDER,
            Call::SyncAll(Place::Folder),
            Call::SeekStart(0),
            Call::Write(4),
            Call::Write(1),
            Call::SeekStart(0),
            Call::Write(17),
        ],
        said: "",
    },
    // The same about a mebibyte, and just below 64 of them.
    Row {
        stands: true,
        asked: &[
            Asked::Writes(1_048_575, 2),
            Asked::Writes(FAR, 2),
            Asked::Writes(67_108_863, 2),
        ],
        failing: &[],
        outcome: Ok(0),
        calls: &[
            OPENED,
            MADE,
            Call::Lock,
            Call::SyncAll(Place::Journal),
            FOLDER,
            Call::SyncAll(Place::Folder),
            Call::SeekStart(1_048_575),
            Call::Write(2),
            Call::SeekStart(FAR),
            Call::Write(2),
            Call::SeekStart(67_108_863),
            Call::Write(2),
        ],
        said: "",
    },
    // A read changes nothing, wherever it is.
    Row {
        stands: true,
        asked: &[
            Asked::Reads(4_096, 8),
            Asked::Reads(4_097, 8),
            Asked::Reads(1_048_575, 2),
            Asked::Reads(FAR, 2),
            Asked::Reads(67_108_863, 2),
        ],
        failing: &[],
        outcome: Ok(0),
        calls: &[
            OPENED,
            Call::SeekStart(4_096),
            Call::Read(8),
            Call::SeekStart(4_097),
            Call::Read(8),
            Call::SeekStart(1_048_575),
            Call::Read(2),
            Call::SeekStart(FAR),
            Call::Read(2),
            Call::SeekStart(67_108_863),
            Call::Read(2),
        ],
        said: "",
    },
    // A long piece is written at once, and read up to the end of the file.
    Row {
        stands: true,
        asked: &[Asked::Writes(0, 16_777_216), Asked::Reads(0, 16_777_216)],
        failing: &[],
        outcome: Ok(0),
        calls: &[
            OPENED,
            MADE,
            Call::Lock,
            Call::SyncAll(Place::Journal),
            FOLDER,
            Call::SyncAll(Place::Folder),
            Call::SeekStart(0),
            Call::Write(16_777_216),
            Call::SeekStart(0),
            Call::Read(16_777_216),
            Call::Read(16_711_680),
            Call::Read(16_646_144),
            Call::Read(16_580_608),
            Call::Read(16_577_216),
        ],
        said: "",
    },
    Row {
        stands: true,
        asked: &[Asked::Pulls(16_777_216)],
        failing: &[],
        outcome: Ok(0),
        calls: &[OPENED, Call::Read(16_777_216)],
        said: "",
    },
    // What was written is read and synced by the claimed file.
    Row {
        stands: true,
        asked: &[
            Asked::Writes(9, 2),
            Asked::Reads(9, 2),
            Asked::Size,
            Asked::Syncs,
        ],
        failing: &[],
        outcome: Ok(0),
        calls: &[
            OPENED,
            MADE,
            Call::Lock,
            Call::SyncAll(Place::Journal),
            FOLDER,
            Call::SyncAll(Place::Folder),
            Call::SeekStart(9),
            Call::Write(2),
            Call::SeekStart(9),
            Call::Read(2),
            Call::SeekEnd,
            SYNCED,
        ],
        said: "",
    },
    // A write that fails at its first byte cuts nothing, and the next one is made as any other.
    Row {
        stands: true,
        asked: &[Asked::Writes(4_096, 9), Asked::Writes(4_096, 2)],
        failing: &[7],
        outcome: Ok(1),
        calls: &[
            OPENED,
            MADE,
            Call::Lock,
            Call::SyncAll(Place::Journal),
            FOLDER,
            Call::SyncAll(Place::Folder),
            Call::SeekStart(4_096),
            Call::Write(9),
            Call::SeekStart(4_096),
            Call::Write(2),
        ],
        said: "journal: write: Input/output error (os error 5)\n",
    },
    // An offset that cannot be gone to: nothing is written there, and nothing read.
    Row {
        stands: true,
        asked: &[Asked::Writes(4_096, 9), Asked::Reads(4_096, 9)],
        failing: &[6, 7],
        outcome: Ok(2),
        calls: &[
            OPENED,
            MADE,
            Call::Lock,
            Call::SyncAll(Place::Journal),
            FOLDER,
            Call::SyncAll(Place::Folder),
            Call::SeekStart(4_096),
            Call::SeekStart(4_096),
        ],
        said: "journal: write: Input/output error (os error 5)\njournal: read: Input/output error (os error 5)\n",
    },
    // A length from a mebibyte on is set as any other, and just below 64 of them.
    Row {
        stands: true,
        asked: &[
            Asked::Writes(FAR, 0),
            Asked::Writes(16_777_216, 0),
            Asked::Writes(67_108_863, 0),
        ],
        failing: &[],
        outcome: Ok(0),
        calls: &[
            OPENED,
            MADE,
            Call::Lock,
            Call::SyncAll(Place::Journal),
            FOLDER,
            Call::SyncAll(Place::Folder),
            Call::SeekEnd,
            Call::SetLength(FAR),
            Call::SeekEnd,
            Call::SetLength(16_777_216),
            Call::SeekEnd,
            Call::SetLength(67_108_863),
        ],
        said: "",
    },
    // A length that cannot be set.
    Row {
        stands: true,
        asked: &[Asked::Writes(200_001, 0)],
        failing: &[7],
        outcome: Ok(1),
        calls: &[
            OPENED,
            MADE,
            Call::Lock,
            Call::SyncAll(Place::Journal),
            FOLDER,
            Call::SyncAll(Place::Folder),
            Call::SeekEnd,
            Call::SetLength(200_001),
        ],
        said: "journal: write: Input/output error (os error 5)\n",
    },
    // Each sync is a call, also after some that failed.
    Row {
        stands: true,
        asked: &[
            Asked::Syncs,
            Asked::Syncs,
            Asked::Syncs,
            Asked::Syncs,
            Asked::Syncs,
        ],
        failing: &[1, 2, 3],
        outcome: Ok(3),
        calls: &[OPENED, SYNCED, SYNCED, SYNCED, SYNCED, SYNCED],
        said: "journal: sync: Input/output error (os error 5)\n",
    },
];

#[test]
fn pieces_go_where_they_are_to_by_these_calls(rt: HostRuntime) -> Result<(), Fail> {
    let number = first_other(rt.alloc(), &PIECES);
    assert_eq!(rt; number, 11, "{:?}", found_at(rt.alloc(), &PIECES, number));
    Ok(())
}
