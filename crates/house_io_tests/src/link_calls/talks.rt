//! What is pulled and pushed over a link.
use super::{ADDRESS, BIND, CONNECT, Row, first_other, found_at};
use crate::causes::{BROKEN, RESET};
use crate::link_asking::Asked;
use crate::noted_net::Call;
use std::test::Fail;

/// As many bytes as a house takes at once.
const PIECE: usize = 65_536;

/// More bytes than are given or taken at once.
const LONG: usize = 1_048_576;

/// Links that are pulled and pushed.
pub(super) const TALKS: [Row; 5] = [
    // A pull reads once, and a push writes once, whatever is taken of it.
    Row {
        asked: &[
            Asked::Dials(ADDRESS),
            Asked::Pulls(PIECE),
            Asked::Pulls(9),
            Asked::Pushes(1),
            Asked::Pushes(10),
            Asked::Pushes(PIECE),
        ],
        sent: 60000,
        failing: &[],
        code: BROKEN,
        outcome: (0, 1),
        calls: &[
            CONNECT,
            Call::NoDelay(true),
            Call::Read(PIECE),
            Call::Read(9),
            Call::Write(1),
            Call::Write(10),
            Call::Write(PIECE),
        ],
        said: "",
    },
    // Of any length.
    Row {
        asked: &[
            Asked::Dials(ADDRESS),
            Asked::Pulls(LONG),
            Asked::Pulls(33_554_432),
            Asked::Pushes(131_072),
            Asked::Pushes(LONG),
            Asked::Pushes(33_554_432),
        ],
        sent: 60000,
        failing: &[],
        code: BROKEN,
        outcome: (0, 1),
        calls: &[
            CONNECT,
            Call::NoDelay(true),
            Call::Read(LONG),
            Call::Read(33_554_432),
            Call::Write(131_072),
            Call::Write(LONG),
            Call::Write(33_554_432),
        ],
        said: "",
    },
    // The end is no fault.
    Row {
        asked: &[Asked::Dials(ADDRESS), Asked::Pulls(9), Asked::Pulls(9)],
        sent: 9,
        failing: &[],
        code: BROKEN,
        outcome: (0, 1),
        calls: &[CONNECT, Call::NoDelay(true), Call::Read(9), Call::Read(9)],
        said: "",
    },
    // A fault is one call. It is said once for each cause in a row.
    Row {
        asked: &[
            Asked::Dials(ADDRESS),
            Asked::Pulls(9),
            Asked::Pulls(9),
            Asked::Pushes(9),
            Asked::Pushes(9),
            Asked::Pulls(9),
            Asked::Pulls(9),
        ],
        sent: 100,
        failing: &[2, 3, 4, 5, 7],
        code: BROKEN,
        outcome: (5, 1),
        calls: &[
            CONNECT,
            Call::NoDelay(true),
            Call::Read(9),
            Call::Read(9),
            Call::Write(9),
            Call::Write(9),
            Call::Read(9),
            Call::Read(9),
        ],
        said: "127.0.0.1:4747: read: Input/output error (os error 5)\n127.0.0.1:4747: write: Input/output error (os error 5)\n127.0.0.1:4747: read: Input/output error (os error 5)\n",
    },
    // A link that came in says its faults under the address of its door.
    Row {
        asked: &[Asked::Doors(ADDRESS, 1), Asked::Accepts, Asked::Pulls(9)],
        sent: 9,
        failing: &[4],
        code: RESET,
        outcome: (1, 2),
        calls: &[
            BIND,
            Call::CloneListener,
            Call::Accept,
            Call::NoDelay(true),
            Call::Read(9),
        ],
        said: "127.0.0.1:4747: doors are open\n127.0.0.1:4747: read: Connection reset by peer (os error 104)\n",
    },
];

#[test]
fn a_link_talks_by_these_calls(rt: HostRuntime) -> Result<(), Fail> {
    let number = first_other(rt.alloc(), &TALKS);
    assert_eq!(rt; number, 5, "{:?}", found_at(rt.alloc(), &TALKS, number));
    Ok(())
}
