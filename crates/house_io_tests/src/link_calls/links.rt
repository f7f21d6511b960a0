//! Links that are accepted at a door, and links that are dialled.
use super::{ADDRESS, BIND, CONNECT, Row, first_other, found_at};
use crate::causes::{ABORTED, BROKEN, REFUSED};
use crate::link_asking::Asked;
use crate::noted_net::Call;
use std::test::Fail;

/// Links that are had, or not.
pub(super) const LINKS: [Row; 7] = [
    // What comes in sends small pieces at once, and has no time-out.
    Row {
        asked: &[Asked::Doors(ADDRESS, 1), Asked::Accepts],
        sent: 0,
        failing: &[],
        code: BROKEN,
        outcome: (0, 2),
        calls: &[BIND, Call::CloneListener, Call::Accept, Call::NoDelay(true)],
        said: "127.0.0.1:4747: doors are open\n",
    },
    // The same of a link that is dialled.
    Row {
        asked: &[Asked::Dials(ADDRESS)],
        sent: 0,
        failing: &[],
        code: BROKEN,
        outcome: (0, 1),
        calls: &[CONNECT, Call::NoDelay(true)],
        said: "",
    },
    // Given back to the net it is let go of, with no call.
    Row {
        asked: &[Asked::Dials(ADDRESS), Asked::GoesBack],
        sent: 9,
        failing: &[],
        code: BROKEN,
        outcome: (0, 0),
        calls: &[CONNECT, Call::NoDelay(true)],
        said: "",
    },
    // Without leave to send small pieces at once it is a link as well.
    Row {
        asked: &[Asked::Doors(ADDRESS, 1), Asked::Accepts],
        sent: 0,
        failing: &[3],
        code: BROKEN,
        outcome: (0, 2),
        calls: &[BIND, Call::CloneListener, Call::Accept, Call::NoDelay(true)],
        said: "127.0.0.1:4747: doors are open\n",
    },
    // A connection that was given up before it was accepted is passed over.
    Row {
        asked: &[Asked::Doors(ADDRESS, 1), Asked::Accepts],
        sent: 0,
        failing: &[2, 3],
        code: ABORTED,
        outcome: (0, 2),
        calls: &[
            BIND,
            Call::CloneListener,
            Call::Accept,
            Call::Accept,
            Call::Accept,
            Call::NoDelay(true),
        ],
        said: "127.0.0.1:4747: doors are open\n",
    },
    // Any other fault ends the call, is said once for each cause in a row, and closes no door.
    Row {
        asked: &[
            Asked::Doors(ADDRESS, 1),
            Asked::Accepts,
            Asked::Accepts,
            Asked::Accepts,
            Asked::Accepts,
        ],
        sent: 0,
        failing: &[2, 3, 6],
        code: BROKEN,
        outcome: (3, 2),
        calls: &[
            BIND,
            Call::CloneListener,
            Call::Accept,
            Call::Accept,
            Call::Accept,
            Call::NoDelay(true),
            Call::Accept,
        ],
        said: "127.0.0.1:4747: doors are open\n127.0.0.1:4747: accept: Input/output error (os error 5)\n127.0.0.1:4747: accept: Input/output error (os error 5)\n",
    },
    // Nobody answers, twice.
    Row {
        asked: &[
            Asked::Dials(ADDRESS),
            Asked::Dials(ADDRESS),
            Asked::Dials(ADDRESS),
        ],
        sent: 0,
        failing: &[0, 1],
        code: REFUSED,
        outcome: (2, 1),
        calls: &[CONNECT, CONNECT, CONNECT, Call::NoDelay(true)],
        said: "127.0.0.1:4747: connect: Connection refused (os error 111)\n",
    },
];

#[test]
fn links_are_had_by_these_calls(rt: HostRuntime) -> Result<(), Fail> {
    let number = first_other(rt.alloc(), &LINKS);
    assert_eq!(rt; number, 7, "{:?}", found_at(rt.alloc(), &LINKS, number));
    Ok(())
}
