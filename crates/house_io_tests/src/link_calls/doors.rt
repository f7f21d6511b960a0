//! Doors that are opened and closed.
use super::{ADDRESS, BIND, Row, first_other, found_at};
use crate::causes::{BROKEN, IN_USE};
use crate::link_asking::Asked;
use crate::noted_net::Call;
use std::test::Fail;

/// Doors, with nobody at them.
pub(super) const DOORS: [Row; 6] = [
    // Each door is a clone of the listener at this address, which is let go of.
    Row {
        asked: &[Asked::Doors(ADDRESS, 2)],
        sent: 0,
        failing: &[],
        code: BROKEN,
        outcome: (0, 2),
        calls: &[BIND, Call::CloneListener, Call::CloneListener],
        said: "127.0.0.1:4747: doors are open\n",
    },
    // Another host and port.
    Row {
        asked: &[Asked::Doors("10.1.2.3:80", 1)],
        sent: 0,
        failing: &[],
        code: BROKEN,
        outcome: (0, 1),
        calls: &[Call::Bind([10, 1, 2, 3], 80), Call::CloneListener],
        said: "10.1.2.3:80: doors are open\n",
    },
    // Every door that is closed is let go of.
    Row {
        asked: &[
            Asked::Doors(ADDRESS, 2),
            Asked::ClosesDoor,
            Asked::ClosesDoor,
        ],
        sent: 0,
        failing: &[],
        code: BROKEN,
        outcome: (0, 0),
        calls: &[BIND, Call::CloneListener, Call::CloneListener],
        said: "127.0.0.1:4747: doors are open\n",
    },
    // One failure is one call. It is said once for each cause in a row at one address.
    Row {
        asked: &[
            Asked::Doors(ADDRESS, 1),
            Asked::Doors(ADDRESS, 1),
            Asked::Doors("10.1.2.3:80", 1),
            Asked::Doors(ADDRESS, 1),
            Asked::Doors(ADDRESS, 1),
        ],
        sent: 0,
        failing: &[0, 1, 2, 3],
        code: IN_USE,
        outcome: (4, 1),
        calls: &[
            BIND,
            BIND,
            Call::Bind([10, 1, 2, 3], 80),
            BIND,
            BIND,
            Call::CloneListener,
        ],
        said: "127.0.0.1:4747: bind: Address already in use (os error 98)\n10.1.2.3:80: bind: Address already in use (os error 98)\n127.0.0.1:4747: bind: Address already in use (os error 98)\n127.0.0.1:4747: doors are open\n",
    },
    // A door that cannot be had: none is kept.
    Row {
        asked: &[Asked::Doors(ADDRESS, 3)],
        sent: 0,
        failing: &[2],
        code: BROKEN,
        outcome: (1, 0),
        calls: &[BIND, Call::CloneListener, Call::CloneListener],
        said: "127.0.0.1:4747: bind: Input/output error (os error 5)\n",
    },
    // No address.
    Row {
        asked: &[Asked::Doors("nowhere", 1)],
        sent: 0,
        failing: &[],
        code: BROKEN,
        outcome: (1, 0),
        calls: &[],
        said: "nowhere: bind: invalid socket address\n",
    },
];

#[test]
fn doors_are_opened_by_these_calls(rt: HostRuntime) -> Result<(), Fail> {
    let number = first_other(rt.alloc(), &DOORS);
    assert_eq!(rt; number, 6, "{:?}", found_at(rt.alloc(), &DOORS, number));
    Ok(())
}
