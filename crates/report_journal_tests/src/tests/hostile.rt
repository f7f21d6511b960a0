//! Files that are cut, and files that nobody honest leaves: each is read for what it is.
use super::fixtures::{FILE, PRICED, Seen, Told, copy_of, header_in, seen_in};
use expected_values::{equal, equal_in};
use std::alloc::Global;
use std::test::Fail;

/// What the first so many bytes of the file are read as, with this byte at the first record's gate.
fn seen_in_cut(alloc: Global, gate: u8, cut: usize) -> Option<Seen> {
    let mut file = FILE;
    file[41] = gate;
    seen_in(alloc, file.get(..cut)?)
}

/// The answer to a file of version 1 that is cut at this length, its first record's gate open or closed.
fn expected_at(cut: usize, open: bool) -> Seen {
    if cut < 42 {
        Seen::Unformed
    } else if !open {
        Seen::Formed(0)
    } else if cut < 57 {
        Seen::Damaged(1, 1)
    } else {
        Seen::Formed(1)
    }
}

#[test]
fn each_cut_of_a_file_is_read_for_what_it_is(rt: HostRuntime) -> Result<(), Fail> {
    let alloc = rt.alloc();
    for cut in 0..58 {
        let open = seen_in_cut(alloc, 0xa5, cut);
        equal_in(cut, open, Some(expected_at(cut, true)))?;
        let closed = seen_in_cut(alloc, 0, cut);
        equal_in(cut, closed, Some(expected_at(cut, false)))?;
    }
    Ok(())
}

/// The answer to the file of version 2 that is cut at this length.
fn priced_at(cut: usize) -> Seen {
    match cut {
        0..42 => Seen::Unformed,
        42..48 => Seen::Damaged(0, 0),
        48..63 => Seen::Damaged(1, 2),
        63..80 => Seen::Damaged(2, 2),
        _ => Seen::Formed(2),
    }
}

#[test]
fn each_cut_of_a_file_of_version_2_is_read_for_what_it_is(rt: HostRuntime) -> Result<(), Fail> {
    for cut in 0..81 {
        let seen = seen_in(rt.alloc(), &PRICED[..cut]);
        equal_in(cut, seen, Some(priced_at(cut)))?;
    }
    Ok(())
}

/// Puts these bytes into a file from this offset on, as far as it reaches.
fn put(file: &mut [u8], at: usize, bytes: &[u8]) {
    for (i, byte) in bytes.iter().enumerate() {
        if let Some(place) = file.get_mut(at.saturating_add(i)) {
            *place = *byte;
        }
    }
}

/// A file with other bytes from this offset on, cut at this length.
fn altered(alloc: Global, file: &[u8], at: usize, bytes: &[u8], cut: usize) -> Option<Vec<u8>> {
    let mut file = copy_of(alloc, file)?;
    put(&mut file, at, bytes);
    file.truncate(cut);
    Some(file)
}

fn seen_altered(alloc: Global, file: &[u8], at: usize, bytes: &[u8], cut: usize) -> Option<Seen> {
    let file = altered(alloc, file, at, bytes, cut)?;
    seen_in(alloc, &file)
}

/// What is altered, from which offset on to which bytes, the cut, and the answer then.
type Alteration = (&'static str, usize, &'static [u8], usize, Seen);

const HOSTILE_FILES: [Alteration; 12] = [
    (
        "the greatest length",
        42,
        &[0xff, 0xff, 0xff, 0xff],
        57,
        Seen::Damaged(1, 1),
    ),
    (
        "a length past the limit",
        42,
        &[0, 0, 0x80, 1],
        57,
        Seen::Damaged(1, 1),
    ),
    (
        "a length past the file",
        42,
        &[0, 0, 0, 11],
        57,
        Seen::Damaged(1, 1),
    ),
    (
        "a shorter length, on a closed gate",
        42,
        &[0, 0, 0, 9, 1, 0, 0, 0, 1, 1, 0, 1, 0, 0],
        57,
        Seen::Formed(1),
    ),
    (
        "a second record, past the file",
        56,
        &[0xa5],
        57,
        Seen::Damaged(2, 1),
    ),
    (
        "version 2, and no opening",
        1,
        b"AHJ2",
        57,
        Seen::Damaged(0, 0),
    ),
    (
        "another name and no record",
        1,
        b"BHJ1",
        42,
        Seen::Damaged(0, 0),
    ),
    ("another first gate", 0, &[0xa4], 57, Seen::Unformed),
    ("41 bytes", 0, &[], 41, Seen::Unformed),
    (
        "42 bytes, an open gate the last",
        0,
        &[],
        42,
        Seen::Damaged(1, 1),
    ),
    (
        "42 bytes, a closed gate the last",
        41,
        &[0x5a],
        42,
        Seen::Formed(0),
    ),
    ("43 bytes", 0, &[], 43, Seen::Damaged(1, 1)),
];

#[test]
fn a_hostile_file_is_read_for_what_it_is(rt: HostRuntime) -> Result<(), Fail> {
    for (story, at, bytes, cut, expected) in HOSTILE_FILES {
        let seen = seen_altered(rt.alloc(), &FILE, at, bytes, cut);
        equal_in(story, seen, Some(expected))?;
    }
    Ok(())
}

const HOSTILE_OPENINGS: [Alteration; 8] = [
    ("version 1", 1, b"AHJ1", 80, Seen::Formed(0)),
    ("version 3", 1, b"AHJ3", 80, Seen::Damaged(0, 0)),
    ("no goods", 42, &[0], 80, Seen::Damaged(0, 0)),
    ("seven goods", 42, &[7], 80, Seen::Damaged(0, 0)),
    (
        "another byte before the goods",
        41,
        &[3],
        80,
        Seen::Damaged(0, 0),
    ),
    (
        "an open gate before the goods",
        41,
        &[0xa5],
        80,
        Seen::Damaged(0, 0),
    ),
    (
        "six goods, and a file that ends with them",
        42,
        &[6],
        67,
        Seen::Damaged(0, 0),
    ),
    ("a closed first gate", 47, &[0], 80, Seen::Formed(0)),
];

#[test]
fn a_hostile_opening_is_read_for_what_it_is(rt: HostRuntime) -> Result<(), Fail> {
    for (story, at, bytes, cut, expected) in HOSTILE_OPENINGS {
        let seen = seen_altered(rt.alloc(), &PRICED, at, bytes, cut);
        equal_in(story, seen, Some(expected))?;
    }
    Ok(())
}

/// What the header says of a file that is altered so.
fn header_altered(alloc: Global, file: &[u8], at: usize, bytes: &[u8], cut: usize) -> Option<Told> {
    let file = altered(alloc, file, at, bytes, cut)?;
    header_in(alloc, &file)
}

#[test]
fn a_header_that_cannot_be_read_is_told_as_it_stands(rt: HostRuntime) -> Result<(), Fail> {
    let alloc = rt.alloc();
    let told = Some((0, 3, true, None));
    equal(header_altered(alloc, &FILE, 1, b"AHJ3", 57), told)?;
    equal(header_altered(alloc, &PRICED, 42, &[7], 80), told)?;
    Ok(())
}

#[test]
fn a_file_of_open_gates_has_no_header(rt: HostRuntime) -> Result<(), Fail> {
    equal(seen_in(rt.alloc(), &[0xa5; 300]), Some(Seen::Damaged(0, 0)))?;
    Ok(())
}
