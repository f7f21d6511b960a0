//! The names of goods and of bidders.
ghost use Rattle.std.specs.Prelude.{◌≡◌, ◌≤◌, true, length};
ghost use Rattle.std.specs.List.{list_all};
ghost use Rattle.auction_file.specs.Names.{is_name, is_name_byte, name_of, padded};

use std::marker::Model;

/// The name of a good or a bidder, seen as the list of its bytes.
#[derive(Clone, Copy, Debug)]
pub struct Name {
    /// The bytes of the name, and zeros after them.
    cells: [u8; 32],
    /// How many bytes the name has, 1 to 32: so many cells are seen.
    count: u8,
}

impl Model for Name {
    ghost use Rattle.std.specs.Prelude.{ℕ, List, length, take};
    ghost use Rattle.auction_file.specs.Names.{padded, IsNameIn};

    ghost Value = { List ℕ };

    ghost view = { λ n. take n.count n.cells };

    ghost invariant = { λ n. IsNameIn n.cells n.count };

    ghost inverse = { λ name. record { cells = padded name; count = length name } };

    ghost inverse_ok = { λ n h i. record { cells = h.zeros i; count = h.count_is i } };
}

impl Name {
    /// The name of these bytes, if they are one.
    pub fn read(bytes: &[u8]) -> Option<Name>
        ensures { result ≡ name_of bytes.now }
    {
        if !is_name(bytes) {
            return None;
        }
        Some(Name {
            cells: name_cells(bytes),
            count: bytes.len() as u8,
        })
    }

    /// The bytes of the name.
    pub fn as_bytes(&self) -> &[u8]
        ensures value { result.now ≡ self.now }
        ensures name { is_name self.now ≡ true }
    {
        &self.cells[..self.count as usize]
    }
}

/// Whether the bytes are a name.
fn is_name(bytes: &[u8]) -> bool
    ensures { result ≡ is_name bytes.now }
{
    !bytes.is_empty() && bytes.len() <= 32 && are_name_bytes(bytes)
}

/// Whether a name may have each of the bytes.
fn are_name_bytes(bytes: &[u8]) -> bool
    ensures { result ≡ list_all is_name_byte bytes.now }
{
    bytes.iter().all(|byte| is_name_byte(*byte))
}

/// Whether a name may have the byte.
fn is_name_byte(byte: u8) -> bool
    ensures { result ≡ is_name_byte byte }
{
    matches!(byte, b'a'..=b'z' | b'0'..=b'9' | b'-')
}

/// The bytes, and zeros after them.
fn name_cells(bytes: &[u8]) -> [u8; 32]
    requires { length bytes.now ≤ 32 }
    ensures { result ≡ padded bytes.now }
{
    let mut cells = [0u8; 32];
    cells[..bytes.len()].copy_from_slice(bytes);
    cells
}
