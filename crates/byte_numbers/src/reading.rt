//! Bytes, read as numbers.
ghost use Rattle.std.specs.Prelude.{◌≡◌, ◌↔◌, length, IfOk, IsTrue};
ghost use Rattle.byteorder.specs.Endian.{big_bytes, big_number};
ghost use Rattle.byte_numbers.specs.Spelling.{short_numbers};

use byteorder::{BigEndian, ByteOrder};
use std::alloc::{AllocError, Global};

/// The number that four bytes spell.
pub fn number_of(bytes: &[u8]) -> u32
    requires { length bytes.now ≡ 4 }
    ensures value { result ≡ big_number 4 bytes.now }
    ensures spelled { big_bytes 4 result ≡ bytes.now }
{
    BigEndian::read_u32(bytes)
}

/// The number that two bytes spell.
pub fn short_number_of(bytes: &[u8]) -> u16
    requires { length bytes.now ≡ 2 }
    ensures value { result ≡ big_number 2 bytes.now }
    ensures spelled { big_bytes 2 result ≡ bytes.now }
{
    BigEndian::read_u16(bytes)
}

/// The numbers that pairs of bytes spell. A last byte alone spells none.
pub fn short_numbers_of(alloc: Global, bytes: &[u8]) -> Result<Vec<u16>, AllocError>
    ensures { IfOk result (λ v. v.items ≡ short_numbers bytes.now) }
{
    let count = bytes.len() / 2;
    let mut numbers = vec![in alloc; 0u16; count]?;
    BigEndian::read_u16_into(&bytes[..2 * count], &mut numbers);
    Ok(numbers)
}

/// Whether pairs of bytes spell these numbers and no more. A last byte alone spells none.
pub fn are_short_numbers(numbers: &[u16], bytes: &[u8]) -> bool
    ensures { IsTrue result ↔ (short_numbers bytes.now ≡ numbers.now) }
{
    let mut rest = bytes;
    for number in numbers {
        let [high, low, others @ ..] = rest else {
            return false;
        };
        if BigEndian::read_u16(&[*high, *low]) != *number {
            return false;
        }
        rest = others;
    }
    rest.len() < 2
}
