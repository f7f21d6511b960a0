//! Numbers, written as bytes.
ghost use Rattle.std.specs.Prelude.{◌≡◌, ◌≤◌, ◌+◌, ◌*◌, ◌++◌, length, vec_capacity, OnOk};
ghost use Rattle.std.specs.List.{flat_map};
ghost use Rattle.byteorder.specs.Endian.{big_bytes};

use byteorder::{BigEndian, ByteOrder};
use std::alloc::AllocError;

/// The four bytes of a number.
pub fn number_bytes(n: u32) -> [u8; 4]
    ensures { result ≡ big_bytes 4 n }
{
    let mut bytes = [0; 4];
    BigEndian::write_u32(&mut bytes, n);
    bytes
}

/// Writes a number in four bytes.
pub fn fill_number(n: u32, into: &mut [u8])
    requires { length into.old ≡ 4 }
    ensures { into.new ≡ big_bytes 4 n }
{
    BigEndian::write_u32(into, n);
}

/// Writes a number in two bytes.
pub fn fill_short_number(n: u16, into: &mut [u8])
    requires { length into.old ≡ 2 }
    ensures { into.new ≡ big_bytes 2 n }
{
    BigEndian::write_u16(into, n);
}

/// Writes numbers in two bytes each.
pub fn fill_short_numbers(numbers: &[u16], into: &mut [u8])
    requires { length into.old ≡ 2 * length numbers.now }
    ensures { into.new ≡ flat_map (big_bytes 2) numbers.now }
{
    for place in 0..numbers.len() {
        BigEndian::write_u16(&mut into[2 * place..2 * place + 2], numbers[place]);
    }
}

/// Appends a number in four bytes.
pub fn push_number(bytes: &mut Vec<u8>, n: u32) -> Result<(), AllocError>
    ensures { OnOk result (bytes.new.items ≡ bytes.old.items ++ big_bytes 4 n) }
{
    bytes.extend_from_slice(&number_bytes(n))
}

/// Appends a number in two bytes.
pub fn push_short_number(bytes: &mut Vec<u8>, n: u16) -> Result<(), AllocError>
    ensures { OnOk result (bytes.new.items ≡ bytes.old.items ++ big_bytes 2 n) }
{
    let mut pair = [0; 2];
    BigEndian::write_u16(&mut pair, n);
    bytes.extend_from_slice(&pair)
}

/// Appends numbers in two bytes each.
pub fn push_short_numbers(bytes: &mut Vec<u8>, numbers: &[u16]) -> Result<(), AllocError>
    ensures { OnOk result (bytes.new.items ≡ bytes.old.items ++ flat_map (big_bytes 2) numbers.now) }
{
    for n in numbers {
        push_short_number(bytes, *n)?;
    }
    Ok(())
}
