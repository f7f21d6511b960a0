//! The heads of frames.
ghost use Rattle.std.specs.Prelude.{◌≡◌, ◌++◌, [], ◌∷◌, OnOk};
ghost use Rattle.byte_numbers.specs.Spelling.{big_bytes};

use byte_numbers::push_number;
use std::alloc::AllocError;

/// Appends the length of a payload and its kind.
pub(crate) fn push_head(bytes: &mut Vec<u8>, length: u32, kind: u8) -> Result<(), AllocError>
    ensures { OnOk result (bytes.new.items ≡ bytes.old.items ++ (big_bytes 4 length ++ kind ∷ [])) }
{
    push_number(bytes, length)?;
    bytes.push(kind)?;
    Ok(())
}
