//! What a test found, beside what it wanted.
#![tactic(auto)]

ghost use Rattle.std.specs.Prelude.{◌≡◌, true, false, OnOk, OnErr};

use std::fmt::Debug;
use std::test::Fail;

/// A failure that shows the two where they differ.
pub fn equal<T: PartialEq + Debug + Copy>(found: T, wanted: T) -> Result<(), Fail>
    ensures ok { OnOk result (T.eq found wanted ≡ true) }
    ensures err { OnErr result (T.eq found wanted ≡ false) }
{
    if found == wanted {
        return Ok(());
    }
    Err(Fail::new(format_args!("found {found:?}, wanted {wanted:?}")))
}

/// The same for a row of a table, which is shown too.
pub fn equal_in<R: Debug + Copy, T: PartialEq + Debug + Copy>(
    row: R,
    found: T,
    wanted: T,
) -> Result<(), Fail>
    ensures ok { OnOk result (T.eq found wanted ≡ true) }
    ensures err { OnErr result (T.eq found wanted ≡ false) }
{
    if found == wanted {
        return Ok(());
    }
    Err(Fail::new(format_args!("{row:?}: found {found:?}, wanted {wanted:?}")))
}
