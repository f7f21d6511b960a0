//! Digests that are compared.
ghost use Rattle.std.specs.Prelude.{◌≡◌, bytes_eq};

/// How many bytes a digest has.
const LENGTH: usize = 32;

/// Whether two digests are the same. It reads all bytes of both, wherever they differ, so that its time tells nothing of
/// that place.
pub(crate) fn are_same(left: &[u8; LENGTH], right: &[u8; LENGTH]) -> bool
    ensures { result ≡ bytes_eq left.now right.now }
{
    let mut same = true;
    for place in 0..LENGTH {
        same &= left[place] == right[place];
    }
    same
}
