//! Things that have names, and the place of a name among them.
ghost use Rattle.std.specs.Prelude.{◌≡◌, MatchOption};
ghost use Rattle.house_io.specs.Places.{HasNone, IsFirstAt};

/// What has a name.
pub(crate) trait Named {
    ghost use Rattle.std.specs.Prelude.{ℕ, List};

    ghost name_of: { Self → List ℕ };

    fn name(&self) -> &str
        ensures { result.now ≡ name_of self.now };
}

/// The place of the first of a name.
pub(crate) fn place_of<E: Named>(all: &[E], name: &str) -> Option<usize>
    ensures { MatchOption result (HasNone E.name_of all.now name.now) (λ place. IsFirstAt E.name_of all.now name.now place) }
{
    for (place, thing) in all.iter().enumerate() {
        if thing.name() == name {
            return Some(place);
        }
    }
    None
}
