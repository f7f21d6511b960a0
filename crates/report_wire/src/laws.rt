//! Laws of frames that are not about one call.
ghost use Rattle.std.specs.Prelude.{◌≡◌, ◌≤◌, ◌<◌, ◌^◌, ◌⊎◌, ◌++◌, [], ◌∷◌, ℕ, List, Option, None, length};
ghost use Rattle.report_wire.specs.declared.kinds.TheConstants.{HELLO, LOOK, REPORT, QUIT, WELCOME, PRICE, TAKEN, AGAIN, REFUSED, BYE};
ghost use Rattle.report_wire.specs.declared.refusals.TheConstants.{NO_HELLO, BAD_TOKEN, UNKNOWN_CLOCK, NOT_MEMBER, BAD_DEMAND, EARLY, CONFLICT, OVER};
ghost use Rattle.report_wire.specs.declared.refusals.TheConstants.{FULL, DISK_FAULT, NO_MEMORY, NO_ROUND, SECOND_HELLO, TOO_LONG, UNKNOWN_KIND, BAD_PAYLOAD};
ghost use Rattle.report_wire.specs.declared.refusals.TheConstants.{EMPTY, NOT_ASCENDING, OUTSIDE_SUPPLY, WRONG_GOODS};
ghost use Rattle.report_wire.specs.Frames.{Direction, Sent, IsSent, IsPartial, Reads, spelled};
ghost use Rattle.report_wire.specs.Reading.{needs_of};
ghost use Rattle.report_wire.specs.Messages.{to_house, to_bidder};
ghost use Rattle.report_wire.specs.Entries.{entry_payload};
ghost use Rattle.lot_base.specs.declared.raw.RawReport.{RawReport};
ghost use Rattle.std.specs.List.{AllByRecursion};
ghost use Rattle.report_wire.specs.declared.frames.WireKind.{WireKind as Kind};

/// No frame to the house begins another, a stream is read in one way, and it is read in pieces as it is read whole.
pub fn to_house_is_read_in_one_way()
    ensures prefix { (m n : Sent) (x y : List ℕ) → IsSent to_house m → IsSent to_house n → spelled m ++ x ≡ spelled n ++ y → (m ≡ n)
        × (x ≡ y) }
    ensures one { (ms ns : List Sent) (stream r t : List ℕ) (f g : Option Kind) → Reads to_house stream ms r f
        → Reads to_house stream ns t g → (ms ≡ ns) × (r ≡ t) × (f ≡ g) }
    ensures pieces { (ms ns : List Sent) (stream r piece t : List ℕ) (f : Option Kind) → Reads to_house stream ms r None
        → Reads to_house (r ++ piece) ns t f → Reads to_house (stream ++ piece) (ms ++ ns) t f }
{}

/// The same of frames to a bidder.
pub fn to_bidder_is_read_in_one_way()
    ensures prefix { (m n : Sent) (x y : List ℕ) → IsSent to_bidder m → IsSent to_bidder n → spelled m ++ x ≡ spelled n ++ y → (m ≡ n)
        × (x ≡ y) }
    ensures one { (ms ns : List Sent) (stream r t : List ℕ) (f g : Option Kind) → Reads to_bidder stream ms r f
        → Reads to_bidder stream ns t g → (ms ≡ ns) × (r ≡ t) × (f ≡ g) }
    ensures pieces { (ms ns : List Sent) (stream r piece t : List ℕ) (f : Option Kind) → Reads to_bidder stream ms r None
        → Reads to_bidder (r ++ piece) ns t f → Reads to_bidder (stream ++ piece) (ms ++ ns) t f }
{}

/// A payload is that of one report.
pub fn an_entry_is_of_one_report()
    ensures { (r s : RawReport) → r.round < 2 ^ 32 → s.round < 2 ^ 32 → AllByRecursion (λ n. n < 2 ^ 16) r.demand.quantities
        → AllByRecursion (λ n. n < 2 ^ 16) s.demand.quantities → entry_payload r ≡ entry_payload s → r ≡ s }
{}

/// A piece of no more bytes than the next frame needs makes at most that frame whole, and then nothing is kept.
pub fn one_at_most()
    ensures { (d : Direction) (rest piece : List ℕ) (frames : List Sent) (after : List ℕ) (fault : Option Kind) → IsPartial d rest
        → length piece ≤ needs_of rest → Reads d (rest ++ piece) frames after fault → (frames ≡ [])
        ⊎ ((m : Sent) × (frames ≡ m ∷ []) × (after ≡ []) × (fault ≡ None)) }
{}

/// The numbers of the kinds, of the codes of refusals, and of the details of a refused demand.
pub fn numbers_are_those_of_the_format()
    ensures to_house { (HELLO ≡ 1) × (LOOK ≡ 2) × (REPORT ≡ 3) × (QUIT ≡ 4) }
    ensures to_bidder { (WELCOME ≡ 17) × (PRICE ≡ 18) × (TAKEN ≡ 19) × (AGAIN ≡ 20) × (REFUSED ≡ 21) × (BYE ≡ 22) }
    ensures codes { (NO_HELLO ≡ 1) × (BAD_TOKEN ≡ 2) × (UNKNOWN_CLOCK ≡ 3) × (NOT_MEMBER ≡ 4) × (BAD_DEMAND ≡ 5) × (EARLY ≡ 6)
        × (CONFLICT ≡ 7) × (OVER ≡ 8) × (FULL ≡ 9) × (DISK_FAULT ≡ 10) × (NO_MEMORY ≡ 11) × (NO_ROUND ≡ 12) × (SECOND_HELLO ≡ 13)
        × (TOO_LONG ≡ 14) × (UNKNOWN_KIND ≡ 15) × (BAD_PAYLOAD ≡ 16) }
    ensures details { (EMPTY ≡ 1) × (NOT_ASCENDING ≡ 2) × (OUTSIDE_SUPPLY ≡ 3) × (WRONG_GOODS ≡ 4) }
{}
