//! Laws of lives.
ghost use Rattle.house_lives.specs.Crashes.{DeathLaw, KilledLaw, PowerLaw, SeveralLaw};
ghost use Rattle.house_lives.specs.Headline.{ExplainedLivesLaw, JudgedLivesLaw, SettledLivesLaw, StandingLivesLaw};
ghost use Rattle.house_lives.specs.Kept.{LivesLaw};
ghost use Rattle.house_lives.specs.Moved.{MovedLivesLaw, MovedSettleLaw, MovedStandingLaw};
ghost use Rattle.house_lives.specs.Others.{MoveLaw, OtherLaw};
ghost use Rattle.house_lives.specs.Readings.{ExplainLaw, JudgeLaw, SettleLaw, StandingLaw};

/// Serve an auction as often as it takes, on one folder: each time the house may be ended, be killed, or lose its power, and other
/// commands may be run between. Then let `settle` be done. What it writes is the outcome of histories, one of each clock, in which each
/// report stands that was ever acknowledged to its bidder, in its round and with its demand. No report stands there that was not there
/// at first and that its bidder did not send, and none twice. `standing` tells how these same histories stand, `explain` what their clocks
/// have come to, and `judge` decides on what a bidder reported in them.
pub fn headline_law()
    ensures settled { SettledLivesLaw }
    ensures standing { StandingLivesLaw }
    ensures explained { ExplainedLivesLaw }
    ensures judged { JudgedLivesLaw }
{}

/// What the journals have at the end of any list of lives, whichever command reads them then. Each report that was acknowledged in one
/// of the lives is in the history of its clock. Each that is in it was there at first, or was sent in one of the lives by a session of
/// its bidder. None is there twice.
pub fn lives_law()
    ensures { LivesLaw }
{}

/// What may come between two lives, so that the second goes on where the first one left off. The power went, and each journal is one of
/// the images that the crash model allows at its last moment. The process alone died or ended, and each file is as it was. A command
/// was run that writes to no journal, which is any but `serve` and `migrate`. A migration was run, however it ended: it leaves the
/// journals that it moves. Or several of these, one after another. A life that was killed in the middle is read as one that went on from
/// there with every call failing: whatever may follow the kill may follow its end.
pub fn leads_law()
    ensures power { PowerLaw }
    ensures death { DeathLaw }
    ensures command { OtherLaw }
    ensures migration { MoveLaw }
    ensures several { SeveralLaw }
    ensures killed { KilledLaw }
{}

/// Serve an auction as above; then carry it to a newer file of it, as often as it takes until a `migrate` is done; then serve it on under
/// that file, and let `settle` be done. Each report that was acknowledged before the move or after it stands in the outcome's histories,
/// in its round and with its demand, none that was not there at first and that its bidder did not send, and none twice. `standing` tells
/// how these same histories stand.
pub fn moved_law()
    ensures lives { MovedLivesLaw }
    ensures settled { MovedSettleLaw }
    ensures standing { MovedStandingLaw }
{}

/// What the four commands read that tell of an auction. A `settle` that is done has written the outcome in which the histories settle
/// that the journals had when it began. A `standing` that is done has written how these stand, and an `explain` that is done what their
/// clocks have come to. A `judge` that is done has written a decision of all that a bidder reported in them.
pub fn readings_law()
    ensures settle { SettleLaw }
    ensures standing { StandingLaw }
    ensures explain { ExplainLaw }
    ensures judge { JudgeLaw }
{}
