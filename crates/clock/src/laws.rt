//! Laws on clocks: where a notion is said in two ways, both say the same, and each has one answer.
ghost use Rattle.std.specs.Prelude.{◌≡◌, ◌↔◌, ℕ, ◌+◌, ◌-◌, is_none, slice_get, Some};
ghost use Rattle.std.specs.List.{Contains, AllByRecursion};
ghost use Rattle.demand_set.specs.declared.reports.Report.{Report};
ghost use Rattle.clock.specs.Reports.{ClockHistory, demands_in, members_of};
ghost use Rattle.clock.specs.Standing.{HasSteps, steps_of, step_set_after, leads_on, good_at_ceiling};
ghost use Rattle.clock.specs.Judging.{IsMember, IsJudgement, IsLegal, judgement_of};
ghost use Rattle.clock.specs.declared.judging.Judgement.{Judgement};
ghost use Rattle.clock.specs.declared.judging.Judgement.TheVariants.{Take};
ghost use Rattle.clock.specs.Growth.{Grows};
ghost use Rattle.clock.specs.Repeats.{IsIdle, with_round};

/// The members of a clock, as a list, are those of whom `IsMember` says so.
pub fn member_law()
    ensures { (c : ClockHistory) (bidder : ℕ) → Contains (members_of c) bidder ↔ IsMember c bidder }
{}

/// Any reports, legal or not, have one number of steps, and it is the one that the function finds.
pub fn steps_law()
    ensures exists { (c : ClockHistory) → HasSteps c (steps_of c) }
    ensures unique { (c : ClockHistory) (steps : ℕ) → HasSteps c steps → steps ≡ steps_of c }
{}

/// A report has one judgement after any reports, and it is the one that the function gives.
pub fn judgement_law()
    ensures exists { (c : ClockHistory) (r : Report) → IsJudgement c r (judgement_of c r) }
    ensures unique { (c : ClockHistory) (r : Report) (judgement : Judgement) → IsJudgement c r judgement → judgement ≡ judgement_of c r }
{}

/// A report that is taken changes nothing of the rounds before the present one, and the clock goes on from where it stood.
pub fn growth_law()
    ensures { (c : ClockHistory) (r : Report) → judgement_of c r ≡ Take → Grows c r }
{}

/// A legal history names a bidder and a round once: two of its reports of one bidder in one round stand at one place.
pub fn once_law()
    ensures { (c : ClockHistory) (i j : ℕ) (r s : Report) → IsLegal c → slice_get c.reports i ≡ Some r → slice_get c.reports j ≡ Some s
        → r.bidder ≡ s.bidder → r.round ≡ s.round → i ≡ j }
{}

/// Rounds of the same demands have the same step set. So has a round that repeats the round before, and only the ceiling ends it.
pub fn repeat_law()
    ensures same { (c : ClockHistory) (m n : ℕ)
        → AllByRecursion (λ j. demands_in c.reports (m + 1) j ≡ demands_in c.reports (n + 1) j) (members_of c)
        → step_set_after c m ≡ step_set_after c n }
    ensures set { (c : ClockHistory) → IsIdle c → step_set_after (with_round c) (steps_of c) ≡ step_set_after c (steps_of c - 1) }
    ensures ceiling { (c : ClockHistory) → IsIdle c
        → leads_on (with_round c) (steps_of c) ≡ is_none (good_at_ceiling (with_round c) (steps_of c)) }
{}
