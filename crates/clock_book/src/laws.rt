//! Laws of what a file is read as.
ghost use Rattle.std.specs.Prelude.{◌≡◌, ◌≢◌, ℕ, List, Result};
ghost use Rattle.clock.specs.Reports.{ClockHistory};
ghost use Rattle.recovery.specs.Journaled.{Owner};
ghost use Rattle.clock_book.specs.declared.faults.OpenFault.{OpenFault as Fault};
ghost use Rattle.clock_book.specs.Opening.{IsOpening};
ghost use Rattle.clock.specs.declared.judging.Offered.{Offered};
ghost use Rattle.clock.specs.declared.judging.Offered.TheVariants as answers;
ghost use Rattle.demand_set.specs.declared.reports.Report.{Report};
ghost use Rattle.clock_book.specs.Books.{BookState};
ghost use Rattle.clock_book.specs.Offers.{Answers, IsNew};

/// A file is read in one way: as one legal history, or as broken or not acceptable at one record and for one cause.
pub fn one_answer_law()
    ensures { (owner : Owner) (file : List ℕ) (one other : Result ClockHistory Fault) → IsOpening owner file one
        → IsOpening owner file other → one ≡ other }
{}

/// A report that the clock takes after the mend, and whose record fits, is answered `Taken` where the disk does not fail.
pub fn taken_law()
    ensures { (owner : Owner) (answer : Offered) (mid : BookState) (r : Report) (new : BookState) → Answers owner answer mid r new
        → IsNew owner mid r → answer ≢ answers.DiskFault → answer ≡ answers.Taken }
{}
