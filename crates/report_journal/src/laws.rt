//! Laws of the format.
ghost use Rattle.std.specs.Prelude.{List, ℕ};
ghost use Rattle.report_journal.specs.Kinds.{Kind, AreBytes, IsJust};

/// A file is of exactly one kind: unformed, standing for contents, damaged after contents, or damaged in its header.
pub fn each_file_is_of_one_kind()
    ensures { (file : List ℕ) → AreBytes file → (kind : Kind) × IsJust kind file }
{}
