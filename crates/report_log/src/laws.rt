//! Laws of logs.
ghost use Rattle.std.specs.Prelude.{◌≡◌, ◌⊎◌, ℕ, List, [], ◌∷◌, Ok, Err};
ghost use Rattle.lot_base.specs.declared.auction_terms.Terms.{Terms};
ghost use Rattle.clock.specs.Reports.{ClockHistory};
ghost use Rattle.report_log.specs.Entries.{log_of};
ghost use Rattle.report_log.specs.Logs.{AreBytes, IsLogOf, IsFaultyAt, entry_of};

/// Bytes are a log of one history, or they have one first faulty entry, and not both. So what `run` says of a log says which
/// answer it gives.
pub fn log_law()
    ensures either { (terms : Terms) (bytes : List ℕ) → AreBytes bytes → ((c : ClockHistory) × IsLogOf terms c bytes)
        ⊎ ((place : ℕ) × IsFaultyAt terms bytes place) }
    ensures not_both { (terms : Terms) (bytes : List ℕ) (c : ClockHistory) (place : ℕ) → IsLogOf terms c bytes
        → IsFaultyAt terms bytes place → ⊥ }
    ensures one { (terms : Terms) (bytes : List ℕ) (c d : ClockHistory) → IsLogOf terms c bytes → IsLogOf terms d bytes → c ≡ d }
    ensures one_place { (terms : Terms) (bytes : List ℕ) (place other : ℕ) →
        AreBytes bytes → IsFaultyAt terms bytes place → IsFaultyAt terms bytes other → place ≡ other }
{}

/// The same as a function, which walks from entry to entry: one that is read whole is a log, each log is read, and the place
/// that it finds is that of the first faulty entry.
pub fn walk_law()
    ensures whole { (terms : Terms) (bytes : List ℕ) (c : ClockHistory) →
        AreBytes bytes → log_of terms bytes ≡ Ok c → IsLogOf terms c bytes }
    ensures back { (terms : Terms) (bytes : List ℕ) (c : ClockHistory) → IsLogOf terms c bytes → log_of terms bytes ≡ Ok c }
    ensures faulty { (terms : Terms) (bytes : List ℕ) (place : ℕ) →
        AreBytes bytes → log_of terms bytes ≡ Err place → IsFaultyAt terms bytes place }
    ensures fault_back { (terms : Terms) (bytes : List ℕ) (place : ℕ) →
        AreBytes bytes → IsFaultyAt terms bytes place → log_of terms bytes ≡ Err place }
{}

/// Two entries, byte by byte: bidder 1's report of round 1, of the one bundle (1) of one good; and bidder 2's report of round 258,
/// of the bundles (0, 259) and (1, 0) of two goods.
pub fn entry_examples()
    ensures one_good { entry_of 1 (record { bidder = 1; round = 1; demand = (1 ∷ []) ∷ [] }) ≡
        0 ∷ 0 ∷ 0 ∷ 10 ∷ 1 ∷ 0 ∷ 0 ∷ 0 ∷ 1 ∷ 1 ∷ 0 ∷ 1 ∷ 0 ∷ 1 ∷ [] }
    ensures two_goods { entry_of 2 (record { bidder = 2; round = 258; demand = (0 ∷ 259 ∷ []) ∷ (1 ∷ 0 ∷ []) ∷ [] }) ≡
        0 ∷ 0 ∷ 0 ∷ 16 ∷ 2 ∷ 0 ∷ 0 ∷ 1 ∷ 2 ∷ 2 ∷ 0 ∷ 2 ∷ 0 ∷ 0 ∷ 1 ∷ 3 ∷ 0 ∷ 1 ∷ 0 ∷ 0 ∷ [] }
{}
