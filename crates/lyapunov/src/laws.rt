//! Laws of the ascending clock auction, over the definitions of the economy: what a path of prices does where every bidder
//! truly demands what its valuation says. A path may start at any opening and need not have ended.
ghost use Rattle.std.specs.Prelude.{◌≡◌, ◌≢◌, ◌≤◌, ◌<◌, ℕ, List, [], ◌∷◌, length, map, ℤ, pos, negsuc, ◌+ℤ◌, ◌-ℤ◌, ◌≤ℤ◌};
ghost use Rattle.lot_base.specs.Goods.{AtMost, at, raised, zeros};
ghost use Rattle.lot_base.specs.Economy.{demand, without, AllStrongSubstitutes, AllValuations, AllBelowCeiling, lyapunov, IsMinimiser, IsLeastMinimiser};
ghost use Rattle.lot_base.specs.Equilibrium.{IsAllocation, IsWelfare, IsWalrasian, IsWalrasianPrices, IsLeastWalrasian, IsVcgPayment, total_value, worth};
ghost use Rattle.lot_base.specs.Choices.{IsClearingChoice};
ghost use Rattle.lot_base.specs.Steps.{excess};
ghost use Rattle.lot_base.specs.RowsTables.{one, two, three_bidders, two_bidders, unequal_bidders};
ghost use Rattle.lyapunov.specs.Bidders.{IsOneOf, AllDifferent, bundle_of};
ghost use Rattle.lyapunov.specs.Paths.{true_step, prices_along, IsPath, HasEnded, account_along, payment_along, IsTrueChoice, highest, highest_rise, IsLeastNear, halfway_down, halfway_up};

/// The premises can be met. Three bidders take one good in two units from 0 to 6, and two of them to 3. Two bidders raise one
/// of two goods to 1 and stop there, where larger sets of goods are in balance too. Two bidders take one good in two units to 8,
/// where the first gets both and pays 11: that is what the other would have had, and not the price of 16.
pub fn path_examples()
    ensures three { IsPath (one 2) three_bidders (1 ∷ 2 ∷ 3 ∷ []) (one 0) (1 ∷ 1 ∷ 1 ∷ 1 ∷ 1 ∷ 1 ∷ []) }
    ensures three_ended { HasEnded (one 2) three_bidders (1 ∷ 2 ∷ 3 ∷ []) (one 0) (1 ∷ 1 ∷ 1 ∷ 1 ∷ 1 ∷ 1 ∷ []) }
    ensures without_first { IsPath (one 2) three_bidders (2 ∷ 3 ∷ []) (one 0) (1 ∷ 1 ∷ 1 ∷ []) }
    ensures without_first_ended { HasEnded (one 2) three_bidders (2 ∷ 3 ∷ []) (one 0) (1 ∷ 1 ∷ 1 ∷ []) }
    ensures credit { account_along (one 2) three_bidders (2 ∷ 3 ∷ []) (one 0) (1 ∷ 1 ∷ 1 ∷ 1 ∷ 1 ∷ 1 ∷ []) ≡ negsuc 3 }
    ensures debit { account_along (one 2) three_bidders (2 ∷ 3 ∷ []) (one 0) (1 ∷ 1 ∷ 1 ∷ []) ≡ negsuc 3 }
    ensures two { IsPath (two 1 1) two_bidders (1 ∷ 2 ∷ []) (two 0 0) (1 ∷ []) }
    ensures two_ended { HasEnded (two 1 1) two_bidders (1 ∷ 2 ∷ []) (two 0 0) (1 ∷ []) }
    ensures unequal { IsPath (one 2) unequal_bidders (1 ∷ 2 ∷ []) (one 0) (1 ∷ 1 ∷ 1 ∷ 1 ∷ 1 ∷ 1 ∷ 1 ∷ 1 ∷ []) }
    ensures pays { IsVcgPayment (one 2) (one 0) unequal_bidders (1 ∷ 2 ∷ []) (bundle_of (1 ∷ 2 ∷ []) (one 2 ∷ one 0 ∷ [])) 1 (pos 11) }
{}

/// The Lyapunov function is convex: over the two price vectors halfway between two others, one rounded down and one rounded
/// up, it sums to no more than over those two.
pub fn convexity_law()
    ensures { (supply js p q : List ℕ) (u : ℕ → List ℕ → ℤ) → AllStrongSubstitutes supply u js →
        (lyapunov supply u js (halfway_down p q) +ℤ lyapunov supply u js (halfway_up p q))
        ≤ℤ (lyapunov supply u js p +ℤ lyapunov supply u js q) }
{}

/// Raising the prices on a set of goods lowers the Lyapunov function by the excess demand for the set. So a step that is not
/// empty lowers it by at least 1.
pub fn descent_law()
    ensures excess { (supply js p : List ℕ) (u : ℕ → List ℕ → ℤ) (set : ℕ) →
        AllStrongSubstitutes supply u js → length p ≡ length supply →
        excess supply (λ j. demand supply (u j) p) js set ≡ lyapunov supply u js p -ℤ lyapunov supply u js (raised p set) }
    ensures step { (supply js p : List ℕ) (u : ℕ → List ℕ → ℤ) →
        AllStrongSubstitutes supply u js → length p ≡ length supply → true_step supply u js p ≢ 0 →
        (lyapunov supply u js (raised p (true_step supply u js p)) +ℤ pos 1) ≤ℤ lyapunov supply u js p }
{}

/// What the account of some bidders keeps, along any sets of goods, is how far their Lyapunov function rose: it telescopes.
pub fn account_law()
    ensures { (supply js p sets : List ℕ) (u : ℕ → List ℕ → ℤ) →
        AllStrongSubstitutes supply u js → length p ≡ length supply →
        account_along supply u js p sets ≡ lyapunov supply u js (prices_along p sets) -ℤ lyapunov supply u js p }
{}

/// A path takes no more steps than the Lyapunov function is at its opening.
pub fn few_steps_law()
    ensures { (supply js opening sets : List ℕ) (u : ℕ → List ℕ → ℤ) → AllValuations supply u js →
        IsPath supply u js opening sets → pos (length sets) ≤ℤ lyapunov supply u js opening }
{}

/// At every moment a path has taken as many steps as its highest price has risen: some good was in every step. From an
/// opening of 0 that is the highest price. No other sets of goods raise the prices as far in fewer steps.
pub fn steps_law()
    ensures rise { (supply js opening sets : List ℕ) (u : ℕ → List ℕ → ℤ) →
        IsPath supply u js opening sets → length sets ≡ highest_rise opening (prices_along opening sets) }
    ensures price { (supply js sets : List ℕ) (u : ℕ → List ℕ → ℤ) →
        IsPath supply u js (zeros supply) sets → length sets ≡ highest (prices_along (zeros supply) sets) }
    ensures fastest { (supply js opening sets others : List ℕ) (u : ℕ → List ℕ → ℤ) →
        IsPath supply u js opening sets → AtMost (prices_along opening sets) (prices_along opening others) → length sets ≤ length others }
{}

/// The prices after so many steps minimise the Lyapunov function over all prices at most that far above the opening, and are
/// the least that do.
pub fn moment_law()
    ensures { (supply js opening sets : List ℕ) (u : ℕ → List ℕ → ℤ) →
        IsPath supply u js opening sets → IsLeastNear opening (length sets) (lyapunov supply u js) (prices_along opening sets) }
{}

/// Where a path has ended, its prices minimise the Lyapunov function over all prices from the opening on, and are the least
/// that do.
pub fn end_law()
    ensures { (supply js opening sets : List ℕ) (u : ℕ → List ℕ → ℤ) →
        IsPath supply u js opening sets → HasEnded supply u js opening sets →
        IsLeastMinimiser opening (lyapunov supply u js) (prices_along opening sets) }
{}

/// Where every bundle is worth less than the ceiling, no price that opened below the ceiling reaches it.
pub fn ceiling_law()
    ensures { (supply js opening sets : List ℕ) (u : ℕ → List ℕ → ℤ) (ceiling good : ℕ) →
        AllValuations supply u js → AllBelowCeiling supply u ceiling js → IsPath supply u js opening sets →
        at opening good < ceiling → at (prices_along opening sets) good < ceiling }
{}

/// Weak duality: no allocation is worth more than the Lyapunov function at any prices from the opening on.
pub fn duality_law()
    ensures { (supply opening js p : List ℕ) (u : ℕ → List ℕ → ℤ) (x : ℕ → List ℕ) →
        AtMost opening p → IsAllocation supply js x → worth supply opening u js x ≤ℤ lyapunov supply u js p }
{}

/// A choice of demanded bundles that clears is a Walrasian equilibrium, and the other way round.
pub fn clearing_law()
    ensures equilibrium { (supply opening js p : List ℕ) (u : ℕ → List ℕ → ℤ) (x : ℕ → List ℕ) → AtMost opening p →
        IsClearingChoice supply opening p (map (λ j. demand supply (u j) p) js) (map x js) → IsWalrasian supply opening u js p x }
    ensures clears { (supply opening js p : List ℕ) (u : ℕ → List ℕ → ℤ) (x : ℕ → List ℕ) → length opening ≡ length supply →
        IsWalrasian supply opening u js p x → IsClearingChoice supply opening p (map (λ j. demand supply (u j) p) js) (map x js) }
{}

/// A choice of different bidders, as a list, is the bundle that it gives to each of them.
pub fn choice_law()
    ensures { (js : List ℕ) (choice : List (List ℕ)) →
        AllDifferent js → length choice ≡ length js → map (bundle_of js choice) js ≡ choice }
{}

/// In a Walrasian equilibrium the allocation has the greatest worth of all, which is the Lyapunov function at the prices, and
/// the prices minimise that function. The greatest worth is one number.
pub fn welfare_law()
    ensures welfare { (supply opening js p : List ℕ) (u : ℕ → List ℕ → ℤ) (x : ℕ → List ℕ) →
        IsWalrasian supply opening u js p x → IsWelfare supply opening u js (worth supply opening u js x) }
    ensures value { (supply opening js p : List ℕ) (u : ℕ → List ℕ → ℤ) (x : ℕ → List ℕ) →
        IsWalrasian supply opening u js p x → worth supply opening u js x ≡ lyapunov supply u js p }
    ensures minimiser { (supply opening js p : List ℕ) (u : ℕ → List ℕ → ℤ) (x : ℕ → List ℕ) →
        IsWalrasian supply opening u js p x → IsMinimiser opening (lyapunov supply u js) p }
    ensures one { (supply opening js : List ℕ) (u : ℕ → List ℕ → ℤ) (w v : ℤ) →
        IsWelfare supply opening u js w → IsWelfare supply opening u js v → w ≡ v }
{}

/// At any prices from the opening on that minimise the Lyapunov function, the least such prices or not, some choice of demanded
/// bundles clears.
pub fn minimiser_law()
    ensures { (supply opening js p : List ℕ) (u : ℕ → List ℕ → ℤ) →
        AllStrongSubstitutes supply u js → length opening ≡ length supply → IsMinimiser opening (lyapunov supply u js) p →
        ((choice : List (List ℕ)) × IsClearingChoice supply opening p (map (λ j. demand supply (u j) p) js) choice) }
{}

/// Where a path has ended, some choice of demanded bundles clears: its prices minimise the Lyapunov function.
pub fn existence_law()
    ensures { (supply js opening sets : List ℕ) (u : ℕ → List ℕ → ℤ) →
        IsPath supply u js opening sets → HasEnded supply u js opening sets →
        ((choice : List (List ℕ)) × IsTrueChoice supply opening u js sets choice) }
{}

/// Where a path has ended, its prices are at most all Walrasian prices, good by good; and they are Walrasian prices.
pub fn least_walrasian_law()
    ensures below { (supply js opening sets q : List ℕ) (u : ℕ → List ℕ → ℤ) →
        IsPath supply u js opening sets → HasEnded supply u js opening sets →
        IsWalrasianPrices supply opening u js q → AtMost (prices_along opening sets) q }
    ensures least { (supply js opening sets : List ℕ) (u : ℕ → List ℕ → ℤ) → AllDifferent js →
        IsPath supply u js opening sets → HasEnded supply u js opening sets →
        IsLeastWalrasian supply opening u js (prices_along opening sets) }
{}

/// A bidder pays what Vickrey, Clarke and Groves ask: the price of its award at the end of the path of all, more by what the
/// others' account keeps on the path without it, and less by what that account keeps on the path of all. What they ask is one
/// number.
pub fn payment_law()
    ensures pays { (supply opening js sets rests : List ℕ) (u : ℕ → List ℕ → ℤ) (i : ℕ) (x y : ℕ → List ℕ) →
        AllStrongSubstitutes supply u js → IsOneOf i js → length opening ≡ length supply →
        IsWalrasian supply opening u js (prices_along opening sets) x →
        IsWalrasian supply opening u (without i js) (prices_along opening rests) y →
        IsVcgPayment supply opening u js x i (payment_along supply u js opening sets rests i (x i)) }
    ensures one { (supply opening js : List ℕ) (u : ℕ → List ℕ → ℤ) (i : ℕ) (x : ℕ → List ℕ) (pay other : ℤ) →
        IsVcgPayment supply opening u js x i pay → IsVcgPayment supply opening u js x i other → pay ≡ other }
{}

/// The auction: where the bidders are all different, and the choices at the ends of the path of all and of the path without a
/// bidder clear, the first is a Walrasian equilibrium, and the bidder pays what Vickrey, Clarke and Groves ask at it.
pub fn award_law()
    ensures equilibrium { (supply opening js sets : List ℕ) (u : ℕ → List ℕ → ℤ) (choice : List (List ℕ)) →
        AllDifferent js → IsPath supply u js opening sets → IsTrueChoice supply opening u js sets choice →
        IsWalrasian supply opening u js (prices_along opening sets) (bundle_of js choice) }
    ensures payment { (supply opening js sets rests : List ℕ) (u : ℕ → List ℕ → ℤ) (i : ℕ) (choice others : List (List ℕ)) →
        AllDifferent js → IsOneOf i js → IsPath supply u js opening sets → IsTrueChoice supply opening u js sets choice →
        IsPath supply u (without i js) opening rests → IsTrueChoice supply opening u (without i js) rests others →
        IsVcgPayment supply opening u js (bundle_of js choice) i (payment_along supply u js opening sets rests i (bundle_of js choice i)) }
{}

/// Without a bidder the prices are at most those of the path of all bidders in the same round, and at most those at its end;
/// and the path without the bidder takes no more steps.
pub fn without_law()
    ensures round { (supply opening js sets rests : List ℕ) (u : ℕ → List ℕ → ℤ) (i : ℕ) → IsOneOf i js →
        IsPath supply u js opening sets → IsPath supply u (without i js) opening rests → length rests ≤ length sets →
        AtMost (prices_along opening rests) (prices_along opening sets) }
    ensures end { (supply opening js sets rests : List ℕ) (u : ℕ → List ℕ → ℤ) (i : ℕ) → IsOneOf i js →
        IsPath supply u js opening sets → HasEnded supply u js opening sets → IsPath supply u (without i js) opening rests →
        AtMost (prices_along opening rests) (prices_along opening sets) }
    ensures steps { (supply opening js sets rests : List ℕ) (u : ℕ → List ℕ → ℤ) (i : ℕ) → IsOneOf i js →
        IsPath supply u js opening sets → HasEnded supply u js opening sets → IsPath supply u (without i js) opening rests →
        length rests ≤ length sets }
{}

/// An opening of 0 is one per good and at most any prices, and the worth of an allocation is the summed value of the bidders.
/// Without bidders that is 0.
pub fn zero_opening_law()
    ensures goods { (supply : List ℕ) → length (zeros supply) ≡ length supply }
    ensures below { (supply p : List ℕ) → length p ≡ length supply → AtMost (zeros supply) p }
    ensures worth { (supply js : List ℕ) (u : ℕ → List ℕ → ℤ) (x : ℕ → List ℕ) →
        worth supply (zeros supply) u js x ≡ total_value u js x }
    ensures nobody { (supply : List ℕ) (u : ℕ → List ℕ → ℤ) → IsWelfare supply (zeros supply) u [] (pos 0) }
{}
