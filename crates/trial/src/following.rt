//! What a bidder demands while prices move.
ghost use Rattle.std.specs.Prelude.{◌≡◌, ◌≢◌, ◌<◌, ◌≤◌, ◌+◌, ◌^◌, ℕ, ℤ, List, length, true, false, IfOk, MatchOption};
ghost use Rattle.lot_base.specs.declared.limits.TheConstants.{MOST_STEPS};
ghost use Rattle.lot_base.specs.Goods.{box_size};
ghost use Rattle.lot_base.specs.Economy.{demand};
ghost use Rattle.valuation.specs.Values.{valuation_of};
ghost use Rattle.valuation.specs.Carried.{AreLowCosts, IsColumn, raised_by};
ghost use Rattle.trial.specs.Following.{Follows};

use demand_set::Demand;
use lot_base::{GoodSet, Goods, NoMemory, Prices};
use std::alloc::Global;
use std::marker::Model;
use valuation::{Column, Costs, Surplus, Valuation};

/// What one bidder demands while prices rise on sets of goods, or move to others. Its surpluses are brought up to date only where its
/// demand may change.
#[derive(Debug, Drop)]
pub struct Follower {
    /// The surpluses at the prices at which they were last brought up to date.
    surplus: Surplus,
    /// The set of goods on which prices rose since then.
    set: GoodSet,
    /// By how many steps they rose.
    owed: u32,
    /// For how many steps on the set from there it demands the same; there may be more.
    steady: u32,
}

impl Model for Follower {
    ghost use Rattle.std.specs.Prelude.{◌<◌, ◌≤◌, ◌^◌, length};
    ghost use Rattle.trial.specs.Following.{Followed, StaysFor};

    ghost Value = { Followed };

    ghost view = { λ f. record { supply = f.surplus.supply; worth = f.surplus.worth; set = f.set.0; owed = f.owed } };

    ghost invariant = { λ f. (f.set.0 < 2 ^ length f.surplus.supply) × (f.owed ≤ f.steady) × (f.steady < 2 ^ 16)
        × StaysFor f.surplus.supply f.surplus.worth f.set.0 f.steady };
}

impl Follower {
    /// What the bidder demands of the goods at these prices. A price that is not there is 0.
    pub fn new(
        alloc: Global,
        goods: &Goods,
        valuation: &Valuation,
        prices: &Prices,
    ) -> Result<Follower, NoMemory>
        ensures goods { IfOk result (λ f. f.supply ≡ goods.now) }
        ensures follows { IfOk result (λ f. Follows f (valuation_of goods.now valuation.now) prices.now) }
    {
        let surplus = Surplus::new(alloc, goods, valuation, prices)?;
        Ok(Follower {
            surplus,
            set: GoodSet(0),
            owed: 0,
            steady: 0,
        })
    }

    /// The bundles that the bidder demands at the present prices.
    pub fn demand(&self, alloc: Global) -> Result<Demand, NoMemory>
        ensures { (u : List ℕ → ℤ) (p : List ℕ) → Follows self.now u p → IfOk result (λ d. d ≡ demand self.now.supply u p) }
    {
        self.surplus.demand(alloc)
    }

    /// The set on which prices rose since the surpluses were brought up to date, if they did.
    pub fn owes_on(&self) -> Option<GoodSet>
        ensures set { MatchOption result (self.now.owed ≡ 0) (λ set. set.0 ≡ self.now.set) }
        ensures within { self.now.set < 2 ^ length self.now.supply }
    {
        if self.owed == 0 { None } else { Some(self.set) }
    }

    /// Brings the surpluses up to date.
    pub fn catch_up(&mut self, column: &Column)
        requires { IsColumn self.old.supply self.old.set column.now.units.items }
        ensures goods { self.new.supply ≡ self.old.supply }
        ensures owed { self.new.owed ≡ 0 }
        ensures follows { (u : List ℕ → ℤ) (p : List ℕ) → length p ≡ length self.old.supply → Follows self.old u p → Follows self.new u p }
    {
        self.pay(column, 0);
    }

    /// For so many more steps on the set the bidder demands the same bundles; there may be more. It owes nothing for another set.
    pub fn left(&mut self, set: GoodSet, column: &Column) -> u32
        requires column { IsColumn self.old.supply set.0 column.now.units.items }
        requires within { set.0 < 2 ^ length self.old.supply }
        requires same { self.old.owed ≢ 0 → self.old.set ≡ set.0 }
        ensures goods { self.new.supply ≡ self.old.supply }
        ensures set { self.new.set ≡ set.0 }
        ensures follows { (u : List ℕ → ℤ) (p : List ℕ) → length p ≡ length self.old.supply → Follows self.old u p → Follows self.new u p }
        ensures steady { (u : List ℕ → ℤ) (p : List ℕ) → length p ≡ length self.old.supply → Follows self.new u p → (n : ℕ) → n ≤ result →
            demand self.new.supply u (raised_by n set.0 p) ≡ demand self.new.supply u p }
    {
        if self.owed == 0 {
            self.set = set;
            self.steady = self.surplus.steady(set, column);
        }
        self.steady - self.owed
    }

    /// The prices rose by one on each good of its set, so many times.
    pub fn step(&mut self, column: &Column, times: u32)
        requires column { IsColumn self.old.supply self.old.set column.now.units.items }
        requires few { times ≤ MOST_STEPS + 1 }
        ensures goods { self.new.supply ≡ self.old.supply }
        ensures follows { (u : List ℕ → ℤ) (p : List ℕ) → length p ≡ length self.old.supply → Follows self.old u p
            → Follows self.new u (raised_by times self.old.set p) }
    {
        let owed = self.owed + times;
        if owed <= self.steady {
            self.owed = owed;
        } else {
            self.pay(column, times);
        }
    }

    /// The prices are now those of the costs. Whether the bidder demands the same bundles as before.
    pub fn renew(&mut self, valuation: &Valuation, costs: &Costs) -> bool
        requires whole { length costs.now ≡ box_size self.old.supply }
        requires valued { box_size self.old.supply ≤ length valuation.now }
        ensures goods { self.new.supply ≡ self.old.supply }
        ensures owed { self.new.owed ≡ 0 }
        ensures follows { (p : List ℕ) → AreLowCosts self.old.supply p costs.now
            → Follows self.new (valuation_of self.old.supply valuation.now) p }
        ensures same { result ≡ true → (u v : List ℕ → ℤ) (p q : List ℕ) → Follows self.old u p → Follows self.new v q
            → demand self.new.supply v q ≡ demand self.old.supply u p }
        ensures other { result ≡ false → (u v : List ℕ → ℤ) (p q : List ℕ) → Follows self.old u p → Follows self.new v q
            → demand self.new.supply v q ≢ demand self.old.supply u p }
    {
        self.owed = 0;
        self.steady = 0;
        self.surplus.renew(valuation, costs)
    }

    /// Takes what is owed, and the units of so many steps more, from the surpluses.
    fn pay(&mut self, column: &Column, more: u32)
        requires column { IsColumn self.old.supply self.old.set column.now.units.items }
        requires few { more ≤ MOST_STEPS + 1 }
        ensures goods { self.new.supply ≡ self.old.supply }
        ensures owed { self.new.owed ≡ 0 }
        ensures follows { (u : List ℕ → ℤ) (p : List ℕ) → length p ≡ length self.old.supply → Follows self.old u p
            → Follows self.new u (raised_by more self.old.set p) }
    {
        self.surplus.step(self.set, column, self.owed + more);
        self.owed = 0;
        self.steady = 0;
    }
}
