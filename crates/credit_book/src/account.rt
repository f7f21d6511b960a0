//! Sums over the steps of a clock.
ghost use Rattle.std.specs.Prelude.{◌≡◌, ◌≢◌, ℕ, ℤ, pos, ◌+ℤ◌, ◌-ℤ◌, ◌≤ℤ◌, ◌+◌, ◌*◌, ◌^◌, ◌<◌, ◌≤◌, None, length, slice_index, slice_index_or};
ghost use Rattle.lot_base.specs.declared.limits.TheConstants.{MOST_STEPS};
ghost use Rattle.lot_base.specs.Economy.{total_units};
ghost use Rattle.credit_book.specs.Account.{least_in, others, units_left, sum_without};

use lot_base::{GoodSet, Goods, LeastTable};
use std::marker::Model;

/// The steps of a clock so far, as running sums. It holds at most 60,000 steps.
#[derive(Debug, Drop)]
pub struct Account {
    /// How many steps were added, at most 60,000.
    steps: u32,
    /// The supply of each step's set of goods, added up over the steps.
    units: u64,
    /// At its number, what each bidder demanded at least of each step's set, added up. Place 0 is nobody's.
    least: [u64; 13],
}

impl Model for Account {
    ghost use Rattle.std.specs.Prelude.{ℕ, List};
    ghost use Rattle.credit_book.specs.Account.{Sums};
    ghost use Rattle.credit_book.specs.Bounds.{IsBounded};

    ghost Value = { Sums };

    ghost view = { λ a. record { steps = a.steps; units = a.units; least = a.least } };

    ghost invariant = { λ a. IsBounded a.steps a.units a.least };
}

impl Account {
    /// An account of no steps.
    pub fn new() -> Account
        ensures steps { result.steps ≡ 0 }
        ensures sums { (bidder : ℕ) → sum_without result bidder ≡ pos 0 }
    {
        Account {
            steps: 0,
            units: 0,
            least: [0; 13],
        }
    }

    /// Adds a step on a set of goods. Bidder j's least quantities in the step's round are at place j, None for one who is no
    /// member; place 0 is nobody's.
    pub fn add(&mut self, goods: &Goods, set: GoodSet, tables: &[Option<LeastTable>; 13])
        requires room { self.old.steps < MOST_STEPS }
        requires set { set.0 < 2 ^ length goods.now }
        ensures steps { self.new.steps ≡ self.old.steps + 1 }
        ensures sums { (bidder : ℕ) → sum_without self.new bidder ≡ sum_without self.old bidder +ℤ units_left goods.now tables.now set.0
            bidder }
    {
        let _sets = goods.set_count();
        self.units += goods.units(set) as u64;
        add_least(&mut self.least, tables, set.0);
        self.steps += 1;
    }

    /// The number of steps.
    pub fn steps(&self) -> u32
        ensures { result ≡ self.now.steps }
    {
        self.steps
    }

    /// The sum, over the steps, of what the bidders but one leave of the set; 0 leaves nobody out.
    pub fn without(&self, bidder: u8) -> i64
        ensures value { result ≡ sum_without self.now bidder }
        ensures low { (pos 0 -ℤ pos (2 ^ 52)) ≤ℤ result }
        ensures high { result ≤ℤ pos (2 ^ 52) }
    {
        self.units as i64 - least_of_others(&self.least, bidder) as i64
    }
}

/// Adds the least of each bidder on a set to its sum.
fn add_least(sums: &mut [u64; 13], tables: &[Option<LeastTable>; 13], set: u8)
    requires set { set < 64 }
    requires small { (j : ℕ) → slice_index sums.old j < 2 ^ 48 }
    ensures sums { (j : ℕ) → slice_index sums.new j ≡ slice_index sums.old j + least_in (slice_index_or tables.now j None) set }
    ensures small { (j : ℕ) → slice_index sums.new j < slice_index sums.old j + 2 ^ 32 }
{
    for place in 0..13 {
        sums[place] += least_on(&tables[place], set) as u64;
    }
}

fn least_on(table: &Option<LeastTable>, set: u8) -> u16
    requires { set < 64 }
    ensures { result ≡ least_in table.now set }
{
    match table {
        Some(table) => table.0[set as usize],
        None => 0,
    }
}

/// The sums of the bidders but one, added up.
fn least_of_others(least: &[u64; 13], bidder: u8) -> u64
    requires { (j : ℕ) → slice_index least.now j < 2 ^ 48 }
    ensures sum { result ≡ total_units (λ j. slice_index least.now j) (others bidder) }
    ensures small { result ≤ 12 * 2 ^ 48 }
{
    let mut total = 0u64;
    for other in 1..13u8 {
        if other != bidder {
            total += least[other as usize];
        }
    }
    total
}
