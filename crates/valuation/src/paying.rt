//! What is left of surpluses when prices rise.
ghost use Rattle.std.specs.Prelude.{◌≡◌, ◌≤◌, ◌-◌, ◌*◌, ℕ, length, slice_index};
ghost use Rattle.lot_base.specs.declared.limits.TheConstants.{MOST_UNITS};
ghost use Rattle.valuation.specs.Carried.{IsPaid, greatest};

/// The greatest of the numbers, 0 of none.
pub(crate) fn greatest_of(worth: &[u16]) -> u16
    ensures { result ≡ greatest worth.now }
{
    let mut best: u16 = 0;
    for place in 0..worth.len() {
        best = best.max(worth[place]);
    }
    best
}

/// Takes so many times the units of the column from each number, down to 0. The greatest that is left.
pub(crate) fn pay(worth: &mut [u16], units: &[u16], times: u32) -> u16
    requires long { length units.now ≡ length worth.old }
    requires small { (i : ℕ) → slice_index units.now i ≤ MOST_UNITS }
    ensures paid { IsPaid times units.now worth.old worth.new }
    ensures greatest { result ≡ greatest worth.new }
{
    if times == 1 {
        pay_once(worth, units)
    } else {
        pay_often(worth, units, times)
    }
}

/// Takes the units of the column from each number, down to 0. The greatest that is left.
fn pay_once(worth: &mut [u16], units: &[u16]) -> u16
    requires long { length units.now ≡ length worth.old }
    ensures paid { IsPaid 1 units.now worth.old worth.new }
    ensures greatest { result ≡ greatest worth.new }
{
    let mut best: u16 = 0;
    for place in 0..worth.len() {
        let left = worth[place].saturating_sub(units[place]);
        worth[place] = left;
        best = best.max(left);
    }
    best
}

/// Takes so many times the units of the column from each number, down to 0. The greatest that is left.
fn pay_often(worth: &mut [u16], units: &[u16], times: u32) -> u16
    requires long { length units.now ≡ length worth.old }
    requires small { (i : ℕ) → slice_index units.now i ≤ MOST_UNITS }
    ensures paid { IsPaid times units.now worth.old worth.new }
    ensures greatest { result ≡ greatest worth.new }
{
    let mut best: u16 = 0;
    for place in 0..worth.len() {
        let left = left_after(worth[place], units[place], times);
        worth[place] = left;
        best = best.max(left);
    }
    best
}

/// The number less so many times the units, down to 0. No number is so great that more times would take more.
#[inline(always)]
fn left_after(worth: u16, units: u16, times: u32) -> u16
    requires small { units ≤ MOST_UNITS }
    ensures { result ≡ worth - times * units }
{
    let paid = times.min(65_535) * u32::from(units);
    worth.saturating_sub(paid.min(65_535) as u16)
}
