//! What is left of values at other prices than before.
ghost use Rattle.std.specs.Prelude.{◌≡◌, ◌<◌, ◌≤◌, ◌+◌, ◌-◌, ℕ, List, length, true, false};
ghost use Rattle.lot_base.specs.declared.limits.TheConstants.{GREATEST_CEILING};
ghost use Rattle.valuation.specs.Values.{AreValues};
ghost use Rattle.valuation.specs.Carried.{AreAlike, IsLeft, greatest};

/// One more than the value less the cost, or 0 where that is below 0.
#[inline(always)]
pub(crate) fn left_at(value: u16, cost: u16) -> u16
    requires { value < GREATEST_CEILING }
    ensures { result ≡ (value + 1) - cost }
{
    (value + 1).saturating_sub(cost)
}

/// The greatest number that is left of the values at these costs.
pub(crate) fn greatest_left(values: &[u16], costs: &[u16]) -> u16
    requires values { AreValues values.now }
    requires valued { length costs.now ≤ length values.now }
    ensures { (worth : List ℕ) → IsLeft values.now costs.now worth → result ≡ greatest worth }
{
    let mut best: u16 = 0;
    for place in 0..costs.len() {
        best = best.max(left_at(values[place], costs[place]));
    }
    best
}

/// Writes what is left of the values at these costs. Whether the places of the best number now are those of the best number before.
pub(crate) fn leave(worth: &mut [u16], values: &[u16], costs: &[u16], before: u16, now: u16) -> bool
    requires values { AreValues values.now }
    requires valued { length costs.now ≤ length values.now }
    requires long { length costs.now ≡ length worth.old }
    ensures left { IsLeft values.now costs.now worth.new }
    ensures same { result ≡ true → AreAlike before now worth.old worth.new (length worth.old) }
    ensures other { result ≡ false → AreAlike before now worth.old worth.new (length worth.old) → ⊥ }
{
    let mut same = true;
    for place in 0..worth.len() {
        let left = left_at(values[place], costs[place]);
        same = stays(same, left == now, worth[place] == before);
        worth[place] = left;
    }
    same
}

/// Whether all was the same before, and this is too.
#[inline(always)]
fn stays(same: bool, is_best: bool, was_best: bool) -> bool
    ensures same { result ≡ true → (same ≡ true) × (is_best ≡ was_best) }
    ensures other { result ≡ false → same ≡ true → is_best ≡ was_best → ⊥ }
{
    same & (is_best == was_best)
}
