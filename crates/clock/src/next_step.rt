//! Where a round leads.
ghost use Rattle.std.specs.Prelude.{◌≡◌, ◌≢◌, ◌<◌, ◌≤◌, ◌^◌, ℕ, None, length};
ghost use Rattle.lot_base.specs.declared.limits.TheConstants.{MOST_STEPS};
ghost use Rattle.lot_base.specs.Goods.{AllBelow};
ghost use Rattle.lot_base.specs.Steps.{IsStepSet};
ghost use Rattle.lyapunov.specs.Excesses.{entry};
ghost use Rattle.clock.specs.Standing.{good_from};

use credit_book::Account;
use lot_base::{Excess, GoodSet, LeastTable, Phase, Prices, Terms};

/// How a clock stands after so many steps.
#[derive(Clone, Copy, Debug)]
pub struct Standing {
    /// With the one on the set, if there is one.
    pub steps: u32,
    /// `Running` where a round is open: this one, or the next.
    pub phase: Phase,
    /// Those of the round after these steps.
    pub prices: Prices,
    /// The set on which the prices rose just now, if they did.
    pub raised: Option<GoodSet>,
}

impl Standing {
    ghost use Rattle.clock.specs.Turns.{Waits, IsTurn};

    /// Where the round after so many steps leads, where so many members have not reported in it. A step is added to the account.
    pub(crate) fn next(
        terms: &Terms,
        steps: u32,
        prices: &Prices,
        left: u8,
        excess: &Excess,
        tables: &[Option<LeastTable>; 13],
        account: &mut Account,
    ) -> Standing
        requires below { (set : ℕ) → AllBelow 4294967295 prices.now set }
        requires few { (set : ℕ) → left ≡ 0 → IsStepSet (length terms.now.goods) (entry excess.now.0) set → set ≢ 0
            → good_from 0 terms.now.ceiling prices.now set ≡ None → account.old.steps < MOST_STEPS }
        requires steps { steps ≤ MOST_STEPS }
        ensures waits { left ≢ 0 → Waits steps prices.now account.old account.new result }
        ensures turns { left ≡ 0 → IsTurn terms.now.goods terms.now.ceiling steps prices.now excess.now.0 tables.now account.old account.new
            result }
    {
        if left > 0 {
            return Standing {
                steps,
                phase: Phase::Running,
                prices: *prices,
                raised: None,
            };
        }
        Standing::turned(terms, steps, prices, excess, tables, account)
    }

    /// Where a full round leads.
    #[inline(never)]
    fn turned(
        terms: &Terms,
        steps: u32,
        prices: &Prices,
        excess: &Excess,
        tables: &[Option<LeastTable>; 13],
        account: &mut Account,
    ) -> Standing
        requires below { (set : ℕ) → AllBelow 4294967295 prices.now set }
        requires few { (set : ℕ) → IsStepSet (length terms.now.goods) (entry excess.now.0) set → set ≢ 0
            → good_from 0 terms.now.ceiling prices.now set ≡ None → account.old.steps < MOST_STEPS }
        requires steps { steps ≤ MOST_STEPS }
        ensures { IsTurn terms.now.goods terms.now.ceiling steps prices.now excess.now.0 tables.now account.old account.new result }
    {
        let set = step_choice::choose(&terms.goods, excess);
        if set.0 == 0 {
            return Standing {
                steps,
                phase: Phase::Ended,
                prices: *prices,
                raised: None,
            };
        }
        match first_at(prices, terms.ceiling, set) {
            Some(good) => Standing {
                steps,
                phase: Phase::Halted(good),
                prices: *prices,
                raised: None,
            },
            None => {
                account.add(&terms.goods, set, tables);
                Standing {
                    steps: steps + 1,
                    phase: Phase::Running,
                    prices: prices.raise(set),
                    raised: Some(set),
                }
            }
        }
    }
}

#[tactic(auto, using(crate::proofs::Next::good_from_drop))]
/// The first good of a set that is at the ceiling.
pub(crate) fn first_at(prices: &Prices, ceiling: u32, set: GoodSet) -> Option<u8>
    ensures { result ≡ good_from 0 ceiling prices.now set.0 }
{
    let mut rest = set.0;
    for good in 0..prices.count() {
        if rest % 2 == 1 && prices.get(good) == ceiling {
            return Some(good);
        }
        rest /= 2;
    }
    None
}
