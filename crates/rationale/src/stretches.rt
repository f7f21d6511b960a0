//! Stretches: observations of one demand, one line after another.
ghost use Rattle.std.specs.Prelude.{◌≡◌, ◌<◌, ◌≤◌, ◌-◌, ℕ, [], ◌∷◌, length, slice_get};
ghost use Rattle.std.specs.Prelude.{OnOk, OnErr, IfOk, IfErr, IfSome, IsTrue};
ghost use Rattle.std.specs.List.{AllByRecursion};
ghost use Rattle.lot_base.specs.Demands.{IsDemand};
ghost use Rattle.rationale.specs.declared.limits.TheConstants.{MOST_OBSERVATIONS};
ghost use Rattle.rationale.specs.Kept.{AreLow, IsStretch, observations_of};
ghost use Rattle.rationale.specs.Grown.{stretch_of, IsLonger, KeepsMore, KeepsAll};

use crate::lines::Line;
use demand_set::Demand;
use lot_base::{Goods, NoMemory, Prices};
use std::alloc::Global;

/// Memory ran out before an observation was kept.
#[derive(Debug, Drop)]
pub struct NotAdded {
    /// The demand, given back.
    pub demand: Demand,
}

/// Observations of one demand.
#[derive(Debug, Drop)]
pub struct Stretch {
    /// What was demanded in each of them.
    pub(crate) demand: Demand,
    /// Their prices, one line after another.
    pub(crate) lines: Vec<Line>,
}

impl Stretch {
    /// The stretch of one observation.
    fn new(
        alloc: Global,
        goods: &Goods,
        prices: &Prices,
        demand: Demand,
    ) -> Result<Stretch, NotAdded>
        requires goods { length prices.now ≡ length goods.now }
        requires low { AreLow prices.now }
        requires demand { IsDemand goods.now demand }
        ensures stretch { IfOk result (IsStretch goods.now) }
        ensures same { IfOk result (λ s. s.demand ≡ demand) }
        ensures seen { IfOk result (λ s. stretch_of s ≡ record { prices = prices.now; bundles = demand } ∷ []) }
        ensures err { IfErr result (λ e. e.demand ≡ demand) }
    {
        let mut lines = match Vec::with_capacity(alloc, 1) {
            Ok(lines) => lines,
            Err(_) => return Err(NotAdded { demand }),
        };
        match lines.push(Line::new(goods, prices)) {
            Ok(()) => Ok(Stretch { demand, lines }),
            Err(_) => Err(NotAdded { demand }),
        }
    }

    /// Keeps the prices of one observation more.
    fn extend(&mut self, goods: &Goods, prices: &Prices) -> Result<(), NoMemory>
        requires stretch { IsStretch goods.now self.old }
        requires few { length (stretch_of self.old) < MOST_OBSERVATIONS }
        requires goods { length prices.now ≡ length goods.now }
        requires low { AreLow prices.now }
        ensures ok { OnOk result (IsLonger goods.now self.old self.new prices.now) }
        ensures err { OnErr result ((self.new.demand ≡ self.old.demand) × (self.new.lines.items ≡ self.old.lines.items)) }
    {
        let last = self.lines.len() - 1;
        if self.lines[last].extend(prices) {
            return Ok(());
        }
        self.lines.push(Line::new(goods, prices))?;
        Ok(())
    }
}

/// Keeps one observation more.
pub(crate) fn keep(
    alloc: Global,
    goods: &Goods,
    stretches: &mut Vec<Stretch>,
    prices: &Prices,
    demand: Demand,
) -> Result<(), NotAdded>
    requires each { AllByRecursion (IsStretch goods.now) stretches.old.items }
    requires few { length (observations_of stretches.old.items) < MOST_OBSERVATIONS }
    requires goods { length prices.now ≡ length goods.now }
    requires low { AreLow prices.now }
    requires demand { IsDemand goods.now demand }
    ensures ok { OnOk result (KeepsMore goods.now stretches.old.items stretches.new.items prices.now demand) }
    ensures err { IfErr result (λ e. (e.demand ≡ demand) × KeepsAll goods.now stretches.old.items stretches.new.items) }
{
    if repeats(stretches, &demand) {
        let last = stretches.len() - 1;
        return match stretches[last].extend(goods, prices) {
            Ok(()) => Ok(()),
            Err(NoMemory) => Err(NotAdded { demand }),
        };
    }
    let stretch = Stretch::new(alloc, goods, prices, demand)?;
    match stretches.push(stretch) {
        Ok(()) => Ok(()),
        Err(failed) => Err(NotAdded {
            demand: failed.value.demand,
        }),
    }
}

/// Whether the last of some observations is of this demand.
fn repeats(stretches: &[Stretch], demand: &Demand) -> bool
    ensures some { IsTrue result → 1 ≤ length stretches.now }
    ensures same { IsTrue result → IfSome (slice_get stretches.now (length stretches.now - 1)) (λ s. s.demand ≡ demand.now) }
{
    match stretches.last() {
        Some(stretch) => stretch.demand.same(demand),
        None => false,
    }
}
