//! The terms of an auction.
ghost use Rattle.std.specs.Prelude.{◌≡◌};
ghost use Rattle.lot_base.specs.Goods.{IsRange, IsSupply, IsOpening, zeros};
ghost use Rattle.lot_base.specs.declared.limits.TheConstants.{MOST_BIDDERS, LEAST_CEILING, GREATEST_CEILING};

use crate::limits::{GREATEST_CEILING, LEAST_CEILING, MOST_BIDDERS};
use crate::pricing::Prices;
use crate::supply::Goods;

/// Why there are no such terms, with the number that was found.
#[derive(Clone, Copy, Debug, PartialEq, Eq)]
pub enum TermsFault {
    /// There are not 1 to 12 bidders.
    Bidders(u8),
    /// The ceiling is not 2 to 10,000.
    Ceiling(u32),
    /// The opening price of a good, the first such one, is not below the ceiling.
    Opening { good: u8, value: u32 },
}

/// What is sold, to how many bidders, from which prices on, and the price at which a clock halts.
#[derive(Clone, Copy, Debug)]
pub struct Terms {
    /// The supply of each, good 0 first: 1 to 6 goods, at least a unit of each, and at most 2,048 bundles within it.
    pub goods: Goods,
    /// How many there are, 1 to 12. They are numbered from 1.
    pub bidders: u8,
    /// No price rises above it: a clock that would raise a good from there is halted. 2 to 10,000.
    pub ceiling: u32,
    /// 1 where all goods open at 0, and 2 where the seller names an opening price for each.
    pub version: u8,
    /// The seller's reserve: the price at which each clock opens, and below which no unit is sold.
    pub opening: Prices,
    pub ghost supply: { IsSupply goods },
    pub ghost bidders_in_range: { IsRange 1 MOST_BIDDERS bidders },
    pub ghost ceiling_in_range: { IsRange LEAST_CEILING GREATEST_CEILING ceiling },
    pub ghost version_in_range: { IsRange 1 2 version },
    pub ghost opens: { IsOpening goods ceiling opening },
    pub ghost first_opens_at_zero: { version ≡ 1 → opening ≡ zeros goods },
}

impl Terms {
    ghost use Rattle.std.specs.Prelude.{◌≢◌, ℕ, Err, length};
    ghost use Rattle.lot_base.specs.Limits.{IsTermsOf};

    /// Terms of the first version, which open at a price of 0 for each good, if the numbers are in range.
    pub fn new(goods: Goods, bidders: u8, ceiling: u32) -> Result<Terms, TermsFault>
        ensures terms { IsTermsOf 1 goods bidders ceiling (zeros goods) result }
        ensures opening { (good value : ℕ) → result ≢ Err (TermsFault.Opening good value) }
    {
        let opening = Prices::zero(&goods);
        Terms::of_version(1, goods, bidders, ceiling, opening)
    }

    /// Terms of the second version, which open at these prices, one for each good, if the numbers are in range.
    pub fn with_opening(
        goods: Goods,
        bidders: u8,
        ceiling: u32,
        opening: Prices,
    ) -> Result<Terms, TermsFault>
        requires { length opening ≡ length goods }
        ensures { IsTermsOf 2 goods bidders ceiling opening result }
    {
        Terms::of_version(2, goods, bidders, ceiling, opening)
    }

    fn of_version(
        version: u8,
        goods: Goods,
        bidders: u8,
        ceiling: u32,
        opening: Prices,
    ) -> Result<Terms, TermsFault>
        requires version { IsRange 1 2 version }
        requires opening { length opening ≡ length goods }
        requires first { version ≡ 1 → opening ≡ zeros goods }
        ensures { IsTermsOf version goods bidders ceiling opening result }
    {
        if bidders < 1 || bidders > MOST_BIDDERS {
            return Err(TermsFault::Bidders(bidders));
        }
        if ceiling < LEAST_CEILING || ceiling > GREATEST_CEILING {
            return Err(TermsFault::Ceiling(ceiling));
        }
        if let Some(good) = opening.first_from(ceiling) {
            return Err(TermsFault::Opening {
                good,
                value: opening.get(good),
            });
        }
        let _goods = goods.count();
        Ok(Terms {
            goods,
            bidders,
            ceiling,
            version,
            opening,
        })
    }
}
