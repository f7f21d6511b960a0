//! The parts of an outcome from the numbers of its plain text.
ghost use Rattle.std.specs.Prelude.{◌≡◌, ◌<◌, ◌≤◌, ◌^◌, ◌++◌, ◌∷◌, [], ℕ, ℤ, pos, List, length, Option, Some, is_some, IfSome, IfOk};
ghost use Rattle.clock.specs.Reports.{members};
ghost use Rattle.settlement.specs.declared.outcome.AwardRow.{AwardRow as AwardValue};
ghost use Rattle.settlement.specs.declared.outcome.ClockRow.{ClockRow as ClockValue};
ghost use Rattle.settlement.specs.declared.outcome.Outcome.{Outcome as OutcomeValue};
ghost use Rattle.outcome_text.specs.declared.building.Head.{Head as HeadValue};
ghost use Rattle.lot_base.specs.Goods.{IsRange};
ghost use Rattle.outcome_text.specs.Reading.{IsAmount};
ghost use Rattle.outcome_text.specs.Listed.{naturals, opening_numbers, award_numbers, awards_numbers, choice_numbers, choices_numbers, clock_numbers, clocks_numbers, outcome_numbers};
ghost use Rattle.outcome_text.specs.Parts.{IsBundleOf, ArePricesOf, IsOpeningOf, IsHead, IsAwardOf, AreAwardsOf, AreChoicesOf, IsClockOf, AreClocksOf, IsReadable};

use award_assembly::Choice;
use lot_base::{Bundle, NoMemory, Prices, Sequence};
use settlement::{AwardRow, ClockRow, Outcome};
use std::alloc::Global;

/// What a text begins with.
#[derive(Clone, Copy)]
pub(crate) struct Head {
    /// How many there are, 1 to 6.
    pub(crate) goods: u8,
    /// How many there are, 1 to 12.
    pub(crate) bidders: u8,
    /// The opening prices, where they are shown.
    pub(crate) opening: Option<Prices>,
}

/// Numbers that are taken from the front.
#[derive(Clone, Copy)]
struct Numbers<'a> {
    rest: &'a [i64],
}

impl Numbers<'_> {
    /// The next number.
    fn next(&mut self) -> Option<i64>
        ensures amount { IfSome result IsAmount }
        ensures back { (z : ℤ) (behind : List ℤ) → self.old.rest.now ≡ z ∷ behind → (result ≡ Some z) × (self.new.rest.now ≡ behind) }
    {
        let (first, rest) = self.rest.split_first()?;
        self.rest = rest;
        Some(*first)
    }

    /// The next number, if it is a quantity.
    fn next_quantity(&mut self) -> Option<u16>
        ensures { (n : ℕ) (behind : List ℤ) → n < 2 ^ 16 → self.old.rest.now ≡ pos n ∷ behind → (result ≡ Some n)
            × (self.new.rest.now ≡ behind) }
    {
        u16::try_from(self.next()?).ok()
    }

    /// The next number, if it is a price or a number of steps.
    fn next_price(&mut self) -> Option<u32>
        ensures { (n : ℕ) (behind : List ℤ) → n < 2 ^ 32 → self.old.rest.now ≡ pos n ∷ behind → (result ≡ Some n)
            × (self.new.rest.now ≡ behind) }
    {
        u32::try_from(self.next()?).ok()
    }

    /// The next number, if it is one from 1 to the given one.
    fn next_up_to(&mut self, most: u8) -> Option<u8>
        ensures within { IfSome result (IsRange 1 most) }
        ensures back { (n : ℕ) (behind : List ℤ) → IsRange 1 most n → self.old.rest.now ≡ pos n ∷ behind → (result ≡ Some n)
            × (self.new.rest.now ≡ behind) }
    {
        match u8::try_from(self.next()?) {
            Ok(number) if 1 <= number && number <= most => Some(number),
            _ => None,
        }
    }

    /// The numbers of goods and of bidders, before the prices, and the opening prices after these, where they are shown.
    fn head(&mut self, shows_opening: bool) -> Option<Head>
        ensures fit { IfSome result IsHead }
        ensures shown { IfSome result (λ (h : HeadValue). is_some h.opening ≡ shows_opening) }
        ensures back { (h : HeadValue) (prices : List ℕ) (behind : List ℤ) → IsHead h → is_some h.opening ≡ shows_opening
            → ArePricesOf h.goods prices →
            self.old.rest.now ≡ pos h.goods ∷ pos h.bidders ∷ naturals prices ++ (opening_numbers h.opening ++ behind)
            → (result ≡ Some h) × (self.new.rest.now ≡ behind) }
    {
        let goods = self.next_up_to(6)?;
        let bidders = self.next_up_to(12)?;
        self.prices(goods)?;
        let opening = self.opening(goods, shows_opening)?;
        Some(Head {
            goods,
            bidders,
            opening,
        })
    }

    /// The next prices as those of the opening, where it is shown.
    fn opening(&mut self, goods: u8, is_shown: bool) -> Option<Option<Prices>>
        requires { IsRange 1 6 goods }
        ensures fit { IfSome result (IsOpeningOf goods) }
        ensures shown { IfSome result (λ opening. is_some opening ≡ is_shown) }
        ensures back { (opening : Option (List ℕ)) (behind : List ℤ) → is_some opening ≡ is_shown → IsOpeningOf goods opening →
            self.old.rest.now ≡ opening_numbers opening ++ behind → (result ≡ Some opening) × (self.new.rest.now ≡ behind) }
    {
        if is_shown {
            let opening = self.prices(goods)?;
            Some(Some(opening))
        } else {
            Some(None)
        }
    }

    /// The next bundle.
    fn bundle(&mut self, goods: u8) -> Option<Bundle>
        requires { IsRange 1 6 goods }
        ensures fit { IfSome result (IsBundleOf goods) }
        ensures back { (bundle : List ℕ) (behind : List ℤ) → IsBundleOf goods bundle → self.old.rest.now ≡ naturals bundle ++ behind
            → (result ≡ Some bundle) × (self.new.rest.now ≡ behind) }
    {
        let mut quantities = [0; 6];
        for good in 0..goods as usize {
            quantities[good] = self.next_quantity()?;
        }
        Bundle::read(&quantities[..goods as usize])
    }

    /// The next prices.
    fn prices(&mut self, goods: u8) -> Option<Prices>
        requires { IsRange 1 6 goods }
        ensures fit { IfSome result (ArePricesOf goods) }
        ensures back { (prices : List ℕ) (behind : List ℤ) → ArePricesOf goods prices → self.old.rest.now ≡ naturals prices ++ behind
            → (result ≡ Some prices) × (self.new.rest.now ≡ behind) }
    {
        let mut prices = [0; 6];
        for good in 0..goods as usize {
            prices[good] = self.next_price()?;
        }
        Prices::read(&prices[..goods as usize])
    }

    /// What the next bidder is awarded and pays.
    fn award_row(&mut self, goods: u8) -> Option<AwardRow>
        requires { IsRange 1 6 goods }
        ensures fit { IfSome result (IsAwardOf goods) }
        ensures back { (bidder : ℕ) (row : AwardValue) (behind : List ℤ) → IsAwardOf goods row
            → self.old.rest.now ≡ award_numbers bidder row ++ behind → (result ≡ Some row) × (self.new.rest.now ≡ behind) }
    {
        self.next()?;
        Some(AwardRow {
            award: self.bundle(goods)?,
            debit: self.next()?,
            credit: self.next()?,
            pays: self.next()?,
        })
    }

    /// What the next bidders are awarded and pay.
    fn award_rows(
        &mut self,
        alloc: Global,
        goods: u8,
        bidders: u8,
    ) -> Result<Option<Sequence<AwardRow>>, NoMemory>
        requires { IsRange 1 6 goods }
        ensures fit { IfOk result (λ r. IfSome r (AreAwardsOf goods bidders)) }
        ensures back { (rows : List AwardValue) (behind : List ℤ) → AreAwardsOf goods bidders rows
            → self.old.rest.now ≡ awards_numbers 1 rows ++ behind → IfOk result (λ r. (r ≡ Some rows) × (self.new.rest.now ≡ behind)) }
    {
        let mut rows = Vec::new(alloc);
        for _place in 0..bidders {
            match self.award_row(goods) {
                Some(row) => rows.push(row)?,
                None => return Ok(None),
            }
        }
        Ok(Some(Sequence::from_vec(rows)))
    }

    /// What the next members of a clock choose, of whom there are so many.
    fn choices(&mut self, alloc: Global, goods: u8, count: u8) -> Result<Option<Choice>, NoMemory>
        requires { IsRange 1 6 goods }
        ensures fit { IfOk result (λ r. IfSome r (AreChoicesOf goods count)) }
        ensures back { (clock : ℕ) (js : List ℕ) (choices : List (List ℕ)) (behind : List ℤ) → length js ≡ count
            → AreChoicesOf goods count choices →
            self.old.rest.now ≡ choices_numbers clock js choices ++ behind
            → IfOk result (λ r. (r ≡ Some choices) × (self.new.rest.now ≡ behind)) }
    {
        let mut bundles = Vec::new(alloc);
        for _place in 0..count {
            match self.choice(goods) {
                Some(bundle) => bundles.push(bundle)?,
                None => return Ok(None),
            }
        }
        Ok(Some(Choice::from_vec(bundles)))
    }

    /// What the next member of a clock chooses, after the numbers of the clock and of the member.
    fn choice(&mut self, goods: u8) -> Option<Bundle>
        requires { IsRange 1 6 goods }
        ensures fit { IfSome result (IsBundleOf goods) }
        ensures back { (clock bidder : ℕ) (bundle : List ℕ) (behind : List ℤ) → IsBundleOf goods bundle
            → self.old.rest.now ≡ choice_numbers clock bidder bundle ++ behind → (result ≡ Some bundle) × (self.new.rest.now ≡ behind) }
    {
        self.next()?;
        self.next()?;
        self.bundle(goods)
    }

    /// The steps and the prices of the next clock, after its number.
    fn clock_head(&mut self, goods: u8) -> Option<(u32, Prices)>
        requires { IsRange 1 6 goods }
        ensures fit { IfSome result (λ head. ArePricesOf goods head.1) }
        ensures back { (clock steps : ℕ) (prices : List ℕ) (behind : List ℤ) → steps < 2 ^ 32 → ArePricesOf goods prices →
            self.old.rest.now ≡ pos clock ∷ pos steps ∷ naturals prices ++ behind
            → (result ≡ Some (steps, prices)) × (self.new.rest.now ≡ behind) }
    {
        self.next()?;
        let steps = self.next_price()?;
        let prices = self.prices(goods)?;
        Some((steps, prices))
    }

    /// The row of the next clock, which has this number.
    fn clock_row(
        &mut self,
        alloc: Global,
        goods: u8,
        bidders: u8,
        clock: u8,
    ) -> Result<Option<ClockRow>, NoMemory>
        requires goods { IsRange 1 6 goods }
        requires within { clock ≤ bidders }
        ensures fit { IfOk result (λ r. IfSome r (IsClockOf goods bidders clock)) }
        ensures back { (row : ClockValue) (behind : List ℤ) → IsClockOf goods bidders clock row
            → self.old.rest.now ≡ clock_numbers bidders clock row ++ behind
            → IfOk result (λ r. (r ≡ Some row) × (self.new.rest.now ≡ behind)) }
    {
        let (steps, prices) = match self.clock_head(goods) {
            Some(head) => head,
            None => return Ok(None),
        };
        match self.choices(alloc, goods, member_count(bidders, clock))? {
            Some(choices) => Ok(Some(ClockRow {
                steps,
                prices,
                choices,
            })),
            None => Ok(None),
        }
    }

    /// The rows of all clocks of so many bidders.
    fn clock_rows(
        &mut self,
        alloc: Global,
        goods: u8,
        bidders: u8,
    ) -> Result<Option<Sequence<ClockRow>>, NoMemory>
        requires goods { IsRange 1 6 goods }
        requires bidders { bidders ≤ 12 }
        ensures fit { IfOk result (λ r. IfSome r (AreClocksOf goods bidders)) }
        ensures back { (rows : List ClockValue) (behind : List ℤ) → AreClocksOf goods bidders rows
            → self.old.rest.now ≡ clocks_numbers bidders 0 rows ++ behind
            → IfOk result (λ r. (r ≡ Some rows) × (self.new.rest.now ≡ behind)) }
    {
        let mut rows = Vec::new(alloc);
        for clock in 0..bidders + 1 {
            match self.clock_row(alloc, goods, bidders, clock)? {
                Some(row) => rows.push(row)?,
                None => return Ok(None),
            }
        }
        Ok(Some(Sequence::from_vec(rows)))
    }
}

/// The outcome of which these are the numbers, if they are those of one that shows its opening prices, or of one that shows none.
pub(crate) fn outcome_of(
    alloc: Global,
    numbers: &[i64],
    shows_opening: bool,
) -> Result<Option<Outcome>, NoMemory>
    ensures fit { IfOk result (λ r. IfSome r IsReadable) }
    ensures back { (o : OutcomeValue) → IsReadable o → is_some o.opening ≡ shows_opening → numbers.now ≡ outcome_numbers o
        → IfOk result (λ r. r ≡ Some o) }
{
    let mut numbers = Numbers { rest: numbers };
    let head = match numbers.head(shows_opening) {
        Some(head) => head,
        None => return Ok(None),
    };
    let rows = match numbers.award_rows(alloc, head.goods, head.bidders)? {
        Some(rows) => rows,
        None => return Ok(None),
    };
    let clocks = match numbers.clock_rows(alloc, head.goods, head.bidders)? {
        Some(clocks) => clocks,
        None => return Ok(None),
    };
    let prices = clocks.as_slice()[0].prices;
    Ok(Some(Outcome {
        prices,
        opening: head.opening,
        rows,
        clocks,
    }))
}

/// How many members a clock has: all bidders but the one of its number.
fn member_count(bidders: u8, clock: u8) -> u8
    requires { clock ≤ bidders }
    ensures { result ≡ length (members bidders clock) }
{
    if clock == 0 { bidders } else { bidders - 1 }
}
