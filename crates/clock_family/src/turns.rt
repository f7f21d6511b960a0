//! Turns at a desk with a clock book.
ghost use Rattle.std.specs.Prelude.{◌≡◌, ◌<◌, ℕ, length, None, IfSome};
ghost use Rattle.lot_base.specs.Demands.{IsDemand};
ghost use Rattle.lot_base.specs.Goods.{IsRange};
ghost use Rattle.session.specs.Asking.{IsOffered};
ghost use Rattle.lot_base.specs.declared.phases.Phase.TheVariants.{Halted};
ghost use Rattle.recovery.specs.Journaled.{owner_of};
ghost use Rattle.clock_family.specs.Turns.{PassOffers, PassLooks, IsOf};
ghost use Rattle.clock_family.specs.Glances.{IsShownTo, SeesOn};

use crate::hints::{NoteBehind, leave_payload};
use crate::house_books::{HouseBook, gauge_by};
use crate::passes::ClockPass;
use clock::{Look, Offered};
use demand_set::Demand;
use house_io::Disk;
use lot_base::Terms;
use std::alloc::Global;
use std::sync::Wait;
use turn_desk::Desk;

/// Waits for the turn, and offers a report. Before it waits it leaves the report's payload in a note, for who has the turn before, and in its
/// turn it hints at the note of who waits after it.
pub(crate) fn offer_on<T: Wait, D: Disk>(
    rt: &T,
    alloc: Global,
    desk: &Desk<HouseBook<D>>,
    pass: &mut ClockPass<D>,
    terms: &Terms,
    clock: u8,
    digest: &[u8; 32],
    bidder: u8,
    round: u32,
    demand: Demand,
) -> Offered
    requires desk { pass.old.desk ≡ desk.now.id }
    requires rests { pass.old.turn ≡ None }
    requires of_house { IsOf (owner_of terms.now clock digest.now) pass.old }
    requires report { IsRange 1 terms.now.bidders bidder × IsDemand terms.now.goods demand }
    ensures offers { PassOffers (record { bidder = bidder; round = round; demand = demand }) result pass.old pass.new }
    ensures of_house { IsOf (owner_of terms.now clock digest.now) pass.new }
    ensures refusal { IsOffered (bidder ≡ clock) result }
{
    let number = leave_payload(desk, terms, bidder, round, &demand);
    let mut book = desk.take(rt, &mut pass.pass);
    let answer = book.offer(alloc, bidder, round, demand, &NoteBehind { desk, number });
    let look = book.look();
    desk.give(&mut pass.pass, book);
    pass.shown = Some(look);
    answer
}

/// What the clock shows, where it stands as the last offer by this pass left it, without a turn. Of an offer one such look is made: who
/// looks again waits in line, so that bidders who wait for the others do not crowd out their reports.
fn glance_on<D: Disk>(desk: &Desk<HouseBook<D>>, pass: &mut ClockPass<D>) -> Option<Look>
    requires desk { pass.old.desk ≡ desk.now.id }
    requires rests { pass.old.turn ≡ None }
    ensures looks { IfSome result (λ look. PassLooks look pass.old pass.new) }
    ensures shown { IfSome result (IsShownTo pass.new) }
    ensures sees { result ≡ None → SeesOn pass.old pass.new }
{
    let look = pass.shown.take()?;
    if desk.glance(&mut pass.pass) != gauge_by(&look) {
        return None;
    }
    Some(look)
}

/// Looks at the clock: at once where one glance tells how it stands, else in a turn, for which it waits.
pub(crate) fn look_on<T: Wait, D: Disk>(
    rt: &T,
    desk: &Desk<HouseBook<D>>,
    pass: &mut ClockPass<D>,
    terms: &Terms,
    clock: u8,
    digest: &[u8; 32],
) -> Look
    requires desk { pass.old.desk ≡ desk.now.id }
    requires rests { pass.old.turn ≡ None }
    requires of_house { IsOf (owner_of terms.now clock digest.now) pass.old }
    ensures looks { PassLooks result pass.old pass.new }
    ensures of_house { IsOf (owner_of terms.now clock digest.now) pass.new }
    ensures goods { length result.prices ≡ length terms.now.goods }
    ensures halted { (good : ℕ) → result.phase ≡ Halted good → good < length terms.now.goods }
{
    if let Some(look) = glance_on(desk, pass) {
        return look;
    }
    pass.shown = None;
    let book = desk.take(rt, &mut pass.pass);
    let look = book.look();
    desk.give(&mut pass.pass, book);
    look
}
