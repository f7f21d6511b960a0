//! Rounds that repeat the round before.
ghost use Rattle.std.specs.Prelude.{◌≡◌, ◌+◌, ◌-◌, ◌*◌, ◌<◌, ◌≤◌, true, false, length, IfOk, OnErr};
ghost use Rattle.clock.specs.Standing.{steps_of, step_set_after, leads_on};
ghost use Rattle.clock.specs.Reports.{members_of};
ghost use Rattle.clock.specs.Repeats.{IsIdle, with_round, repeated};

use crate::clocks::Clock;
use crate::next_step::first_at;
use crate::packing::push_round;
use crate::rounds::member_count;
use lot_base::{GoodSet, NoMemory};
use std::alloc::Global;

impl Clock {
    /// Repeats the round before: in each round every member reports again what it reported then, the smallest member first, for so
    /// many rounds or until such a round would not lead on. Tells how many rounds there are more: none where there was no step, or
    /// someone has reported since. The room that there was stays.
    pub fn repeat(&mut self, _alloc: Global, rounds: u32) -> Result<u32, NoMemory>
        ensures ok { IfOk result (λ added. self.new ≡ record self.old { history = repeated added self.old.history }) }
        ensures few { IfOk result (λ added. added ≤ rounds) }
        ensures steps { IfOk result (λ added. steps_of self.new.history ≡ steps_of self.old.history + added) }
        ensures stops { IfOk result (λ added. IsIdle self.old.history → added < rounds
            → leads_on (with_round self.new.history) (steps_of self.new.history) ≡ false) }
        ensures busy { IfOk result (λ added. (IsIdle self.old.history → ⊥) → added ≡ 0) }
        ensures err { OnErr result (self.new ≡ self.old) }
    {
        if !self.is_idle() {
            return Ok(0);
        }
        self.repeat_idle(rounds)
    }

    /// Whether a step was made and nobody has reported since.
    fn is_idle(&self) -> bool
        ensures idle { result ≡ true → IsIdle self.now.history }
        ensures busy { IsIdle self.now.history → result ≡ true }
    {
        if self.steps == 0 {
            return false;
        }
        self.left == member_count(self.terms.bidders, self.number)
    }

    fn repeat_idle(&mut self, rounds: u32) -> Result<u32, NoMemory>
        requires { IsIdle self.old.history }
        ensures ok { IfOk result (λ added. self.new ≡ record self.old { history = repeated added self.old.history }) }
        ensures few { IfOk result (λ added. added ≤ rounds) }
        ensures steps { IfOk result (λ added. steps_of self.new.history ≡ steps_of self.old.history + added) }
        ensures stops { IfOk result (λ added. IsIdle self.old.history → added < rounds
            → leads_on (with_round self.new.history) (steps_of self.new.history) ≡ false) }
        ensures busy { IfOk result (λ added. (IsIdle self.old.history → ⊥) → added ≡ 0) }
        ensures err { OnErr result (self.new ≡ self.old) }
    {
        let (reports, quantities) = self.past.spare();
        let most = rounds.min(self.steps_left());
        let members = member_count(self.terms.bidders, self.number);
        let Some(room) = reports.checked_add(most * members as u32) else {
            return Err(NoMemory);
        };
        self.past.reserve(room, quantities)?;
        let added = self.repeat_rounds(most);
        let _left = self.steps_left();
        self.past.keep_spare(reports, quantities);
        Ok(added)
    }

    /// How many more steps there may be.
    fn steps_left(&self) -> u32
        ensures left { result + steps_of self.now.history ≡ length self.now.history.terms.goods * self.now.history.terms.ceiling }
        ensures last { IsIdle self.now.history → result ≡ 0 → leads_on (with_round self.now.history) (steps_of self.now.history) ≡ false }
    {
        self.terms.goods.count() as u32 * self.terms.ceiling - self.steps
    }

    /// Repeats so many rounds, for whose reports there is room, or as many of them as lead on.
    fn repeat_rounds(&mut self, most: u32) -> u32
        requires idle { IsIdle self.old.history }
        requires room { most * length (members_of self.old.history) ≤ self.old.spare_reports }
        ensures all { self.new ≡ record self.old {
          history = repeated result self.old.history;
          spare_reports = self.old.spare_reports - result * length
              (members_of self.old.history);
        } }
        ensures few { result ≤ most }
        ensures steps { steps_of self.new.history ≡ steps_of self.old.history + result }
        ensures stops { result < most → leads_on (with_round self.new.history) (steps_of self.new.history) ≡ false }
        ensures idle { IsIdle self.new.history }
    {
        let set = self.last_set();
        for added in 0..most {
            if !self.leads_on_by(set) {
                return added;
            }
            self.repeat_round(set);
        }
        most
    }

    /// The step set of the last step.
    fn last_set(&self) -> GoodSet
        requires { IsIdle self.now.history }
        ensures { result.0 ≡ step_set_after self.now.history (steps_of self.now.history - 1) }
    {
        self.past.sets()[self.steps as usize - 1]
    }

    /// Whether the round before, repeated, leads on; it has the same step set.
    fn leads_on_by(&self, set: GoodSet) -> bool
        requires idle { IsIdle self.now.history }
        requires same { set.0 ≡ step_set_after self.now.history (steps_of self.now.history - 1) }
        ensures { result ≡ leads_on (with_round self.now.history) (steps_of self.now.history) }
    {
        first_at(&self.prices, self.terms.ceiling, set).is_none()
    }

    /// Repeats a round that leads on, by the same step set.
    fn repeat_round(&mut self, set: GoodSet)
        requires idle { IsIdle self.old.history }
        requires same { set.0 ≡ step_set_after self.old.history (steps_of self.old.history - 1) }
        requires leads { leads_on (with_round self.old.history) (steps_of self.old.history) ≡ true }
        requires room { length (members_of self.old.history) ≤ self.old.spare_reports }
        ensures all { self.new ≡ record self.old
            { history = with_round self.old.history; spare_reports = self.old.spare_reports - length (members_of self.old.history) } }
        ensures idle { IsIdle self.new.history }
        ensures steps { steps_of self.new.history ≡ steps_of self.old.history + 1 }
        ensures same { set.0 ≡ step_set_after self.new.history (steps_of self.new.history - 1) }
    {
        let goods = self.terms.goods;
        let members = member_count(self.terms.bidders, self.number) as usize;
        let from = self.past.count() - members;
        push_round(
            &mut self.past,
            self.terms.bidders,
            self.number,
            from,
            members,
            self.steps + 1,
        );
        self.account.add(&goods, set, &self.tables);
        self.past.raise(set);
        self.prices = self.prices.raise(set);
        self.steps += 1;
    }
}
