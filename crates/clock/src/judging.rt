//! What becomes of a report.
ghost use Rattle.std.specs.Prelude.{◌≡◌, ◌≤◌, option_map};

use crate::clocks::Clock;
use crate::rounds::{demand_at, member_count};
use demand_set::Demand;
use lot_base::Phase;

/// What becomes of a report. Rounds are numbered from 1.
#[derive(Clone, Copy, Debug, PartialEq, Eq)]
pub enum Judgement {
    /// It is to be applied.
    Take,
    /// The bidder has reported this demand in this round.
    Again,
    /// The bidder is no member of the clock.
    NotMember,
    /// The round has not begun; this is the current one.
    Early(u32),
    /// The bidder has reported another demand in this round.
    Conflict(u32),
    /// The clock has ended or is halted; this was its last round.
    Over(u32),
    /// The report names round 0.
    NoRound,
}

/// What became of a report that was offered to a clock which has a journal.
#[derive(Clone, Copy, Debug, PartialEq, Eq)]
pub enum Offered {
    /// It counts, and its record is on the disk.
    Taken,
    /// It counted already.
    Again,
    /// It does not count; this is its judgement.
    Refused(Judgement),
    /// Its record would end at this offset, past the greatest.
    Full(u32),
    /// The disk failed: the report may count once the journal is mended.
    DiskFault,
    /// There was no memory: nothing was written.
    NoMemory,
}

impl Clock {
    ghost use Rattle.demand_set.specs.Same.{same_demand};
    ghost use Rattle.clock.specs.Reports.{demand_in};
    ghost use Rattle.clock.specs.Standing.{last_round};
    ghost use Rattle.clock.specs.Judging.{judgement_of, IsJudgement};

    /// What becomes of a report.
    pub fn judge(&self, bidder: u8, round: u32, demand: &Demand) -> Judgement
        ensures judgement { IsJudgement self.now.history (record { bidder = bidder; round = round; demand = demand.now }) result }
        ensures value { result ≡ judgement_of self.now.history (record { bidder = bidder; round = round; demand = demand.now }) }
    {
        self.judged(bidder, round, demand)
    }

    fn judged(&self, bidder: u8, round: u32, demand: &Demand) -> Judgement
        ensures { result ≡ judgement_of self.now.history (record { bidder = bidder; round = round; demand = demand.now }) }
    {
        if bidder < 1 || bidder > self.terms.bidders || bidder == self.number {
            return Judgement::NotMember;
        }
        if round == 0 {
            return Judgement::NoRound;
        }
        if round > self.steps + 1 {
            return match self.phase {
                Phase::Running => Judgement::Early(self.steps + 1),
                Phase::Ended | Phase::Halted(_) => Judgement::Over(self.steps + 1),
            };
        }
        match self.repeats(bidder, round, demand) {
            None => Judgement::Take,
            Some(true) => Judgement::Again,
            Some(false) => Judgement::Conflict(round),
        }
    }

    /// Whether a demand is that of a bidder in a round, if the bidder has reported in it. The reports of an earlier round, one of each
    /// member, stand together.
    pub(crate) fn repeats(&self, bidder: u8, round: u32, demand: &Demand) -> Option<bool>
        requires from_one { 1 ≤ round }
        requires to_last { round ≤ last_round self.now.history }
        ensures { result ≡ option_map (λ before. same_demand before demand.now) (demand_in self.now.history.reports round bidder) }
    {
        if round == self.steps + 1 {
            return match demand_at(&self.latest, &self.reported, bidder) {
                None => None,
                Some(before) => Some(before.same(demand)),
            };
        }
        let members = member_count(self.terms.bidders, self.number) as usize;
        self.past
            .repeats((round as usize - 1) * members, members, bidder, demand)
    }
}
