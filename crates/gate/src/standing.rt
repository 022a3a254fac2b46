ghost use Rattle.std.specs.Prelude.{◌≡◌, ◌+◌, ◌*◌, ◌<◌, ◌≤◌, length, IfSome};
ghost use Rattle.measures.specs.Limits.{last, most_labs};
ghost use Rattle.history.specs.Standing.{stands, leader, Leads, wake_of, smallest_wake, smallest_below, next_import, turn_of};

use crate::gate::Gate;
use budget::row::BudgetRow;
use history::turn::Turn;
use turns::rule::TurnRule;
use waiting::ticket::Ticket;

// Whose turn it is, while the lock is free and the rows have rested up to the clock.
impl<T: TurnRule> Gate<T> {
    // What begins next, if anything can: the leader and its first ticket.
    pub(crate) fn next_import<R: BudgetRow>(&self, rows: &[R]) -> Option<(u64, Ticket)>
        requires { length rows.now ≤ most_labs }
        ensures { result ≡ next_import R.meaning T.turns self.now rows.now }
    {
        let lab = self.leader(rows)?;
        let ticket = self.waiting.first(lab)?;
        Some((lab, ticket))
    }

    // The standing lab ahead of all others.
    #[tactic(auto, using(history::proofs::Leading::leads_none, history::proofs::Leading::leads_at_end))]
    fn leader<R: BudgetRow>(&self, rows: &[R]) -> Option<u64>
        requires { length rows.now ≤ most_labs }
        ensures { result ≡ leader R.meaning T.turns self.now rows.now }
    {
        let mut leader = None;
        for lab in 0..rows.len() as u64 {
            leader = self.leader_with(rows, leader, lab);
        }
        leader
    }

    // The same of the labs up to this one, where `leader` is that of the labs below it.
    #[tactic(auto, using(history::proofs::Leading::leads_past, history::proofs::Leading::leads_behind, history::proofs::Leading::leads_first, history::proofs::Leading::leads_passed))]
    fn leader_with<R: BudgetRow>(&self, rows: &[R], leader: Option<u64>, lab: u64) -> Option<u64>
        requires few { (lab < length rows.now) × (length rows.now ≤ most_labs) }
        requires below { Leads R.meaning T.turns self.now rows.now lab leader }
        ensures { Leads R.meaning T.turns self.now rows.now (lab + 1) result }
    {
        if !self.stands(rows, lab) {
            return leader;
        }
        match leader {
            Some(first) if !self.turns.ahead(lab, first) => leader,
            _ => Some(lab),
        }
    }

    // Whether a lab's row is able and a ticket of it waits. That a ticket waits is asked first, since it is sooner answered.
    #[tactic(auto, using(crate::proofs::Asked::none_stands), unfolding(history::specs::Standing::stands))]
    fn stands<R: BudgetRow>(&self, rows: &[R], lab: u64) -> bool
        requires { lab < length rows.now }
        ensures { result ≡ stands R.meaning self.now rows.now lab }
    {
        let Some(_) = self.waiting.first(lab) else {
            return false;
        };
        rows[lab as usize].able()
    }

    pub(crate) fn whose_turn<R: BudgetRow>(&self, rows: &[R], next: Option<(u64, Ticket)>) -> Turn
        ensures { result ≡ turn_of self.now.clock next (smallest_wake R.meaning self.now rows.now) }
    {
        match next {
            Some((lab, ticket)) => Turn::Began {
                lab,
                number: ticket.number,
                length: ticket.length,
            },
            None => match self.smallest_wake(rows) {
                Some(wake) => Turn::Wait(self.clock + wake),
                None => Turn::Nothing,
            },
        }
    }

    // The smallest wake among labs with tickets.
    #[tactic(auto, using(history::proofs::Leading::smallest_none, history::proofs::Leading::smallest_at_end))]
    fn smallest_wake<R: BudgetRow>(&self, rows: &[R]) -> Option<u64>
        ensures value { result ≡ smallest_wake R.meaning self.now rows.now }
        ensures within { IfSome result (λ wake. wake ≤ 1000 * last) }
    {
        let mut smallest = None;
        for lab in 0..rows.len() as u64 {
            smallest = self.smallest_with(rows, smallest, lab);
        }
        smallest
    }

    // The same of the labs up to this one, where `smallest` is that of the labs below it.
    #[tactic(auto, using(history::proofs::Leading::smallest_past, history::proofs::Leading::smallest_first, history::proofs::Leading::smallest_lesser))]
    fn smallest_with<R: BudgetRow>(
        &self,
        rows: &[R],
        smallest: Option<u64>,
        lab: u64,
    ) -> Option<u64>
        requires below { (lab < length rows.now) × (smallest ≡ smallest_below R.meaning self.now rows.now lab) }
        requires within { IfSome smallest (λ wake. wake ≤ 1000 * last) }
        ensures value { result ≡ smallest_below R.meaning self.now rows.now (lab + 1) }
        ensures within { IfSome result (λ wake. wake ≤ 1000 * last) }
    {
        let Some(wake) = self.wake_of(rows, lab) else {
            return smallest;
        };
        match smallest {
            Some(least) => Some(least.min(wake)),
            None => Some(wake),
        }
    }

    // How long a lab still has to wait for its row, where a ticket of it waits.
    #[tactic(auto, using(budget::proofs::Resting::wake_limit))]
    fn wake_of<R: BudgetRow>(&self, rows: &[R], lab: u64) -> Option<u64>
        requires { lab < length rows.now }
        ensures value { result ≡ wake_of R.meaning self.now rows.now lab }
        ensures within { IfSome result (λ wake. wake ≤ 1000 * last) }
    {
        if self.waiting.first(lab).is_none() {
            return None;
        }
        Some(rows[lab as usize].wake())
    }
}
