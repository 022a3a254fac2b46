ghost use Rattle.std.specs.Prelude.{◌≡◌, ◌≤◌, true, length, map, Some, OnOk};
ghost use Rattle.measures.specs.Limits.{last, is_lab_count, is_length};
ghost use Rattle.measures.specs.Refusals.{granted_unless};
ghost use Rattle.history.specs.Calls.{anew, at_tick, call_checks, file_checks, open_checks, opens, files, withdraws, with_filed, with_begun, begins, ends};
ghost use Rattle.history.specs.Gates.{rested_to};
ghost use Rattle.history.specs.Guaranteed.{Guarantee};
ghost use Rattle.waiting.specs.Queues.{may_wait};

use crate::gate::Gate;
use crate::rows::{rate_sum, rest_others, restart_all, tell};
use budget::row::BudgetRow;
use history::import::Import;
use history::turn::Turn;
use measures::limits::{is_all_given, is_full, is_lab_count, is_length, is_rate_sum, is_tick};
use measures::refusal::Refusal;
use turns::rule::TurnRule;
use waiting::queue_order::QueueOrder;
use waiting::ticket::Ticket;

// The calls of a gate. One that is granted at a tick first lets every row rest up to it, but that of the lab that holds the lock; then that
// tick is the clock. One that is denied changes nothing.
impl<T: TurnRule> Gate<T> {
    // Begins anew, with a lab for each row and this queue order: rows are restarted, the clock is at 0, the lock is free, and no ticket waits.
    // The turn rule keeps its order. The last clause is what is guaranteed of everything that can follow.
    #[tactic(auto, using(history::proofs::Keeping::guaranteed))]
    pub fn open<R: BudgetRow>(&mut self, rows: &mut [R], order: QueueOrder) -> Result<(), Refusal>
        ensures answer { result ≡ (opens R.meaning self.old rows.old order).answer }
        ensures gate { self.new ≡ (opens R.meaning self.old rows.old order).gate }
        ensures rows { rows.new ≡ (opens R.meaning self.old rows.old order).rows }
        ensures guarantee { OnOk result (Guarantee R.meaning T.turns (record { gate = self.new; rows = rows.new })) }
    {
        check_open(rows)?;
        self.reset(rows, order);
        Ok(())
    }

    // A lab files an import of this declared length, due by this tick; the last tick stands for no due date. The answer is the number of
    // its ticket.
    pub fn file<R: BudgetRow>(
        &mut self,
        rows: &mut [R],
        tick: u64,
        lab: u64,
        length: u64,
        due: u64,
    ) -> Result<u64, Refusal>
        ensures answer { result ≡ (files R.meaning self.old rows.old tick lab length due).answer }
        ensures gate { self.new ≡ (files R.meaning self.old rows.old tick lab length due).gate }
        ensures rows { rows.new ≡ (files R.meaning self.old rows.old tick lab length due).rows }
    {
        self.check_file(rows, tick, lab, length, due)?;
        self.rest_to(rows, tick);
        let number = self.given + 1;
        self.add(Ticket {
            key: self.order.key(length, due),
            number,
            lab,
            filed: tick,
            length,
            due,
        });
        Ok(number)
    }

    // Takes out a waiting ticket, and answers its lab.
    #[tactic(auto, using(outlook::proofs::Lawful::lawful_withdrawn))]
    pub fn withdraw<R: BudgetRow>(
        &mut self,
        rows: &mut [R],
        tick: u64,
        number: u64,
    ) -> Result<u64, Refusal>
        ensures answer { result ≡ (withdraws R.meaning self.old rows.old tick number).answer }
        ensures gate { self.new ≡ (withdraws R.meaning self.old rows.old tick number).gate }
        ensures rows { rows.new ≡ (withdraws R.meaning self.old rows.old tick number).rows }
    {
        self.check_call(rows, tick)?;
        let Some(ticket) = self.waiting.withdraw(number) else {
            return Err(Refusal::NoSuchTicket);
        };
        self.rest_to(rows, tick);
        Ok(ticket.lab)
    }

    // Begins the next import, if one can begin, and answers whose turn it is.
    pub fn begin<R: BudgetRow>(&mut self, rows: &mut [R], tick: u64) -> Result<Turn, Refusal>
        ensures answer { result ≡ (begins R.meaning T.turns self.old rows.old tick).answer }
        ensures gate { self.new ≡ (begins R.meaning T.turns self.old rows.old tick).gate }
        ensures rows { rows.new ≡ (begins R.meaning T.turns self.old rows.old tick).rows }
    {
        self.check_call(rows, tick)?;
        if self.running.is_some() {
            return Err(Refusal::LockHeld);
        }
        self.rest_to(rows, tick);
        let next = self.next_import(rows);
        let turn = self.whose_turn(rows, next);
        if let Some((lab, ticket)) = next {
            self.start(lab, ticket);
        }
        Ok(turn)
    }

    // Frees the lock. The answer is the number of the ticket, the ticks that the lock was held, and the response time.
    pub fn end<R: BudgetRow>(
        &mut self,
        rows: &mut [R],
        tick: u64,
    ) -> Result<(u64, u64, u64), Refusal>
        ensures answer { result ≡ (ends R.meaning self.old rows.old tick).answer }
        ensures gate { self.new ≡ (ends R.meaning self.old rows.old tick).gate }
        ensures rows { rows.new ≡ (ends R.meaning self.old rows.old tick).rows }
    {
        self.check_call(rows, tick)?;
        let Some(import) = self.running else {
            return Err(Refusal::LockFree);
        };
        self.rest_to(rows, tick);
        // neither difference is cut at 0: an import ends no sooner than it was filed and began, as the contract of `open` says
        let held = tick.saturating_sub(import.began);
        tell(rows, import.lab, held);
        self.running = None;
        Ok((import.number, held, tick.saturating_sub(import.filed)))
    }

    // A ticket comes, for which there is room.
    #[tactic(auto, using(outlook::proofs::Lawful::lawful_come))]
    fn add(&mut self, ticket: Ticket)
        requires room { may_wait self.old.waiting ticket ≡ true }
        requires lawful { is_length ticket.length ≡ true }
        ensures { self.new ≡ with_filed self.old ticket }
    {
        self.given = ticket.number;
        self.waiting.put(ticket);
    }

    // The first ticket of a lab leaves, the turn rule hears of the lab, and it holds the lock.
    #[tactic(auto, using(outlook::proofs::Lawful::lawful_begun))]
    fn start(&mut self, lab: u64, ticket: Ticket)
        ensures { self.new ≡ with_begun T.turns self.old (Some (lab, ticket)) }
    {
        self.turns.served(lab);
        self.waiting.take(lab);
        self.running = Some(Import {
            lab,
            number: ticket.number,
            length: ticket.length,
            filed: ticket.filed,
            began: self.clock,
        });
    }

    #[tactic(auto, using(outlook::proofs::Lawful::lawful_none))]
    fn reset<R: BudgetRow>(&mut self, rows: &mut [R], order: QueueOrder)
        requires { is_lab_count (length rows.old) ≡ true }
        ensures gate { self.new ≡ anew self.old.turns (length rows.old) order }
        ensures rows { rows.new ≡ map R.meaning.restarted rows.old }
    {
        restart_all(rows);
        self.labs = rows.len() as u64;
        self.order = order;
        self.clock = 0;
        self.given = 0;
        self.waiting.clear();
        self.running = None;
    }

    fn check_call<R>(&self, rows: &[R], tick: u64) -> Result<(), Refusal>
        ensures { result ≡ granted_unless (call_checks self.now rows.now tick) tt }
    {
        if rows.len() as u64 != self.labs {
            return Err(Refusal::TableMismatch);
        }
        if tick < self.clock || !is_tick(tick) {
            return Err(Refusal::TickOutOfRange);
        }
        Ok(())
    }

    fn check_file<R>(
        &self,
        rows: &[R],
        tick: u64,
        lab: u64,
        length: u64,
        due: u64,
    ) -> Result<(), Refusal>
        ensures { result ≡ granted_unless (file_checks self.now rows.now tick lab length due) tt }
    {
        self.check_call(rows, tick)?;
        if lab >= self.labs {
            return Err(Refusal::NoSuchLab);
        }
        if !is_length(length) {
            return Err(Refusal::LengthOutOfRange);
        }
        if due < tick || !is_tick(due) {
            return Err(Refusal::DueOutOfRange);
        }
        if is_full(self.waiting.count(lab)) {
            return Err(Refusal::QueueFull);
        }
        if is_all_given(self.given) {
            return Err(Refusal::TicketsExhausted);
        }
        Ok(())
    }

    // Every row rests up to this tick, but that of the running lab, and then it is the clock.
    fn rest_to<R: BudgetRow>(&mut self, rows: &mut [R], tick: u64)
        requires { (self.old.clock ≤ tick) × (tick ≤ last) }
        ensures gate { self.new ≡ at_tick self.old tick }
        ensures rows { rows.new ≡ rested_to R.meaning self.old rows.old tick }
    {
        rest_others(rows, self.running, tick - self.clock);
        self.clock = tick;
    }
}

fn check_open<R: BudgetRow>(rows: &[R]) -> Result<(), Refusal>
    ensures { result ≡ granted_unless (open_checks R.meaning rows.now) tt }
{
    if !is_lab_count(rows.len() as u64) {
        return Err(Refusal::LabCountOutOfRange);
    }
    if !is_rate_sum(rate_sum(rows)) {
        return Err(Refusal::RateSumTooLarge);
    }
    Ok(())
}
