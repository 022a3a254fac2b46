ghost use Rattle.std.specs.Prelude.{◌≡◌, ◌<◌, length, None, OnOk, OnErr};
ghost use Rattle.measures.specs.Limits.{most_labs};
ghost use Rattle.measures.specs.Refusals.{granted_unless};
ghost use Rattle.waiting.specs.Queues.{queue_of, headed_by};
ghost use Rattle.outlook.specs.Outlooks.{outlook, AreSoonest, outlooks, place_checks, lab_checks, TellsSoonest};
ghost use Rattle.outlook.specs.LeftAlone.{Foretells};

use crate::gate::Gate;
use budget::row::BudgetRow;
use measures::refusal::Refusal;
use outlook::entry::Entry;
use outlook::listing::list_tickets;
use turns::rule::TurnRule;
use waiting::ticket::{ROOM, Ticket};

impl<T: TurnRule> Gate<T> {
    // Foretells when the waiting tickets of a lab will run, if it is left alone: lists them in queue order, each with its start and end, in
    // the first places of `list`, and answers how many they are.
    #[tactic(auto, using(outlook::proofs::Alone::foretells_granted))]
    pub fn outlook<R: BudgetRow>(
        &self,
        rows: &[R],
        lab: u64,
        list: &mut [Entry],
    ) -> Result<u64, Refusal>
        ensures answer { result ≡ (outlooks R.meaning self.now rows.now lab list.old).answer }
        ensures list { list.new ≡ (outlooks R.meaning self.now rows.now lab list.old).list }
        ensures soonest { OnOk result (TellsSoonest R.meaning self.now rows.now lab list.new) }
        ensures foretold { OnOk result (Foretells R.meaning T.turns (record { gate = self.now; rows = rows.now }) lab list.new) }
    {
        self.check_outlook(rows, lab)?;
        self.list_queue(&rows[lab as usize], lab, list)
    }

    // Whether a lab's tickets can be foretold, if they find room in a list.
    fn check_outlook<R>(&self, rows: &[R], lab: u64) -> Result<(), Refusal>
        ensures answer { result ≡ granted_unless (lab_checks self.now rows.now lab) tt }
        ensures table { OnOk result ((self.now.labs ≡ length rows.now) × (lab < length rows.now) × (lab < most_labs)) }
        ensures free { OnOk result (self.now.running ≡ None) }
    {
        if rows.len() as u64 != self.labs {
            return Err(Refusal::TableMismatch);
        }
        if lab >= self.labs {
            return Err(Refusal::NoSuchLab);
        }
        if self.running.is_some() {
            return Err(Refusal::LockHeld);
        }
        Ok(())
    }

    #[tactic(auto, using(outlook::proofs::Lawful::only_short))]
    fn list_queue<R: BudgetRow>(
        &self,
        row: &R,
        lab: u64,
        list: &mut [Entry],
    ) -> Result<u64, Refusal>
        ensures answer { result ≡ granted_unless (place_checks (queue_of self.now.waiting lab) (length list.old)) (length (queue_of self.now.waiting lab)) }
        ensures listed { OnOk result (list.new ≡ headed_by (outlook R.meaning row.now self.now.clock (queue_of self.now.waiting lab)) list.old) }
        ensures unchanged { OnErr result (list.new ≡ list.old) }
        ensures soonest { OnOk result (AreSoonest R.meaning row.now self.now.clock (queue_of self.now.waiting lab) list.new) }
    {
        let mut tickets = [Ticket::default(); ROOM];
        let count = self.waiting.copy_queue(lab, &mut tickets);
        // no length is refused, since file has looked at each
        list_tickets(row, self.clock, &tickets[..count as usize], list)?;
        Ok(count)
    }
}
