ghost use Rattle.std.specs.Prelude.{◌≡◌, ◌+◌, ◌<◌, [], ◌∷◌, length, slice_get, OnOk, IsNone, IfSome, OnSome};
ghost use Rattle.std.specs.Option.{option_map_or};
ghost use Rattle.earliest.specs.Sorted.{sorted};
ghost use Rattle.server.specs.Row.{server};
ghost use Rattle.turns.specs.Circular.{circular};
ghost use Rattle.plan.specs.Plans.{lists};
ghost use Rattle.course.specs.Asking.{filing_call, withdrawal_call, filings_line, withdrawals_line};
ghost use Rattle.course.specs.Course.{ask, begun, begin_answer, printed_from};
ghost use Rattle.playing.specs.Stages.{IsLawful, IsFresh, Prints};
ghost use Rattle.agenda.specs.Happening.{end_running, happens, happen, before_begin, with_event, scheduled};
ghost use Rattle.agenda.specs.Events.{event_before, first_events, head_at, after_head};

use crate::lines::{Run, add_no_line, add_run};
use agenda::agenda::Agenda;
use agenda::event::{Event, Kind};
use gate::gate::Gate;
use history::turn::Turn;
use measures::limits::is_tick;
use measures::refusal::Refusal;
use plan::plan::{Filing, Plan, Withdrawal};
use server::ServerRow;
use std::alloc::{AllocError, Global};
use std::marker::Model;
use turns::circular::CircularTurns;

// How far a play has come: the gate with its table of rows, and what was printed. Clauses see a `Stage` of `course`.
#[derive(Drop)]
pub(crate) struct Stage {
    pub(crate) gate: Gate<CircularTurns>,
    pub(crate) rows: Vec<ServerRow>,
    pub(crate) printed: String,
}

impl Model for Stage {
    ghost use Rattle.std.specs.Prelude.{string_bytes};
    ghost use Rattle.course.specs.Course as course;
    ghost use Rattle.server.specs.declared.ServerRow.{ServerRow};
    ghost use Rattle.turns.specs.declared.circular.CircularTurns.{CircularTurns};

    ghost Value = { course.Stage ServerRow CircularTurns };

    ghost view = { λ s. record { moment = record { gate = s.gate; rows = s.rows.items }; printed = string_bytes s.printed } };
}

impl Stage {
    // The import that holds the lock ends. A line tells it.
    fn end(&mut self, tick: u64) -> Result<(), AllocError>
        ensures { OnOk result (self.new ≡ end_running server circular tick self.old) }
    {
        let Some(import) = self.gate.running() else {
            return Ok(());
        };
        if let Ok((number, held, response)) = self.gate.end(self.rows.as_mut_slice(), tick) {
            let run = Run {
                lab: import.lab,
                number,
                // no lock was held for more ticks than have passed
                start: tick.saturating_sub(held),
                end: tick,
                response,
            };
            add_run(&mut self.printed, run)?;
        }
        Ok(())
    }

    // A withdrawal that stands on this line of the plan. If it is refused, a line says so.
    fn withdraw(&mut self, line: u64, withdrawal: Withdrawal) -> Result<(), AllocError>
        ensures { OnOk result (self.new ≡ ask server circular self.old (record { line = line; call = withdrawal_call withdrawal })) }
    {
        let Withdrawal { tick, ticket } = withdrawal;
        if let Err(refusal) = self.gate.withdraw(self.rows.as_mut_slice(), tick, ticket) {
            add_no_line(&mut self.printed, line, refusal)?;
        }
        Ok(())
    }

    // A filing that stands on this line of the plan. If it is refused, a line says so.
    fn file(&mut self, line: u64, filing: Filing) -> Result<(), AllocError>
        ensures { OnOk result (self.new ≡ ask server circular self.old (record { line = line; call = filing_call filing })) }
    {
        let Filing {
            tick,
            lab,
            length,
            due,
        } = filing;
        if let Err(refusal) = self
            .gate
            .file(self.rows.as_mut_slice(), tick, lab, length, due)
        {
            add_no_line(&mut self.printed, line, refusal)?;
        }
        Ok(())
    }

    // Nothing is printed of a begin, granted or denied.
    fn begin(&mut self, tick: u64) -> Result<Turn, Refusal>
        ensures answer { result ≡ begin_answer server circular tick self.old }
        ensures stage { self.new ≡ begun server circular tick self.old }
    {
        self.gate.begin(self.rows.as_mut_slice(), tick)
    }

    // What an event asks for. One of a begin asks for nothing: each tick at which something happens has its begin, after all else.
    fn happen(&mut self, plan: &Plan, event: Event) -> Result<(), AllocError>
        requires lawful { IsLawful (lists plan.now) }
        ensures { OnOk result (self.new ≡ happens server circular (lists plan.now) self.old event) }
    {
        match event.kind {
            Kind::End => self.end(event.tick),
            Kind::Withdrawal => self.withdraw_at(plan, event.place),
            Kind::Filing => self.file_at(plan, event.place),
            Kind::Begin => Ok(()),
        }
    }

    // The withdrawal in this place of its section, which comes after the other two and a line that counts it.
    fn withdraw_at(&mut self, plan: &Plan, place: u64) -> Result<(), AllocError>
        requires lawful { IsLawful (lists plan.now) }
        ensures { OnOk result (self.new ≡ option_map_or (λ w. ask server circular self.old (record { line = withdrawals_line (lists plan.now) + place; call = withdrawal_call w })) (slice_get plan.now.withdrawals.items place) self.old) }
    {
        let Some(withdrawal) = plan.withdrawals.get(place as usize) else {
            return Ok(());
        };
        let first = plan.labs.len() as u64 + plan.filings.len() as u64 + 4;
        self.withdraw(first + place, *withdrawal)
    }

    // The filing in this place of its section, which comes after the labs and a line that counts it.
    fn file_at(&mut self, plan: &Plan, place: u64) -> Result<(), AllocError>
        requires lawful { IsLawful (lists plan.now) }
        ensures { OnOk result (self.new ≡ option_map_or (λ f. ask server circular self.old (record { line = filings_line (lists plan.now) + place; call = filing_call f })) (slice_get plan.now.filings.items place) self.old) }
    {
        let Some(filing) = plan.filings.get(place as usize) else {
            return Ok(());
        };
        let first = plan.labs.len() as u64 + 3;
        self.file(first + place, *filing)
    }

    // Those of the next events happen that are at this tick.
    #[tactic(auto, using(agenda::proofs::Taking::no_more, agenda::proofs::Taking::one_more))]
    fn happen_at(&mut self, plan: &Plan, agenda: &mut Agenda, tick: u64) -> Result<(), AllocError>
        requires lawful { IsLawful (lists plan.now) }
        ensures stage { OnOk result (self.new ≡ happen server circular (lists plan.now) self.old (head_at tick agenda.old)) }
        ensures agenda { OnOk result (agenda.new ≡ after_head tick agenda.old) }
    {
        while let Some(event) = take_at(agenda, tick) {
            self.happen(plan, event)?;
        }
        Ok(())
    }

    // A tick passes: its events happen, and then its begin. What that brings about comes to the agenda.
    fn play_tick(&mut self, plan: &Plan, agenda: &mut Agenda, tick: u64) -> Result<(), AllocError>
        requires lawful { IsLawful (lists plan.now) }
        ensures stage { OnOk result (self.new ≡ begun server circular tick (before_begin server circular (lists plan.now) tick self.old agenda.old)) }
        ensures agenda { OnOk result (agenda.new ≡ scheduled tick (begin_answer server circular tick (before_begin server circular (lists plan.now) tick self.old agenda.old)) (after_head tick agenda.old)) }
    {
        self.happen_at(plan, agenda, tick)?;
        match self.begin(tick) {
            // past 64 bits is past the last tick too
            Ok(Turn::Began { length, .. }) => schedule(
                agenda,
                Kind::End,
                tick.saturating_add(length),
            ),
            Ok(Turn::Wait(until)) => schedule(agenda, Kind::Begin, until),
            Ok(Turn::Nothing) | Err(_) => Ok(()),
        }
    }

    // What is printed when a plan is played on.
    #[tactic(auto, unfolding(crate::specs::Stages::Prints))]
    pub(crate) fn play(mut self, heap: Global, plan: &Plan) -> Result<String, AllocError>
        requires lawful { IsLawful (lists plan.now) }
        requires fresh { IsFresh self }
        ensures { Prints result (printed_from server circular (lists plan.now) 0 self) }
    {
        let mut agenda = Agenda::of(heap, plan)?;
        self.play_all(plan, &mut agenda)?;
        Ok(self.printed)
    }

    // From one event to the next, until there is none.
    #[tactic(auto, using(crate::proofs::Passing::starts, crate::proofs::Passing::passes, crate::proofs::Passing::sooner, crate::proofs::Passing::over))]
    fn play_all(&mut self, plan: &Plan, agenda: &mut Agenda) -> Result<(), AllocError>
        requires lawful { IsLawful (lists plan.now) }
        requires fresh { IsFresh self.old }
        requires first { agenda.old ≡ sorted event_before (first_events (lists plan.now)) }
        ensures { OnOk result (self.new.printed ≡ printed_from server circular (lists plan.now) 0 self.old) }
    {
        while let Some(event) = agenda.first() {
            self.play_tick(plan, agenda, event.tick)?;
        }
        Ok(())
    }
}

// An event of this kind comes to the agenda, unless it is above the last tick.
fn schedule(agenda: &mut Agenda, kind: Kind, tick: u64) -> Result<(), AllocError>
    ensures { OnOk result (agenda.new ≡ with_event (record { tick = tick; kind = kind; place = 0 }) agenda.old) }
{
    if is_tick(tick) {
        agenda.put(Event {
            tick,
            kind,
            place: 0,
        })?;
    }
    Ok(())
}

// The next event, if it is at this tick.
#[tactic(auto, using(agenda::proofs::Taking::head_empty, agenda::proofs::Taking::after_empty, agenda::proofs::Taking::head_taken, agenda::proofs::Taking::after_taken, agenda::proofs::Taking::one_fewer, agenda::proofs::Taking::head_other, agenda::proofs::Taking::after_other))]
fn take_at(agenda: &mut Agenda, tick: u64) -> Option<Event>
    ensures none { IsNone result → head_at tick agenda.old ≡ [] }
    ensures taken { IfSome result (λ e. head_at tick agenda.old ≡ e ∷ head_at tick agenda.new) }
    ensures rest { after_head tick agenda.new ≡ after_head tick agenda.old }
    ensures all { IsNone result → agenda.new ≡ after_head tick agenda.old }
    ensures fewer { OnSome result (length agenda.new < length agenda.old) }
{
    match agenda.first() {
        Some(event) if event.tick == tick => agenda.take(),
        _ => None,
    }
}
