ghost use Rattle.std.specs.Prelude.{◌≡◌, ◌++◌, [], ◌∷◌, string_bytes, OnOk};
ghost use Rattle.plan.specs.Writing.{written_line};
ghost use Rattle.playing.specs.Stages.{Prints};
ghost use Rattle.course.specs.Printing.{no_line, bad_line, big_line};

use measures::refusal::Refusal;
use plan::faults::Break;
use std::alloc::{AllocError, Global};
use std::fmt::Write;

// The lines that are printed.

#[tactic(auto, unfolding(crate::specs::Stages::Prints, course::specs::Printing::big_line))]
pub(crate) fn big_line(heap: Global) -> Result<String, AllocError>
    ensures { Prints result big_line }
{
    format!(in heap; "big\n")
}

#[tactic(auto, unfolding(crate::specs::Stages::Prints, course::specs::Printing::bad_line))]
pub(crate) fn bad_line(heap: Global, at: Break) -> Result<String, AllocError>
    ensures { Prints result (bad_line at) }
{
    let mut text = String::new(heap);
    writeln!(text, "bad {} {}", at.line, at.field)?;
    Ok(text)
}

#[tactic(auto, unfolding(crate::specs::Stages::Prints))]
pub(crate) fn no_line(heap: Global, line: u64, refusal: Refusal) -> Result<String, AllocError>
    ensures { Prints result (no_line line refusal) }
{
    let mut text = String::new(heap);
    add_no_line(&mut text, line, refusal)?;
    Ok(text)
}

// The others are added to what was printed before.

#[tactic(auto, unfolding(course::specs::Printing::no_line))]
pub(crate) fn add_no_line(
    printed: &mut String,
    line: u64,
    refusal: Refusal,
) -> Result<(), AllocError>
    ensures { OnOk result (string_bytes printed.new ≡ string_bytes printed.old ++ no_line line refusal) }
{
    writeln!(printed, "no {line} {}", refusal.number())
}

// A run that has ended.
#[derive(Clone, Copy)]
pub(crate) struct Run {
    pub(crate) lab: u64,
    // of its ticket
    pub(crate) number: u64,
    pub(crate) start: u64,
    pub(crate) end: u64,
    // the ticks from the filing of its ticket to its end
    pub(crate) response: u64,
}

pub(crate) fn add_run(printed: &mut String, run: Run) -> Result<(), AllocError>
    ensures { OnOk result (string_bytes printed.new ≡ string_bytes printed.old ++ written_line (run.lab ∷ run.number ∷ run.start ∷ run.end ∷ run.response ∷ [])) }
{
    let Run {
        lab,
        number,
        start,
        end,
        response,
    } = run;
    writeln!(printed, "{lab} {number} {start} {end} {response}")
}
