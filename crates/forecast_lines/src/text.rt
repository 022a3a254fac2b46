// How the lines of a forecast read, and why there is none.
ghost use Rattle.std.specs.Prelude.{Some};
ghost use Rattle.std.specs.Fmt.{DisplaysOnOk};
ghost use Rattle.forecast_lines.specs.declared.Line.TheVariants.{Terms, End, Import};
ghost use Rattle.forecast_lines.specs.Texts.{ticks_text, wait_text, line_text, fault_text};

use crate::{Fault, Line};
use std::error::Error;
use std::fmt;

impl fmt::Display for Line {
    ghost output = { λ line. Some (line_text line) };

    fn fmt<W: fmt::Write>(&self, f: &mut fmt::Formatter<W>) -> fmt::Result {
        match *self {
            Line::Terms {
                rate,
                ceiling,
                threshold,
            } => write_terms(f, rate, ceiling, threshold),
            Line::Opening { level, wait } => { write!(f, "tick 0: level {level}, {}", Wait(wait)) }
            Line::Begin {
                tick,
                import,
                level,
            } => write!(f, "tick {tick}: import {import} begins, level {level}"),
            Line::End {
                tick,
                import,
                held,
                level,
                wait,
            } => write_end(f, tick, import, held, level, wait),
            Line::Import {
                import,
                start,
                end,
                response,
            } => write_import(f, import, start, end, response),
        }
    }
}

// The longer lines, since a proof about each arm of a `match` carries all of it along.

fn write_terms<W: fmt::Write>(
    f: &mut fmt::Formatter<W>,
    rate: u64,
    ceiling: u64,
    threshold: u64,
) -> fmt::Result
    ensures { DisplaysOnOk W.write_str_gives f.old result (Some (line_text (Terms rate ceiling threshold))) f.new }
{
    write!(f, "rate {rate}, ceiling {ceiling}, threshold {threshold}")
}

fn write_end<W: fmt::Write>(
    f: &mut fmt::Formatter<W>,
    tick: u64,
    import: u64,
    held: u64,
    level: i64,
    wait: u64,
) -> fmt::Result
    ensures { DisplaysOnOk W.write_str_gives f.old result (Some (line_text (End tick import held level wait))) f.new }
{
    write!(
        f,
        "tick {tick}: import {import} ends, held {}, level {level}, {}",
        Counted(held),
        Wait(wait)
    )
}

fn write_import<W: fmt::Write>(
    f: &mut fmt::Formatter<W>,
    import: u64,
    start: u64,
    end: u64,
    response: u64,
) -> fmt::Result
    ensures { DisplaysOnOk W.write_str_gives f.old result (Some (line_text (Import import start end response))) f.new }
{
    write!(
        f,
        "import {import}: start {start}, end {end}, response time {response}"
    )
}

// So many ticks.
#[derive(Clone, Copy)]
struct Counted(u64);

impl fmt::Display for Counted {
    ghost output = { λ ticks. Some (ticks_text ticks.0) };

    fn fmt<W: fmt::Write>(&self, f: &mut fmt::Formatter<W>) -> fmt::Result {
        match self.0 {
            1 => f.write_str("1 tick"),
            ticks => write!(f, "{ticks} ticks"),
        }
    }
}

// The ticks of rest still missing, of which an able row has none.
#[derive(Clone, Copy)]
struct Wait(u64);

impl fmt::Display for Wait {
    ghost output = { λ wait. Some (wait_text wait.0) };

    fn fmt<W: fmt::Write>(&self, f: &mut fmt::Formatter<W>) -> fmt::Result {
        match self.0 {
            0 => f.write_str("able"),
            ticks => write!(f, "{} to wait", Counted(ticks)),
        }
    }
}

impl fmt::Display for Fault {
    ghost output = { λ fault. Some (fault_text fault) };

    fn fmt<W: fmt::Write>(&self, f: &mut fmt::Formatter<W>) -> fmt::Result {
        match self {
            Fault::NotANumber(place) => write!(f, "word {place} is not a number"),
            Fault::TooFewNumbers => f.write_str(
                "usage: forecast RATE CEILING THRESHOLD LENGTH..., or: forecast spaced RATE LENGTH...",
            ),
            Fault::Refused(refusal) => write!(f, "{refusal}"),
            Fault::OutOfMemory => f.write_str("out of memory"),
        }
    }
}

impl Error for Fault {}
