// How an answer reads: `labs 200 2000 1000, 300 0 0; filings 0 0 3 1000; withdrawals none`, or `line 2, field 3`.
use plan::faults::ReadError;
use plan::plan::{Filing, Plan, Terms, Withdrawal};
use std::fmt;
use std::fmt::Display;

#[derive(Drop)]
pub struct Answer(pub Result<Plan, ReadError>);

impl Display for Answer {
    fn fmt<W: fmt::Write>(&self, f: &mut fmt::Formatter<W>) -> fmt::Result {
        match &self.0 {
            Ok(plan) => write!(
                f,
                "labs {}; filings {}; withdrawals {}",
                Section(plan.labs.as_slice()),
                Section(plan.filings.as_slice()),
                Section(plan.withdrawals.as_slice())
            ),
            Err(ReadError::Broken(at)) => write!(f, "line {}, field {}", at.line, at.field),
            Err(error) => write!(f, "{error}"),
        }
    }
}

// The lines of a section.
#[derive(Clone, Copy)]
struct Section<'a, T>(&'a [T]);

impl<T: Copy> Display for Section<'_, T>
where
    Numbers<T>: Display,
{
    fn fmt<W: fmt::Write>(&self, f: &mut fmt::Formatter<W>) -> fmt::Result {
        let Some((first, others)) = self.0.split_first() else {
            return f.write_str("none");
        };
        write!(f, "{}", Numbers(*first))?;
        for line in others {
            write!(f, ", {}", Numbers(*line))?;
        }
        Ok(())
    }
}

// The numbers of a line.
#[derive(Clone, Copy)]
struct Numbers<T>(T);

impl Display for Numbers<Terms> {
    fn fmt<W: fmt::Write>(&self, f: &mut fmt::Formatter<W>) -> fmt::Result {
        let Terms {
            rate,
            ceiling,
            threshold,
        } = self.0;
        write!(f, "{rate} {ceiling} {threshold}")
    }
}

impl Display for Numbers<Filing> {
    fn fmt<W: fmt::Write>(&self, f: &mut fmt::Formatter<W>) -> fmt::Result {
        let Filing {
            tick,
            lab,
            length,
            due,
        } = self.0;
        write!(f, "{tick} {lab} {length} {due}")
    }
}

impl Display for Numbers<Withdrawal> {
    fn fmt<W: fmt::Write>(&self, f: &mut fmt::Formatter<W>) -> fmt::Result {
        let Withdrawal { tick, ticket } = self.0;
        write!(f, "{tick} {ticket}")
    }
}
