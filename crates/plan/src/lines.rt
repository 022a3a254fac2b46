ghost use Rattle.std.specs.Prelude.{◌≡◌, ◌+◌, ◌≤◌, ◌^◌, length};

use crate::faults::{Break, ReadError};
use crate::fields::{ANY, Span, cut, read_fields};
use crate::plan::PlanLine;
use std::alloc::Global;

// What is left to read of a plan: the bytes from the start of a line on, and the number of that line.
#[derive(Drop)]
pub(crate) struct Lines<'a> {
    rest: &'a [u8],
    line: u64,
    // each line before has taken up a byte or more
    ghost counted: { line + length rest.now ≤ 2 ^ 63 },
}

impl<'a> Lines<'a> {
    ghost use Rattle.plan.specs.Reading.{start, next_line, lines, section, no_more, or_broken};
    ghost use Rattle.plan.specs.Readers.{left, Gives, Answers};

    pub(crate) fn new(bytes: &'a [u8]) -> Lines<'a>
        ensures { left result ≡ start bytes.now }
    {
        Lines {
            rest: bytes,
            line: 1,
        }
    }

    // The N numbers of the next line.
    fn next_line<const N: usize>(&mut self, span: Span) -> Result<[u64; N], Break>
        ensures { Gives (λ ns. (ns, left self.new)) result (next_line span N (left self.old)) }
    {
        let line = self.line;
        let (text, after) = cut(self.rest, b'\n');
        let numbers = read_fields(text, line, span)?;
        // a line that no line feed ends breaks at its last field
        let after = after.ok_or(Break {
            line,
            field: N as u64,
        })?;
        *self = Lines {
            rest: after,
            line: line + 1,
        };
        Ok(numbers)
    }

    // What is meant by the next lines.
    #[tactic(auto, using(crate::proofs::InTurn::no_line, crate::proofs::InTurn::one_line, crate::proofs::InTurn::line_broken, crate::proofs::InTurn::all_lines))]
    fn lines<const N: usize, T: PlanLine<N>>(
        &mut self,
        heap: Global,
        count: u64,
    ) -> Result<Vec<T>, ReadError>
        requires { N ≤ 4 }
        ensures { Answers (λ v. (v.items, left self.new)) result (or_broken (lines T.meant N count (left self.old))) }
    {
        let mut meant = Vec::new(heap);
        for _ in 0..count {
            let numbers = self.next_line::<N>(ANY)?;
            meant.push(T::from_numbers(numbers))?;
        }
        Ok(meant)
    }

    // A section: how many lines it has, on a line of its own, and these.
    pub(crate) fn section<const N: usize, T: PlanLine<N>>(
        &mut self,
        heap: Global,
        counts: Span,
    ) -> Result<Vec<T>, ReadError>
        requires { N ≤ 4 }
        ensures { Answers (λ v. (v.items, left self.new)) result (or_broken (section T.meant N counts (left self.old))) }
    {
        let [count] = self.next_line::<1>(counts)?;
        self.lines(heap, count)
    }

    // Nothing may be left.
    pub(crate) fn end(&self) -> Result<(), Break>
        ensures { Gives (λ u. u) result (no_more (left self.now)) }
    {
        if self.rest.is_empty() {
            return Ok(());
        }
        Err(Break {
            line: self.line,
            field: 1,
        })
    }
}
