ghost use Rattle.std.specs.Prelude.{◌≡◌, ◌<◌, ◌==◌, ◌∷◌, [], length, is_some, IfSome};
ghost use Rattle.std.specs.List.{slice_split, before_first, after_first, list_any, position};
ghost use Rattle.std.specs.Option.{option_map_or};
ghost use Rattle.plan.specs.Readers.{fields_left, Gives};
ghost use Rattle.plan.specs.Reading.{number_in, next_number, numbers, fields};

use crate::faults::Break;
use measures::limits::LAST_TICK;
use numerals::number;

// The numbers from the least to the greatest, both among them.
#[derive(Clone, Copy)]
pub(crate) struct Span {
    pub(crate) least: u64,
    pub(crate) greatest: u64,
}

// Any number that a plan may have.
pub(crate) const ANY: Span = Span {
    least: 0,
    greatest: LAST_TICK,
};

// The bytes before the first `mark`, and those after it if there is one.
#[tactic(auto, using(crate::proofs::Cuts::some_passes, crate::proofs::Cuts::none_passes, crate::proofs::Cuts::cut_in_two, crate::proofs::Cuts::not_cut))]
pub(crate) fn cut(text: &[u8], mark: u8) -> (&[u8], Option<&[u8]>)
    ensures before { result.0.now ≡ before_first (λ b. b == mark) text.now }
    ensures found { is_some result.1 ≡ list_any (λ b. b == mark) text.now }
    ensures after { IfSome result.1 (λ rest. rest.now ≡ after_first (λ b. b == mark) text.now) }
    ensures shorter { IfSome result.1 (λ rest. length rest.now < length text.now) }
    ensures parts { slice_split (λ b. b == mark) text.now ≡ result.0.now ∷ option_map_or (λ rest. slice_split (λ b. b == mark) rest.now) result.1 [] }
{
    match find(text, mark) {
        Some(at) => (&text[..at], Some(&text[at + 1..])),
        None => (text, None),
    }
}

// The place of the first `mark`.
fn find(text: &[u8], mark: u8) -> Option<usize>
    ensures { result ≡ position (λ b. b == mark) text.now }
{
    text.iter().position(|byte| *byte == mark)
}

// The number of the span that a field writes with no leading zero.
pub(crate) fn number_in(field: &[u8], span: Span) -> Option<u64>
    ensures { result ≡ number_in span field.now }
{
    if let [b'0', _, ..] = field {
        return None;
    }
    let value = number(field)?;
    if value < span.least || span.greatest < value {
        return None;
    }
    Some(value)
}

// The number of the first field that is left, which is due at this place, and the fields after it.
fn next_number(rest: Option<&[u8]>, at: Break, span: Span) -> Result<(u64, Option<&[u8]>), Break>
    ensures { Gives (λ read. (read.0, fields_left read.1)) result (next_number span at (fields_left rest.entry)) }
{
    let (field, after) = cut(rest.ok_or(at)?, b' ');
    let value = number_in(field, span).ok_or(at)?;
    Ok((value, after))
}

// The numbers of a line with N fields, or where it first breaks this form.
#[tactic(auto, using(crate::proofs::InTurn::no_field, crate::proofs::InTurn::one_field, crate::proofs::InTurn::field_broken, crate::proofs::InTurn::all_fields, crate::proofs::InTurn::surplus_field))]
pub(crate) fn read_fields<const N: usize>(
    text: &[u8],
    line: u64,
    span: Span,
) -> Result<[u64; N], Break>
    ensures { Gives (λ ns. ns) result (numbers span line 1 N (fields text.now)) }
{
    let mut numbers = [0; N];
    let mut rest = Some(text);
    for i in 0..N {
        let at = Break {
            line,
            field: i as u64 + 1,
        };
        let (value, after) = next_number(rest, at, span)?;
        numbers[i] = value;
        rest = after;
    }
    match rest {
        None => Ok(numbers),
        Some(_) => Err(Break {
            line,
            field: N as u64 + 1,
        }),
    }
}
