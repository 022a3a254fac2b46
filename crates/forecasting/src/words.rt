ghost use Rattle.std.specs.Prelude.{◌≡◌, ◌≤◌};
ghost use Rattle.forecasting.specs.Lines.{Answers};
ghost use Rattle.forecasting.specs.Words.{first_place, numbers_at, foretold_on, foretold};

use crate::lines::{self, Rule};
use forecast_lines::{Fault, Line};
use numerals::number;
use std::alloc::Global;

// The forecast that the words of a command line ask for: RATE CEILING THRESHOLD LENGTH... for a server row, or spaced RATE LENGTH...
pub fn forecast(heap: Global, words: &[String]) -> Result<Vec<Line>, Fault>
    ensures { Answers result (foretold words.now) }
{
    match words.split_first() {
        Some((name, rest)) if name.as_str() == "spaced" => forecast_on(heap, Rule::Spaced, rest),
        _ => forecast_on(heap, Rule::Server, words),
    }
}

// The forecast on a row of this rule, from the words that are its numbers.
fn forecast_on(heap: Global, rule: Rule, words: &[String]) -> Result<Vec<Line>, Fault>
    ensures { Answers result (foretold_on rule words.now) }
{
    let numbers = read_numbers(heap, rule, words)?;
    lines::forecast(heap, rule, numbers.as_slice())
}

// The numbers that these words write, which come after the name of the rule where it has one.
fn read_numbers(heap: Global, rule: Rule, words: &[String]) -> Result<Vec<u64>, Fault>
    ensures { Answers result (numbers_at (first_place rule) words.now) }
{
    let first = first_place(rule);
    let mut numbers = Vec::new(heap);
    for (i, word) in words.iter().enumerate() {
        numbers.push(number(word.as_bytes()).ok_or(Fault::NotANumber(first + i))?)?;
    }
    Ok(numbers)
}

// The place of the first word that is to be a number, counted from 1.
fn first_place(rule: Rule) -> usize
    ensures value { result ≡ first_place rule }
    ensures bound { result ≤ 2 }
{
    match rule {
        Rule::Server => 1,
        Rule::Spaced => 2,
    }
}
