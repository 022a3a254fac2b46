// Reads a plan from each line of standard input, where '|' stands for the line feeds of the plan, and prints on a line what the plan says,
// or where its form is first broken, to be held against answers that were found by other means.
#![tactic(auto)]

mod text;

use crate::text::Answer;
use plan::reading::read_plan;
use std::io::{BufRead, BufReader};

fn answer(rt: &HostRuntime, mut bytes: Vec<u8>) -> anyhow::Result<()> {
    for byte in bytes.iter_mut() {
        if *byte == b'|' {
            *byte = b'\n';
        }
    }
    println!(rt; "{}", Answer(read_plan(rt.alloc(), bytes.as_slice())))?;
    Ok(())
}

// By bytes, and not as text: a carriage return before the end of a line is a byte of the plan.
fn main(rt: HostRuntime) -> anyhow::Result<()> {
    for line in BufReader::new(rt.alloc(), rt.reader())?.split(rt.alloc(), b'\n') {
        answer(&rt, line?)?;
    }
    Ok(())
}
