// Plays the plan of each line of standard input, where '|' stands for the line feeds of the plan, and prints on a line what play prints, with
// '|' for its line feeds, to be held against what was found by other means.
#![tactic(auto)]

use playing::play::play;
use std::io::{BufRead, BufReader};

fn answer(rt: &HostRuntime, mut bytes: Vec<u8>) -> anyhow::Result<()> {
    for byte in bytes.iter_mut() {
        if *byte == b'|' {
            *byte = b'\n';
        }
    }
    let printed = play(rt.alloc(), bytes.as_slice())?;
    println!(rt; "{}", printed.as_str().replace(rt.alloc(), "\n", "|")?)?;
    Ok(())
}

// By bytes, and not as text: a carriage return before the end of a line is a byte of the plan.
fn main(rt: HostRuntime) -> anyhow::Result<()> {
    for line in BufReader::new(rt.alloc(), rt.reader())?.split(rt.alloc(), b'\n') {
        answer(&rt, line?)?;
    }
    Ok(())
}
