// forecast RATE CEILING THRESHOLD LENGTH..., or forecast spaced RATE LENGTH...: when the imports of one lab will begin and end, on its
// budget alone.
#![tactic(auto)]

use forecasting::words::forecast;
use std::process::ExitCode;
use std::{env, io};

fn run(rt: &HostRuntime) -> anyhow::Result<()> {
    let heap = rt.alloc();
    let words: Vec<String> = env::args(rt)?.skip(1).collect(heap)?;
    for line in forecast(heap, words.as_slice())?.iter() {
        println!(rt; "{line}")?;
    }
    Ok(())
}

fn main(rt: HostRuntime) -> io::Result<ExitCode> {
    if let Err(fault) = run(&rt) {
        eprintln!(rt; "forecast: {fault}")?;
        return Ok(ExitCode::FAILURE);
    }
    Ok(ExitCode::SUCCESS)
}
