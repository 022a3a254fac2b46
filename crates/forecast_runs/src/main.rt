// Forecasts for many command lines: reads the words of one from each line of standard input, and prints the command and then what
// `forecasting::words::forecast` answers to it.
#![tactic(auto)]

use forecasting::words::forecast;

fn answer(rt: &HostRuntime, command: &str) -> anyhow::Result<()> {
    let heap = rt.alloc();
    let words: Vec<String> = command
        .split(' ')
        .map(|word| String::from_str(heap, word))
        .try_collect(heap)?;
    println!(rt; "$ forecast {command}")?;
    match forecast(heap, words.as_slice()) {
        Ok(lines) => {
            for line in lines.iter() {
                println!(rt; "{line}")?;
            }
        }
        Err(fault) => println!(rt; "forecast: {fault}")?,
    }
    Ok(())
}

fn main(rt: HostRuntime) -> anyhow::Result<()> {
    for line in rt.lines(rt.alloc()) {
        answer(&rt, line?.as_str())?;
    }
    Ok(())
}
