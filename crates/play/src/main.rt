// Reads a plan from standard input, and prints what happens when it is played from tick 0 to the last tick.
#![tactic(auto)]

use measures::limits::MOST_PLAN_BYTES;
use playing::play::play;
use std::io::Read;

fn main(rt: HostRuntime) -> anyhow::Result<()> {
    let heap = rt.alloc();
    let mut bytes = Vec::new(heap);
    // one byte more than a plan may have is enough to see that there are too many
    rt.stdin()
        .take(MOST_PLAN_BYTES + 1)
        .read_to_end(&mut bytes)?;
    let printed = play(heap, bytes.as_slice())?;
    print!(rt; "{}", printed.as_str())?;
    Ok(())
}
