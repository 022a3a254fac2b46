use playing::play::play;
use std::alloc::Global;
use std::process::Abort;
use std::test::Fail;

// Bytes, and what is printed when they are played.
pub type Played = (&'static [u8], &'static str);

pub fn check_played(rt: &impl Abort, heap: Global, table: &[Played]) -> Result<(), Fail> {
    for (bytes, printed) in table {
        let found = play(heap, bytes)?;
        assert_eq!(rt; found.as_str(), *printed, "of {}", bytes.escape_ascii());
    }
    Ok(())
}
