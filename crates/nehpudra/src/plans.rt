ghost use Rattle.std.specs.Prelude.{◌≡◌};
ghost use Rattle.course.specs.Playing.{prints};
ghost use Rattle.nehpudra.specs.Exports.{written, WrittenTo};

use host_gates::answers::{NO_MEMORY, Told};
use measures::refusal::Refusal;
use playing::play::play;
use std::alloc::Global;

// Plays the plan that these bytes write, and writes what is printed at the head of `out`. The number that is told is that of the bytes that
// are printed; where `out` has fewer places, that is refused, and nothing is written.
#[tactic(auto, unfolding(playing::specs::Stages::Prints))]
#[unsafe(no_mangle)]
pub extern "C" fn nehpudra_play(heap: Global, plan: &[u8], out: &mut [u8]) -> Told
    ensures { WrittenTo (prints plan.now) out.old result out.new }
{
    match play(heap, plan) {
        Ok(printed) => copy_text(printed.as_bytes(), out),
        Err(_) => Told::nothing(NO_MEMORY),
    }
}

fn copy_text(text: &[u8], out: &mut [u8]) -> Told
    ensures answer { result ≡ (written text.now out.old).answer }
    ensures out { out.new ≡ (written text.now out.old).out }
{
    let number = text.len() as u64;
    if text.len() > out.len() {
        return Told {
            status: Refusal::ListTooShort.number(),
            number,
        };
    }
    out[..text.len()].copy_from_slice(text);
    Told { status: 0, number }
}
