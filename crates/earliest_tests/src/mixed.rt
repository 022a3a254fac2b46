use crate::dated::Dated;
use crate::kept::Kept;

// How often each of 16 elements is there.
type Counts = [u64; 16];

// Every fifth number has the same date.
fn numbered(n: usize) -> Dated {
    Dated {
        date: n as u64 % 5,
        number: n as u64,
    }
}

fn key(x: Dated) -> u64 {
    x.date.saturating_mul(100).saturating_add(x.number)
}

fn least(counts: &Counts) -> Option<Dated> {
    let mut least = None;
    for n in 0..16 {
        let x = numbered(n);
        let is_less = match least {
            None => true,
            Some(y) => key(x) < key(y),
        };
        if counts[n] > 0 && is_less {
            least = Some(x);
        }
    }
    least
}

fn without(counts: &mut Counts, x: Option<Dated>) {
    for n in 0..16 {
        if x == Some(numbered(n)) {
            counts[n] = counts[n].saturating_sub(1);
        }
    }
}

// Two are put for each that is taken, also where there is no room left; then all are taken.
#[test]
fn put_and_taken_in_turn(rt: HostRuntime) {
    let mut kept = Kept::new();
    let mut counts: Counts = [0; 16];
    let mut held: u64 = 0;
    for step in 0..200 {
        if step % 3 < 2 && step < 150 {
            let n = step * 5 % 16;
            let put = kept.put(numbered(n));
            assert_eq!(rt; put, held < 40);
            if put {
                counts[n] = counts[n].saturating_add(1);
                held = held.saturating_add(1);
            }
        } else {
            let next = least(&counts);
            assert_eq!(rt; kept.take(), next);
            without(&mut counts, next);
            held = held.saturating_sub(1);
        }
    }
    assert_eq!(rt; held, 0);
}
