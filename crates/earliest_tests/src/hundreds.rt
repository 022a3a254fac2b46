use crate::dated::Dated;
use crate::in_order::in_order;

const MANY: usize = 300;

// Each of 12 dates 25 times, each number below 300 once.
fn mixed() -> [Dated; MANY] {
    let mut elements = [Dated { date: 0, number: 0 }; MANY];
    for (i, x) in elements.iter_mut().enumerate() {
        let i = i as u64;
        *x = Dated {
            date: i * 11 % 12,
            number: i * 101 % 300,
        };
    }
    elements
}

// An element's date is 7 times its number, modulo 12. So those of one date are 12 apart.
#[test]
fn come_in_order(rt: HostRuntime) {
    let mut elements = mixed();
    let mut places = [Dated { date: 0, number: 0 }; MANY];
    assert!(rt; in_order(&mut elements, &mut places));
    for (k, x) in elements.iter().enumerate() {
        let date = k as u64 / 25;
        let number = date * 7 % 12 + k as u64 % 25 * 12;
        assert_eq!(rt; *x, Dated { date, number });
    }
}
