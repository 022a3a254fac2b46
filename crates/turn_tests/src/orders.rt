use crate::numbers::{NUMBERS, after, check_order};
use std::process::Abort;
use turns::circular::CircularTurns;
use turns::longest_unserved::LongestUnservedTurns;
use turns::rule::TurnRule;

#[test]
fn nobody_was_served(rt: HostRuntime) {
    let (circular, longest) = after(&[]);
    check_order(&rt, &circular, &NUMBERS);
    check_order(&rt, &longest, &NUMBERS);
}

// 2, 3 to 63, 0, 1 under circular turns, and 0, 2, 3 to 63, 1 under longest-unserved turns. Numbers above 63 make no difference.
#[test]
fn only_1_was_served(rt: HostRuntime) {
    for servings in [[1].as_slice(), &[64, 1, 65, u64::MAX]] {
        let (circular, longest) = after(servings);
        let mut order = NUMBERS;
        order.rotate_left(2);
        check_order(&rt, &circular, &order);
        order = NUMBERS;
        order[1..].rotate_left(1);
        check_order(&rt, &longest, &order);
    }
}

// Whoever comes first is served, 64 times in a row: under either rule the order goes round once, and is then as it was.
fn serve_the_first(rt: &impl Abort, rule: &mut impl TurnRule) {
    let mut order = NUMBERS;
    for k in NUMBERS {
        check_order(rt, rule, &order);
        rule.served(k);
        order.rotate_left(1);
    }
    check_order(rt, rule, &NUMBERS);
}

#[test]
fn the_first_served_64_times(rt: HostRuntime) {
    serve_the_first(&rt, &mut CircularTurns::new());
    serve_the_first(&rt, &mut LongestUnservedTurns::new());
}

#[test]
fn from_63_down_to_0(rt: HostRuntime) {
    let (mut circular, mut longest) = after(&[]);
    let mut round = NUMBERS;
    let mut moved = NUMBERS;
    for i in (0..64).rev() {
        circular.served(NUMBERS[i]);
        longest.served(NUMBERS[i]);
        // the numbers above i, and then 0 to i
        check_order(&rt, &circular, &round);
        round.rotate_right(1);
        // 0 to i - 1, and then 63 down to i
        moved[i..].rotate_left(1);
        check_order(&rt, &longest, &moved);
    }
}

fn check_above_63(rt: &impl Abort, rule: &impl TurnRule) {
    for k in [64, 65, u64::MAX] {
        for n in NUMBERS {
            assert!(rt; !rule.ahead(n, k));
            assert!(rt; !rule.ahead(k, n));
        }
        for n in [64, 65, u64::MAX] {
            assert!(rt; !rule.ahead(n, k));
        }
    }
}

#[test]
fn above_63_nobody_is_ahead(rt: HostRuntime) {
    let (circular, longest) = after(&[1]);
    check_above_63(&rt, &circular);
    check_above_63(&rt, &longest);
}
