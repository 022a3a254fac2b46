use crate::numbers::{NUMBERS, after, check_order};
use turns::rule::TurnRule;

// Whether both rules give the same order.
fn agree(servings: &[u64]) -> bool {
    let (circular, longest) = after(servings);
    for a in NUMBERS {
        for b in NUMBERS {
            if circular.ahead(a, b) != longest.ahead(a, b) {
                return false;
            }
        }
    }
    true
}

// After one serving they do where 0 or 63 was served, and nowhere else.
#[test]
fn after_one_serving(rt: HostRuntime) {
    for k in NUMBERS {
        assert_eq!(rt; agree(&[k]), k == 0 || k == 63);
    }
}

// In the order of their numbers, 0 and then 2 are the first two servings after which they do not.
#[test]
fn after_two_servings(rt: HostRuntime) {
    for k in NUMBERS {
        assert_eq!(rt; agree(&[0, k]), k < 2);
    }
}

// 3, 4 to 63, 0, 1, 2 under circular turns, and 1, 3, 4 to 63, 0, 2 under longest-unserved turns
#[test]
fn first_0_and_then_2(rt: HostRuntime) {
    let (circular, longest) = after(&[0, 2]);
    let mut order = NUMBERS;
    order.rotate_left(3);
    check_order(&rt, &circular, &order);
    order = NUMBERS;
    order.rotate_left(1);
    order[1..].rotate_left(1);
    check_order(&rt, &longest, &order);
}
