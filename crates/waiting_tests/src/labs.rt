use crate::tickets::{arrived, check_queue};
use waiting::waiting::Waiting;

#[test]
fn first_and_last_lab(rt: HostRuntime) {
    let mut waiting = Waiting::new();
    for lab in 0..64 {
        check_queue(&rt, &waiting, lab, &[]);
    }
    for (lab, number) in [(63, 4), (0, 3), (63, 2), (0, 1)] {
        assert!(rt; waiting.put(arrived(lab, number)));
    }
    check_queue(&rt, &waiting, 0, &[1, 3]);
    check_queue(&rt, &waiting, 63, &[2, 4]);
    for lab in 1..63 {
        check_queue(&rt, &waiting, lab, &[]);
        assert_eq!(rt; waiting.take(lab), None);
    }
    assert_eq!(rt; waiting.take(63), Some(arrived(63, 2)));
    assert_eq!(rt; waiting.take(0), Some(arrived(0, 1)));
    assert_eq!(rt; waiting.withdraw(4), Some(arrived(63, 4)));
    check_queue(&rt, &waiting, 0, &[3]);
    check_queue(&rt, &waiting, 63, &[]);
    assert_eq!(rt; waiting.withdraw(3), Some(arrived(0, 3)));
    check_queue(&rt, &waiting, 0, &[]);
}

#[test]
fn labs_that_do_not_exist(rt: HostRuntime) {
    let mut waiting = Waiting::new();
    assert!(rt; waiting.put(arrived(0, 1)));
    assert!(rt; waiting.put(arrived(63, 2)));
    for lab in [64, 65, 127, u64::MAX] {
        assert!(rt; !waiting.put(arrived(lab, 3)));
        assert_eq!(rt; waiting.take(lab), None);
        check_queue(&rt, &waiting, lab, &[]);
        assert_eq!(rt; waiting.withdraw(3), None);
    }
    check_queue(&rt, &waiting, 0, &[1]);
    check_queue(&rt, &waiting, 63, &[2]);
}
