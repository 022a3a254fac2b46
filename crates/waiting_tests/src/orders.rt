use crate::tickets::check_queue;
use std::process::Abort;
use waiting::queue_order::QueueOrder;
use waiting::ticket::Ticket;
use waiting::waiting::Waiting;

// The declared lengths and due ticks of tickets 1 to 6, some of them equal.
const FILINGS: [(u64, u64); 6] = [(5, 90), (3, 40), (5, 40), (1, 90), (3, 40), (2, 7)];

// The tickets wait, put in another order than that of their numbers.
fn filed(order: QueueOrder) -> Waiting {
    let mut waiting = Waiting::new();
    for i in [3, 0, 5, 2, 4, 1] {
        let (length, due) = FILINGS[i];
        waiting.put(Ticket {
            key: order.key(length, due),
            number: i as u64 + 1,
            lab: 9,
            filed: 2,
            length,
            due,
        });
    }
    waiting
}

// They are listed in this order, and taken in it one after another.
fn check_order(rt: &impl Abort, order: QueueOrder, numbers: [u64; 6]) {
    let mut waiting = filed(order);
    check_queue(rt, &waiting, 9, &numbers);
    for number in numbers {
        let first = waiting.first(9);
        assert_eq!(rt; first.map(|ticket| ticket.number), Some(number));
        assert_eq!(rt; waiting.take(9), first);
    }
    assert_eq!(rt; waiting.take(9), None);
}

#[test]
fn arrival(rt: HostRuntime) {
    check_order(&rt, QueueOrder::Arrival, [1, 2, 3, 4, 5, 6]);
}

#[test]
fn due(rt: HostRuntime) {
    check_order(&rt, QueueOrder::Due, [6, 2, 3, 5, 1, 4]);
}

#[test]
fn short(rt: HostRuntime) {
    check_order(&rt, QueueOrder::Short, [4, 6, 2, 5, 1, 3]);
}

#[test]
fn short_with_one_withdrawn(rt: HostRuntime) {
    let mut waiting = filed(QueueOrder::Short);
    let ticket = waiting.withdraw(5);
    assert_eq!(rt;
        ticket.map(|ticket| (ticket.number, ticket.key)),
        Some((5, 3))
    );
    check_queue(&rt, &waiting, 9, &[4, 6, 2, 1, 3]);
}

// Tickets of equal keys and numbers wait in the order of what else they hold.
#[test]
fn equal_keys_and_numbers(rt: HostRuntime) {
    let zero = Ticket::default();
    let mut in_order = [zero; 4];
    in_order[1] = Ticket { due: 1, ..zero };
    in_order[2] = Ticket { length: 1, ..zero };
    in_order[3] = Ticket { filed: 1, ..zero };
    let mut waiting = Waiting::new();
    for ticket in in_order.iter().rev() {
        assert!(rt; waiting.put(*ticket));
    }
    for ticket in in_order {
        assert_eq!(rt; waiting.take(0), Some(ticket));
    }
}

#[test]
fn keys(rt: HostRuntime) {
    for (length, due) in [(0, 0), (1, 2), (u64::MAX, 5), (5, u64::MAX)] {
        assert_eq!(rt; QueueOrder::Arrival.key(length, due), 0);
        assert_eq!(rt; QueueOrder::Due.key(length, due), due);
        assert_eq!(rt; QueueOrder::Short.key(length, due), length);
    }
}
