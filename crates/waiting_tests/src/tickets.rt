use measures::limits::LAST_TICK;
use std::process::Abort;
use waiting::ticket::{ROOM, Ticket};
use waiting::waiting::Waiting;

// A ticket in order of arrival, of length 1, with no due date.
pub fn arrived(lab: u64, number: u64) -> Ticket {
    Ticket {
        key: 0,
        number,
        lab,
        filed: number,
        length: 1,
        due: LAST_TICK,
    }
}

// The numbers of the tickets that wait for a lab are these, in this order.
pub fn check_queue(rt: &impl Abort, waiting: &Waiting, lab: u64, numbers: &[u64]) {
    let mut queue = [arrived(lab, 0); ROOM];
    assert_eq!(rt; waiting.copy_queue(lab, &mut queue), numbers.len() as u64);
    assert_eq!(rt; waiting.count(lab), numbers.len() as u64);
    for (ticket, number) in queue.iter().zip(numbers) {
        assert_eq!(rt; ticket.lab, lab);
        assert_eq!(rt; ticket.number, *number);
    }
    assert_eq!(rt;
        waiting.first(lab).map(|ticket| ticket.number),
        numbers.first().copied()
    );
}
