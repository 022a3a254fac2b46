use crate::dated::Dated;

// Later than each element of the small heap.
pub const LATE: Dated = Dated {
    date: 20,
    number: 7,
};

// A heap in which the last element is before the one above place 3.
pub fn small_heap() -> [Dated; 7] {
    numbered([0, 10, 1, 11, 12, 2, 3])
}

fn numbered(dates: [u64; 7]) -> [Dated; 7] {
    let mut elements = [Dated { date: 0, number: 0 }; 7];
    for (i, x) in elements.iter_mut().enumerate() {
        *x = Dated {
            date: dates[i],
            number: i as u64,
        };
    }
    elements
}
