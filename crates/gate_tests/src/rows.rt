use server::ServerRow;
use spaced::SpacedRow;

// Rows as they are at an opening: able at tick 5, and able at once.
pub const SERVER: ServerRow = ServerRow {
    rate: 200,
    ceiling: 2000,
    threshold: 1000,
    level: 0,
    able: false,
};

pub const SPACED: SpacedRow = SpacedRow { rate: 300, left: 0 };
