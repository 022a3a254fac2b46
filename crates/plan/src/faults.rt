ghost use Rattle.std.specs.Prelude.{◌≡◌, Some};
ghost use Rattle.plan.specs.Faults.{error_text};
ghost use Rattle.plan.specs.declared.faults.ReadError.TheVariants.{Broken, OutOfMemory};

use std::alloc::AllocFailed;
use std::error::Error;
use std::fmt;

// Where bytes first break the form of a plan. Lines and fields count from 1.
#[derive(Clone, Copy, PartialEq, Eq, Debug)]
pub struct Break {
    pub line: u64,
    pub field: u64,
}

// Why there is no plan.
#[derive(Clone, Copy, PartialEq, Eq, Debug)]
pub enum ReadError {
    // more bytes than a plan may have
    TooLong,
    Broken(Break),
    OutOfMemory,
}

impl fmt::Display for ReadError {
    ghost output = { λ error. Some (error_text error) };

    fn fmt<W: fmt::Write>(&self, f: &mut fmt::Formatter<W>) -> fmt::Result {
        match self {
            ReadError::TooLong => f.write_str("too long for a plan"),
            ReadError::Broken(Break { line, field }) => write!(
                f,
                "line {line} breaks the form of a plan at field {field}"
            ),
            ReadError::OutOfMemory => f.write_str("out of memory"),
        }
    }
}

impl Error for ReadError {}

// Contracts name the error that `?` makes.
impl From<Break> for ReadError {
    ghost from_gives = { λ b e. e ≡ Broken b };

    fn from(at: Break) -> ReadError {
        ReadError::Broken(at)
    }
}

impl<T: Drop> From<AllocFailed<T>> for ReadError {
    ghost from_gives = { λ _ e. e ≡ OutOfMemory };

    fn from(_refused: AllocFailed<T>) -> ReadError {
        ReadError::OutOfMemory
    }
}
