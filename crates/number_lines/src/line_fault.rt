// What is wrong with a line, and where.
use std::alloc::AllocError;
use thiserror::Error;

// Columns count from 1.
#[derive(Clone, Copy, Debug, PartialEq, Eq, Error)]
pub enum LineFault {
    // a character that is neither a digit nor a blank
    #[error("column {column}: only digits and blanks are read")]
    NoDigit { column: usize },
    // the number that has this digit is too large to hold
    #[error("column {column}: the number is too large")]
    TooLarge { column: usize },
    // more numbers than the reader takes, the first of those too many ending at this column
    #[error("column {column}: more than {most} numbers stand on the line")]
    TooMany { column: usize, most: usize },
    #[error("there is no memory left")]
    NoMemory(#[from(alloc)] AllocError),
}
