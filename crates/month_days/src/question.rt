// A line of three numbers.
use number_lines::{LineFault, read_numbers};
use std::alloc::Global;
use thiserror::Error;

// A calendar year, and the first and the last date of a term in it.
#[derive(Clone, Copy)]
pub struct Question {
    pub year: u64,
    pub first: u64,
    pub last: u64,
}

// Why a line is no question.
#[derive(Clone, Copy, Debug, Error)]
pub enum Fault {
    #[error(transparent)]
    Line(#[from] LineFault),
    #[error("fewer than three numbers stand on the line")]
    TooFewNumbers,
}

// The question on a line, or None where the line is blank.
pub fn read_question(heap: Global, line: &[u8]) -> Result<Option<Question>, Fault> {
    let numbers = read_numbers(heap, line, 3)?;
    match numbers.as_slice() {
        [] => Ok(None),
        [year, first, last] => Ok(Some(Question {
            year: *year,
            first: *first,
            last: *last,
        })),
        _ => Err(Fault::TooFewNumbers),
    }
}
