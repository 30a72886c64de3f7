// Answers a page row by row, each answer row at the front of a buffer that is lent.
ghost use Rattle.std.specs.Prelude.{◌≡◌, ◌<◌, ◌≤◌, length, IfOk};
ghost use Rattle.page.specs.Buffers.{Answered, ByMemory, OutOfMemory, buffer_behind, length_told};
ghost use Rattle.page.specs.Runs.{most_answers};

use crate::error::PageError;
use crate::page::Page;
use refusal::{Ground, Refusal};
use rows::{AnswerRow, LONGEST_ROW, Row};
use std::alloc::Global;

// Writes an answer row where there is one, and answers its length, else 0.
fn write_next(answer: Option<AnswerRow>, buffer: &mut [u8]) -> Result<usize, Refusal>
    ensures told { result ≡ length_told (length buffer.old) answer }
    ensures written { buffer.new ≡ buffer_behind answer (length_told (length buffer.old) answer) buffer.old }
    ensures within { IfOk result (λ size. size ≤ length buffer.old) }
{
    match answer {
        Some(answer) => answer.write(buffer),
        None => Ok(0),
    }
}

impl<'a> Page<'a> {
    // Answers the next row: writes its answer row at the front of the buffer, and answers its length, or 0 where no row is
    // left. A buffer under 62 bytes is refused before anything is done or written.
    pub fn answer_next(&mut self, heap: Global, buffer: &mut [u8]) -> Result<usize, PageError>
        ensures answered { ByMemory result (Answered self.old self.new buffer.old buffer.new result) (OutOfMemory self.old self.new buffer.old buffer.new) }
        ensures within { IfOk result (λ size. size ≤ length buffer.old) }
        ensures fewer { IfOk result (λ size. 0 < size → most_answers self.new < most_answers self.old) }
    {
        if buffer.len() < LONGEST_ROW {
            return Err(Refusal::of(Ground::BufferTooSmall).into());
        }
        let answer = self.advance(heap)?;
        Ok(write_next(answer, buffer)?)
    }
}
