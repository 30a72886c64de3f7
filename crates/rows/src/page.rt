// A page of rows: its length, the letters of its rows, and the requests in them.
ghost use Rattle.std.specs.Prelude.{◌≡◌, ◌+◌, length, ◌==◌, slice_index};
ghost use Rattle.rows.specs.Judged.{behind, letter_answer, next_answer, page_length_answer, request_answer, row_answer};

use crate::fault::{Numbered, PageFault, RowFault};
use crate::reader::{NumberedRow, Reader};
use crate::request::Request;
use crate::row::Row;

// The longest page, in bytes.
pub const LONGEST_PAGE: usize = 60_000;

// Refuses a page that is too long.
pub fn judge_length(page: &[u8]) -> Result<(), PageFault>
    ensures { result ≡ page_length_answer (length page.now) }
{
    if page.len() > LONGEST_PAGE {
        return Err(PageFault::TooLong);
    }
    Ok(())
}

// Whether a row has the letter of the calendar year.
fn is_calendar_year(row: &[u8]) -> bool
    ensures { result ≡ (slice_index row.now 0 == 89) }
{
    matches!(row, [b'Y', ..])
}

// Refuses a Y elsewhere than in the first row, and a first row that is not Y.
pub fn judge_letter(number: u64, row: &[u8]) -> Result<(), RowFault>
    ensures { result ≡ letter_answer number row.now }
{
    if (number == 1) != is_calendar_year(row) {
        return Err(RowFault::Letter);
    }
    Ok(())
}

// The request in a row at its place in a page.
fn read_in_place(number: u64, row: &[u8]) -> Result<Request, RowFault>
    ensures { result ≡ row_answer number row.now }
{
    judge_letter(number, row)?;
    Request::read(row)
}

impl<'a> NumberedRow<'a> {
    // The request in the row, or what is wrong with it and in which row: the letter is judged first, by the row's number too.
    pub fn request(self) -> Result<Request, Numbered<RowFault>>
        ensures { result ≡ request_answer self.entry.number self.entry.bytes.now }
    {
        let row = self.number;
        read_in_place(row, self.bytes).map_err(|fault| Numbered { row, fault })
    }
}

// The request in the next row, or None at the end of the page.
pub fn next_request<'a>(reader: &mut Reader<'a>) -> Result<Option<Request>, PageFault>
    ensures answer { result ≡ next_answer (reader.old.row + 1) reader.old.left }
    ensures moved { reader.new ≡ behind reader.old }
{
    Ok(reader.next_row().map(|row| row.request()).transpose()?)
}
