// A page row by row, each a part of the page.
ghost use Rattle.std.specs.Prelude.{◌≡◌, ◌+◌, ◌^◌, ◌<◌, ◌≤◌, [], ◌∷◌, length, take, drop, MatchOption, ◌==◌, position};
ghost use Rattle.rows.specs.Judged.{behind};
ghost use Rattle.rows.specs.Pages.{Reading, rows_of, unread};
ghost use Rattle.std.specs.Iterator.{at_most};

use std::marker::Model;

// A row with its number, counted from 1, and its line feed where it has one.
#[derive(Clone, Copy)]
pub struct NumberedRow<'a> {
    pub number: u64,
    pub bytes: &'a [u8],
}

// Reads a page: `row` rows were handed out, and `rest` is left.
#[derive(Drop)]
pub struct Reader<'a> {
    rest: &'a [u8],
    row: u64,
}

// A reader is seen as how many rows it handed out, and the rows that are left. Each row has a byte, so they can be counted.
impl<'a> Model for Reader<'a> {
    ghost Value = { Reading };

    ghost view = { λ reader. record { row = reader.row; left = rows_of reader.rest.now } };

    ghost invariant = { λ reader. reader.row + length reader.rest.now < 2 ^ 63 };
}

// Where the first line feed stands.
fn first_feed(rest: &[u8]) -> Option<usize>
    ensures { result ≡ position (λ byte. byte == 10) rest.now }
{
    rest.iter().position(|byte| *byte == b'\n')
}

// How many bytes the first row of `rest` has.
fn first_row_len(rest: &[u8]) -> usize
    requires { 0 < length rest.now }
    ensures within { result ≤ length rest.now }
    ensures some { 0 < result }
    ensures first { rows_of rest.now ≡ take result rest.now ∷ rows_of (drop result rest.now) }
{
    first_feed(rest).map_or(rest.len(), |i| i + 1)
}

impl<'a> Reader<'a> {
    // A reader at the start of a page, of any bytes and any length.
    pub fn new(page: &'a [u8]) -> Reader<'a>
        ensures { result ≡ unread page.now }
    {
        Reader { rest: page, row: 0 }
    }

    // The rows that were handed out and those that are left can be counted, so a row's number has room above it.
    pub fn rows_can_be_counted(&self)
        ensures { self.now.row + length self.now.left < 2 ^ 63 }
    {
        // Where a field is used, the invariant is known.
        let _ = &self.rest;
    }

    // The next row, up to and including its line feed, or None at the end of the page.
    pub fn next_row(&mut self) -> Option<NumberedRow<'a>>
        ensures moved { self.new ≡ behind self.old }
        ensures row { MatchOption result (self.old.left ≡ []) (λ row. (row.number ≡ self.old.row + 1) × (self.old.left ≡ row.bytes.now ∷ self.new.left)) }
    {
        if self.rest.is_empty() {
            return None;
        }
        let (bytes, rest) = self.rest.split_at(first_row_len(self.rest));
        self.rest = rest;
        self.row += 1;
        let number = self.row;
        Some(NumberedRow { number, bytes })
    }
}

impl<'a> Iterator for Reader<'a> {
    type Item = NumberedRow<'a>;

    ghost next_gives = { λ s r t. (t ≡ behind s) × MatchOption r (s.left ≡ []) (λ row. (row.number ≡ s.row + 1) × (s.left ≡ row.bytes.now ∷ t.left)) };

    ghost remaining = { λ s. at_most (length s.left) };

    fn next(&mut self) -> Option<NumberedRow<'a>> {
        self.next_row()
    }
}
