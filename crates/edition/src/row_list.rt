// A short list of rows.
ghost use Rattle.std.specs.Prelude.{◌≡◌, ◌<◌, ◌≤◌, [], ◌∷◌, ◌++◌, length, nat_le};

use crate::carrier::CARRIERS;
use crate::table::Row;

// The most rows of a list.
pub const MOST_ROWS: usize = 8;

// The rows before `count`. An array and a count, since neither a Vec nor an ArrayVec is Copy, and a Vec asks for memory.
#[derive(Clone, Copy)]
pub struct RowList {
    rows: [Row; MOST_ROWS],
    count: usize,
    ghost within: { count ≤ 8 },
}

impl RowList {
    ghost use Rattle.edition.specs.RowLists.{listed};

    pub fn new() -> RowList
        ensures { listed result ≡ [] }
    {
        let empty = Row {
            category: 0,
            percentages: [0; CARRIERS],
        };
        RowList {
            rows: [empty; MOST_ROWS],
            count: 0,
        }
    }

    // The rows, as they came.
    pub fn as_slice(&self) -> &[Row]
        ensures { result.now ≡ listed self.now }
    {
        &self.rows[..self.count]
    }

    // Whether no further row fits.
    pub fn is_full(&self) -> bool
        ensures { result ≡ nat_le 8 (length (listed self.now)) }
    {
        self.count >= MOST_ROWS
    }

    // Adds a row at the end.
    pub fn push(&mut self, row: Row)
        requires { length (listed self.old) < 8 }
        ensures { listed self.new ≡ listed self.old ++ row ∷ [] }
    {
        self.rows[self.count] = row;
        self.count += 1;
    }
}
