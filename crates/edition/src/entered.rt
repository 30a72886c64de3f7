// An edition whose categories are entered one by one.
ghost use Rattle.std.specs.Prelude.{◌≡◌, ◌≤◌, [], length};
ghost use Rattle.edition.specs.Entered.{CategoriesWithin, NoCategoryTwice, RowsWhole, enter_answer, fits_table, rows_after, no_row};
ghost use Rattle.edition.specs.RowLists.{listed};
ghost use Rattle.edition.specs.Tables.{known_in, percent_in, row_sum};
ghost use Rattle.std.proofs.ByRecursion.{All-from_get_or};
ghost use Rattle.edition.specs.WholeRows.{hundred_in};

use crate::carrier::CARRIERS;
use crate::edition::Edition;
use crate::row_list::RowList;
use crate::table::{Row, adds_up, is_known, percent_in};
use refusal::{Ground, Refusal};

// Each row adds up to 100, the categories are 1 to 99, and none stands twice.
#[derive(Clone, Copy)]
pub struct EnteredEdition {
    rows: RowList,
    ghost within: { length (listed rows) ≤ 8 },
    ghost whole: { RowsWhole (listed rows) },
    ghost categories: { CategoriesWithin (listed rows) },
    ghost once: { NoCategoryTwice (listed rows) },
}

impl EnteredEdition {
    // An edition that knows no category yet.
    pub fn new() -> EnteredEdition
        ensures { listed result.rows ≡ [] }
    {
        EnteredEdition {
            rows: RowList::new(),
        }
    }

    // Adds a category with its percentages on the carriers 1 to 4; what is refused changes nothing.
    pub fn enter(&mut self, category: u64, percentages: [u64; CARRIERS]) -> Result<(), Refusal>
        ensures told { result ≡ enter_answer (listed self.old.rows) (record { category = category; percentages = percentages }) }
        ensures after { listed self.new.rows ≡ rows_after (listed self.old.rows) (record { category = category; percentages = percentages }) }
    {
        let row = Row {
            category,
            percentages,
        };
        if !fits_table(self.rows.as_slice(), row) {
            return Err(Refusal::of(Ground::OutOfBounds));
        }
        if self.rows.is_full() {
            return Err(Refusal::of(Ground::TableFull));
        }
        self.rows.push(row);
        Ok(())
    }
}

// Whether the row may be added to these.
fn fits_table(rows: &[Row], row: Row) -> bool
    ensures { result ≡ fits_table rows.now row }
{
    row.category >= 1 && row.category <= 99 && adds_up(row) && !is_known(rows, row.category)
}

impl Edition for EnteredEdition {
    ghost known = { λ e. known_in (listed e.rows) };

    ghost percent = { λ e. percent_in (listed e.rows) };

    ghost hundred = { λ edition.
        let rows = listed edition.rows in
        hundred_in rows (All-from_get_or (λ row. row_sum row ≡ 100) rows no_row edition.whole) };

    fn knows(&self, category: u64) -> bool {
        is_known(self.rows.as_slice(), category)
    }

    fn percent(&self, category: u64, carrier: u64) -> Result<u64, Refusal> {
        percent_in(self.rows.as_slice(), category, carrier)
    }
}
