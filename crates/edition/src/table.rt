// A table of percentages: one row a category, four carriers each.
ghost use Rattle.std.specs.Prelude.{◌≡◌, ◌==◌, sum};
ghost use Rattle.edition.specs.Editions.{percent_answer};
ghost use Rattle.edition.specs.Tables.{known_in, percent_in, row_of, row_sum};

use crate::carrier::{CARRIERS, Carrier};
use refusal::{Ground, Refusal};

// The percentages of a category on the carriers 1 to 4, in their order.
#[derive(Clone, Copy)]
pub struct Row {
    pub category: u64,
    pub percentages: [u64; CARRIERS],
}

// Whether the four percentages of the row add up to 100.
pub fn adds_up(row: Row) -> bool
    ensures { result ≡ (row_sum row == 100) }
{
    add_up_to_100(&row.percentages)
}

// Whether these percentages add up to 100; a total that 64 bits do not hold is not 100.
pub fn add_up_to_100(percentages: &[u64]) -> bool
    ensures { result ≡ (sum percentages.now == 100) }
{
    percentages
        .iter()
        .try_fold(0u64, |total, percentage| total.checked_add(*percentage))
        == Some(100)
}

// The row of this category, if it stands in the table.
pub fn row_of(rows: &[Row], category: u64) -> Option<Row>
    ensures { result ≡ row_of rows.now category }
{
    rows.iter().copied().find(|row| row.category == category)
}

// Whether the category stands in the table.
pub fn is_known(rows: &[Row], category: u64) -> bool
    ensures { result ≡ known_in rows.now category }
{
    row_of(rows, category).is_some()
}

// The percentage of this category on this carrier.
pub fn percent_in(rows: &[Row], category: u64, carrier: u64) -> Result<u64, Refusal>
    ensures { result ≡ percent_answer (known_in rows.now) (percent_in rows.now) category carrier }
{
    let carrier = Carrier::try_from(carrier)?;
    let row = row_of(rows, category).ok_or(Refusal::of(Ground::UnknownCategory))?;
    Ok(row.percentages[carrier.position()])
}
