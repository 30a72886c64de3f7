// An answer as a row: A with the figures told, or R with the ground's number, the row and the place.
ghost use Rattle.std.specs.Prelude.{◌≡◌, ◌≤◌, length, IfOk};
ghost use Rattle.rows.specs.Lines.{Wrote, line as LineOf, numbers_answer};
ghost use Rattle.rows.specs.Told.{AnswersTellApart, NoOtherAnswerIsRead, WrittenAnswersReadBack, answer_bytes, answer_numbers, answer_read, fault_answer, figures_answer, figures_listed, refused_in, refusing_with};

use crate::fault::{FieldFault, PageFault, RowFault};
use crate::field::FIELD_WIDTH;
use crate::line::{letter_of, read_fields, write_line};
use crate::row::Row;
use refusal::{Ground, Refusal};

// One to six figures that a call answers. An enum, since no row has none or seven, and no list is allocated.
#[derive(Clone, Copy, Debug, PartialEq, Eq)]
pub enum Figures {
    One(u64),
    Two(u64, u64),
    Three(u64, u64, u64),
    Four(u64, u64, u64, u64),
    Five(u64, u64, u64, u64, u64),
    Six(u64, u64, u64, u64, u64, u64),
}

// What answers a row of a page. A refusal of the page as a whole has row 0.
#[derive(Clone, Copy, Debug, PartialEq, Eq)]
pub enum AnswerRow {
    Told(Figures),
    Refused {
        ground: Ground,
        row: u64,
        place: u64,
    },
}

impl AnswerRow {
    // The answer row that tells a refusal in the row with this number.
    pub fn refused(row: u64, refusal: Refusal) -> AnswerRow
        ensures { result ≡ refused_in row refusal }
    {
        let Refusal { ground, place } = refusal;
        AnswerRow::Refused { ground, row, place }
    }
}

impl PageFault {
    // The answer row that tells the fault.
    pub fn answer(self) -> AnswerRow
        ensures { result ≡ fault_answer self }
    {
        AnswerRow::refused(self.row(), self.refusal())
    }
}

// The figures in a row, whose length tells how many there are.
#[tactic(auto, unfolding(crate::specs::Told::figures_long))]
fn read_figures(row: &[u8]) -> Result<Figures, RowFault>
    ensures { result ≡ figures_answer row.now }
{
    match row.len() / FIELD_WIDTH {
        1 => {
            let [a] = read_fields::<1>(row)?;
            Ok(Figures::One(a))
        }
        2 => {
            let [a, b] = read_fields::<2>(row)?;
            Ok(Figures::Two(a, b))
        }
        3 => {
            let [a, b, c] = read_fields::<3>(row)?;
            Ok(Figures::Three(a, b, c))
        }
        4 => {
            let [a, b, c, d] = read_fields::<4>(row)?;
            Ok(Figures::Four(a, b, c, d))
        }
        5 => {
            let [a, b, c, d, e] = read_fields::<5>(row)?;
            Ok(Figures::Five(a, b, c, d, e))
        }
        6 => {
            let [a, b, c, d, e, f] = read_fields::<6>(row)?;
            Ok(Figures::Six(a, b, c, d, e, f))
        }
        _ => Err(RowFault::Length),
    }
}

// The refusal in a row, whose first field has to be the number of a ground.
fn read_refused(row: &[u8]) -> Result<AnswerRow, RowFault>
    ensures { result ≡ refusing_with (numbers_answer 3 row.now) }
{
    let [number, row, place] = read_fields::<3>(row)?;
    let ground = Ground::from_number(number).ok_or(FieldFault { place: 1 })?;
    Ok(AnswerRow::Refused { ground, row, place })
}

fn write_figures(figures: Figures, buffer: &mut [u8]) -> Result<usize, Refusal>
    ensures wrote { Wrote (figures_listed figures) (LineOf 65 (figures_listed figures)) buffer.old buffer.new result }
    ensures within { IfOk result (λ size. size ≤ length buffer.old) }
{
    match figures {
        Figures::One(a) => write_line(b'A', &[a], buffer),
        Figures::Two(a, b) => write_line(b'A', &[a, b], buffer),
        Figures::Three(a, b, c) => write_line(b'A', &[a, b, c], buffer),
        Figures::Four(a, b, c, d) => write_line(b'A', &[a, b, c, d], buffer),
        Figures::Five(a, b, c, d, e) => write_line(b'A', &[a, b, c, d, e], buffer),
        Figures::Six(a, b, c, d, e, f) => write_line(b'A', &[a, b, c, d, e, f], buffer),
    }
}

impl Row for AnswerRow {
    ghost numbers = { answer_numbers };

    ghost bytes = { answer_bytes };

    ghost said = { answer_read };

    // A first field of R that is the number of no ground is malformed too.
    #[tactic(auto, unfolding(crate::specs::Told::answer_read))]
    fn read(row: &[u8]) -> Result<AnswerRow, RowFault> {
        match letter_of(row)? {
            'A' => read_figures(row).map(AnswerRow::Told),
            'R' => read_refused(row),
            _ => Err(RowFault::Letter),
        }
    }

    fn write(self, buffer: &mut [u8]) -> Result<usize, Refusal> {
        match self {
            AnswerRow::Told(figures) => write_figures(figures, buffer),
            AnswerRow::Refused { ground, row, place } => {
                write_line(b'R', &[ground.number(), row, place], buffer)
            }
        }
    }

    fn no_other_row_is_read()
        ensures back { WrittenAnswersReadBack }
        ensures only { NoOtherAnswerIsRead }
        ensures apart { AnswersTellApart }
    {}
}
