// A page that is answered row by row.
ghost use Rattle.std.specs.Prelude.{◌≡◌, ◌+◌, ◌^◌, ◌<◌, length, IfOk, MatchResult};
ghost use Rattle.std.specs.Result.{result_map_both};
ghost use Rattle.rows.specs.Judged.{behind};
ghost use Rattle.page.specs.First.{year_row};
ghost use Rattle.page.specs.Runs.{YearLedTo, Went, begun_with, next_answered, next_behind, run_new, run_wanting, standing, standing_new};

use crate::first::read_first;
use crate::year::PageYear;
use calendar::CalendarYear;
use refusal::Refusal;
use rows::{AnswerRow, Figures, PageFault, Reader, judge_length};
use std::alloc::{AllocError, Global};
use std::marker::Model;

// Where the run of a page stands.
#[derive(Drop)]
pub enum Stage {
    // The page is too long, which has yet to be told.
    Refused,
    // No row is answered yet.
    Unbegun,
    Running(PageYear),
    Over,
}

// The stage and the answer row that the first row leads to: a year of the calendar year that it asks for, or none. Only want of
// memory has no answer.
fn begin(
    heap: Global,
    asked: Result<CalendarYear, Refusal>,
) -> Result<(Stage, AnswerRow), AllocError>
    ensures { IfOk result (λ begun. let told = result_map_both (λ y. y.year) (λ e. e) asked in (begun.1 ≡ year_row told) × (standing begun.0 ≡ begun_with told)) }
{
    match asked {
        Ok(calendar) => {
            let year = PageYear::new(heap, calendar)?;
            Ok((
                Stage::Running(year),
                AnswerRow::Told(Figures::One(calendar.days())),
            ))
        }
        Err(refusal) => Ok((Stage::Over, AnswerRow::refused(1, refusal))),
    }
}

// Answers the next row by a year, if a row is left.
fn answer_by(year: &mut PageYear, reader: &mut Reader<'_>) -> Option<AnswerRow>
    ensures answer { result ≡ next_answered year.old.calendar year.old.state (reader.old.row + 1) reader.old.left }
    ensures state { year.new.state ≡ next_behind year.old.calendar year.old.state (reader.old.row + 1) reader.old.left }
    ensures kept { year.new.calendar ≡ year.old.calendar }
    ensures moved { reader.new ≡ behind reader.old }
{
    let row = reader.next_row()?;
    Some(year.answer(row))
}

// A page and where its run stands.
#[derive(Drop)]
pub struct Page<'a> {
    reader: Reader<'a>,
    stage: Stage,
}

impl<'a> Model for Page<'a> {
    ghost use Rattle.page.specs.Runs.{YearLedTo, Run, run_at, standing};

    ghost Value = { Run };

    ghost view = { λ page. run_at (standing page.stage) page.reader };
}

// Where the run of a page of these bytes stands at first.
fn stage_of(page: &[u8]) -> Stage
    ensures { standing result ≡ standing_new (length page.now) }
{
    match judge_length(page) {
        Ok(()) => Stage::Unbegun,
        Err(_) => Stage::Refused,
    }
}

impl<'a> Page<'a> {
    // A page of any bytes and any length, of which no row is answered yet.
    pub fn new(page: &'a [u8]) -> Page<'a>
        ensures { result ≡ run_new page.now }
    {
        Page {
            reader: Reader::new(page),
            stage: stage_of(page),
        }
    }

    // The rows that were answered and those that are left can be counted, so a row's number has room above it.
    pub fn rows_can_be_counted(&self)
        ensures { self.now.reading.row + length self.now.reading.left < 2 ^ 63 }
    {
        self.reader.rows_can_be_counted();
    }

    // While a year answers the rows, what is proved of every list of calls holds of it.
    pub fn is_reached_by_calls(&self)
        ensures { YearLedTo self.now.stands }
    {
        if let Stage::Running(year) = &self.stage {
            year.is_reached_by_calls();
        }
    }

    // The next answer row, or None where the run has no more; where the year cannot be made for want of memory, the run is over.
    pub(crate) fn advance(&mut self, heap: Global) -> Result<Option<AnswerRow>, AllocError>
        ensures { MatchResult result (λ answer. Went self.old self.new answer) (λ _. self.new ≡ run_wanting self.old) }
    {
        match &mut self.stage {
            Stage::Refused => {
                self.stage = Stage::Over;
                Ok(Some(PageFault::TooLong.answer()))
            }
            Stage::Unbegun => {
                self.stage = Stage::Over;
                let (begun, answer) = begin(heap, read_first(&mut self.reader))?;
                self.stage = begun;
                Ok(Some(answer))
            }
            Stage::Running(year) => Ok(answer_by(year, &mut self.reader)),
            Stage::Over => Ok(None),
        }
    }
}
