// What a row asks, the call that it makes of the year, and its answer row.
ghost use Rattle.std.specs.Prelude.{◌≡◌};
ghost use Rattle.tariff_year.specs.Years.{told_number};
ghost use Rattle.page.specs.Answers.{asked_in, call_of, replied, reply_row, state_after_call, year_answers, year_behind};
ghost use Rattle.page.specs.Reached.{page_makings};

use crate::not_yet::is_not_yet;
use crate::year::PageYear;
use refusal::{Ground, Refusal};
use rows::{AnswerRow, Figures, Numbered, NumberedRow, PageFault, Request, RowFault};

// What a row asks, or what is wrong with it: the letter is judged before all else.
fn request_in(row: NumberedRow<'_>) -> Result<Request, Numbered<RowFault>>
    ensures { result ≡ asked_in row.entry.number row.entry.bytes.now }
{
    if is_not_yet(row.bytes) {
        return Err(Numbered {
            row: row.number,
            fault: RowFault::Letter,
        });
    }
    row.request()
}

// The answer row of what a call told, for the row with this number.
fn row_of(number: u64, reply: Result<u64, Refusal>) -> AnswerRow
    ensures { result ≡ reply_row number (told_number reply) }
{
    match reply {
        Ok(told) => AnswerRow::Told(Figures::One(told)),
        Err(refusal) => AnswerRow::refused(number, refusal),
    }
}

impl PageYear {
    // Makes the call that a request asks for, if there is one.
    fn call(&mut self, request: Request) -> Result<u64, Refusal>
        ensures told { told_number result ≡ replied (page_makings self.old.calendar) self.old.state (call_of request) }
        ensures state { self.new.state ≡ state_after_call (page_makings self.old.calendar) self.old.state (call_of request) }
        ensures kept { self.new.calendar ≡ self.old.calendar }
    {
        match request {
            Request::Open { level, category } => self.open(level, category),
            Request::Couple {
                upper,
                lower,
                kw,
                mwh,
            } => self.couple(upper, lower, kw, mwh),
            Request::Use {
                system,
                kw,
                mwh,
                permille,
            } => self.use_system(system, kw, mwh, permille),
            Request::Cost { system, euros } => self.cost(system, euros),
            Request::TakeBack { system, euros } => self.take_back(system, euros),
            Request::CalendarYear { .. }
            | Request::Pass { .. }
            | Request::Settle
            | Request::Fix { .. }
            | Request::Contract { .. }
            | Request::Start { .. } => Err(Refusal::of(Ground::UnknownLetter)),
        }
    }

    // Carries out what a row asks, and answers its answer row; a refused row changes nothing.
    #[tactic(auto, unfolding(crate::specs::Answers::row_answered, crate::specs::Answers::state_behind))]
    pub fn answer(&mut self, row: NumberedRow<'_>) -> AnswerRow
        ensures answer { result ≡ year_answers self.old row.entry.number row.entry.bytes.now }
        ensures behind { self.new ≡ year_behind self.old row.entry.number row.entry.bytes.now }
    {
        match request_in(row) {
            Ok(request) => row_of(row.number, self.call(request)),
            Err(fault) => PageFault::InRow(fault).answer(),
        }
    }
}
