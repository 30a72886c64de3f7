// The first row of a page, which asks for the calendar year.
ghost use Rattle.std.specs.Prelude.{◌≡◌, ◌+◌};
ghost use Rattle.std.specs.Result.{result_map_both};
ghost use Rattle.rows.specs.Judged.{behind};
ghost use Rattle.page.specs.First.{first_asked, year_asked, year_of_first};

use calendar::CalendarYear;
use refusal::{Ground, Refusal};
use rows::{PageFault, Reader, Request, next_request};

// The calendar year that a request asks for.
fn year_asked(request: Request) -> Result<CalendarYear, Refusal>
    ensures { result_map_both (λ y. y.year) (λ e. e) result ≡ year_asked request }
{
    let Request::CalendarYear { year } = request else {
        return Err(Refusal::of(Ground::UnknownLetter));
    };
    CalendarYear::new(year).map_err(|_| Refusal::at(Ground::OutOfBounds, 1))
}

// The calendar year that the first row of a page asks for.
fn year_of_first(first: Result<Option<Request>, PageFault>) -> Result<CalendarYear, Refusal>
    ensures { result_map_both (λ y. y.year) (λ e. e) result ≡ year_of_first first }
{
    let request = first?.ok_or(Refusal::of(Ground::UnknownLetter))?;
    year_asked(request)
}

// Reads the first row, and answers the calendar year that it asks for.
#[tactic(auto, unfolding(crate::specs::First::first_asked))]
pub fn read_first(reader: &mut Reader<'_>) -> Result<CalendarYear, Refusal>
    ensures asked { result_map_both (λ y. y.year) (λ e. e) result ≡ first_asked (reader.old.row + 1) reader.old.left }
    ensures moved { reader.new ≡ behind reader.old }
{
    year_of_first(next_request(reader))
}
