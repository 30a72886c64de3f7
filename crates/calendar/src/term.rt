// How a month's days lie to a first and a last date.
ghost use Rattle.std.specs.Prelude.{◌≡◌, ◌+◌, ◌≤◌, IfOk};
ghost use Rattle.calendar.specs.Days.{days_of_month};
ghost use Rattle.calendar.specs.Terms.{is_term, split_days, term_answer};

use crate::year::CalendarYear;
use refusal::{Ground, Refusal};

// A first and a last date are two numbers, and no struct: any two are taken and judged against the year, so that a struct
// would promise nothing of them, and callers have them apart.
impl CalendarYear {
    // How many days of the month lie before the first date, from the first to the last, and after the last.
    pub fn month_days(self, first: u64, last: u64, month: u64) -> Result<(u64, u64, u64), Refusal>
        ensures told { result ≡ term_answer self.year first last month }
        ensures whole { IfOk result (λ days. days.0 + days.1 + days.2 ≡ days_of_month self.year month) }
    {
        let days = self.days_of_month(month)?;
        if !self.is_term(first, last) {
            return Err(Refusal::of(Ground::OutOfBounds));
        }
        Ok(counted_days(month, days, first, last))
    }

    // Whether both are days of the year and the last does not come before the first.
    pub fn is_term(self, first: u64, last: u64) -> bool
        ensures { result ≡ is_term self.year first last }
    {
        self.is_day(first) && self.is_day(last) && first <= last
    }
}

// Of the first `days` days of the month: those before `first`, those from `first` to `last`, and those after `last`.
fn counted_days(month: u64, days: u64, first: u64, last: u64) -> (u64, u64, u64)
    requires known { month ≤ 12 }
    requires ordered { first ≤ last }
    ensures { result ≡ split_days month days first last }
{
    let start = month * 100;
    let before = first.saturating_sub(start + 1).min(days);
    let through = last.saturating_sub(start).min(days);
    (before, through - before, days - through)
}
