// A calendar year, its months and their days.
ghost use Rattle.std.specs.Prelude.{◌≡◌, ◌≤◌, IfOk, Decides};
ghost use Rattle.std.specs.Result.{result_map_both};
ghost use Rattle.calendar.specs.Days.{DayOfYear, days_of_year, days_of_year_by_months, is_day, is_leap, month_answer, month_of, year_answer};

use refusal::{Ground, Refusal};

// A year from 2000 to 2099.
#[derive(Clone, Copy)]
pub struct CalendarYear {
    year: u64,
    ghost from: { 2000 ≤ year },
    ghost to: { year ≤ 2099 },
}

impl CalendarYear {
    pub fn new(year: u64) -> Result<CalendarYear, Refusal>
        ensures { result_map_both (λ y. y.year) (λ e. e) result ≡ year_answer year }
    {
        if year < 2000 || year > 2099 {
            return Err(Refusal::of(Ground::OutOfBounds));
        }
        Ok(CalendarYear { year })
    }

    pub fn year(self) -> u64
        ensures told { result ≡ self.year }
        ensures within { (2000 ≤ result) × (result ≤ 2099) }
    {
        self.year
    }

    // Whether it has a 29 February, as every fourth year from 2000 has.
    pub fn is_leap(self) -> bool
        ensures { result ≡ is_leap self.year }
    {
        (self.year - 2000) % 4 == 0
    }

    pub fn days(self) -> u64
        ensures told { result ≡ days_of_year self.year }
        ensures by_months { result ≡ days_of_year_by_months self.year }
    {
        if self.is_leap() { 366 } else { 365 }
    }

    // The days of a month, 1 to 12.
    pub fn days_of_month(self, month: u64) -> Result<u64, Refusal>
        ensures told { result ≡ month_answer self.year month }
        ensures bound { IfOk result (λ days. (28 ≤ days) × (days ≤ 31)) }
    {
        match month {
            2 => Ok(if self.is_leap() { 29 } else { 28 }),
            4 | 6 | 9 | 11 => Ok(30),
            1 | 3 | 5 | 7 | 8 | 10 | 12 => Ok(31),
            _ => Err(Refusal::of(Ground::OutOfBounds)),
        }
    }

    // Whether the number is a date of this year, the month times 100 plus the day.
    pub fn is_day(self, date: u64) -> bool
        ensures told { result ≡ is_day self.year date }
        ensures meant { Decides result (DayOfYear self.year date) }
    {
        self.days_of_month(month_of(date))
            .is_ok_and(|days| date % 100 >= 1 && date % 100 <= days)
    }
}

// The month of a date.
pub fn month_of(date: u64) -> u64
    ensures { result ≡ month_of date }
{
    date / 100
}
