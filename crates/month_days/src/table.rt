// The twelve months of a year, each with its days before, in and after a term.
ghost use Rattle.month_days.specs.YearSplit.{YearSplit};

use crate::question::Question;
use calendar::CalendarYear;
use refusal::Refusal;

// The months from January on, or why the calendar refuses.
pub fn split_year(question: Question) -> Result<[(u64, u64, u64); 12], Refusal>
    ensures { YearSplit question.year question.first question.last result }
{
    let year = CalendarYear::new(question.year)?;
    let mut months = [(0, 0, 0); 12];
    for (month, days) in months.iter_mut().enumerate() {
        *days = year.month_days(question.first, question.last, month as u64 + 1)?;
    }
    Ok(months)
}
