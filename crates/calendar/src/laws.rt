// What holds of every year of the calendar.
ghost use Rattle.calendar.specs.Laws.{CountsAddUp, DaysLieInMonths, MonthsHave28To31, WholeMonthsCountWhole};

// A month has 28 to 31 days, the month of a day is a month, days before, in and after add up to the month, and a month
// within the term counts whole.
pub fn calendar_laws_hold()
    ensures months_have_28_to_31 { MonthsHave28To31 }
    ensures days_lie_in_months { DaysLieInMonths }
    ensures counts_add_up { CountsAddUp }
    ensures whole_months_count_whole { WholeMonthsCountWhole }
{}
