// What holds of every row.
ghost use Rattle.page.specs.Laws.{AnswersFit, RefusedRowsChangeNothing};

// A refused row leaves the year as it was, and its answer row has its number.
pub fn refused_rows_change_nothing()
    ensures { RefusedRowsChangeNothing }
{}

// Every number of an answer row fits its field, where the year is sound and the row's number has at most ten digits.
pub fn answers_fit()
    ensures { AnswersFit }
{}
