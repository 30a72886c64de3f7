// Rows of a page: requests and answers as lines of fields, read and written.
#![tactic(auto)]

mod answer;
mod fault;
mod field;
mod laws;
mod line;
mod page;
mod reader;
mod request;
mod row;

pub use answer::{AnswerRow, Figures};
pub use fault::{FieldFault, Numbered, PageFault, RowFault};
pub use field::LARGEST_NUMBER;
pub use laws::{
    faults_say_what_is_wrong, fields_are_spaces_then_digits, rows_make_the_page,
    written_row_reads_back,
};
pub use line::LONGEST_ROW;
pub use page::{LONGEST_PAGE, judge_length, judge_letter, next_request};
pub use reader::{NumberedRow, Reader};
pub use request::Request;
pub use row::Row;
