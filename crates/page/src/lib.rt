// Runs a page of requests against a tariff year, row by row.
#![tactic(auto)]

mod answer;
mod error;
mod first;
mod laws;
mod next;
mod not_yet;
mod page;
mod year;

pub use error::PageError;
pub use laws::{answers_fit, refused_rows_change_nothing};
pub use page::Page;
pub use year::PageYear;
