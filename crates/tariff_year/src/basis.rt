// What a tariff year is made of.
use calendar::CalendarYear;

// The calendar year, the edition, the sharing rule and the number of the book: no call changes them.
#[derive(Drop)]
pub struct Basis<E, R> {
    pub(crate) calendar: CalendarYear,
    pub(crate) edition: E,
    pub(crate) rule: R,
    pub(crate) book: u64,
}
