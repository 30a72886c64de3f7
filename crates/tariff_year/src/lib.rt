// The tariff year of a grid operator: its tables, and the calls that change them.
#![tactic(auto)]

mod basis;
mod bills;
mod books;
mod contract_questions;
mod contracts;
mod drafts;
mod fixes;
mod handing;
mod look_up;
mod obstacles;
mod passes;
mod questions;
mod systems;
mod takers;
mod year;

pub use basis::Basis;
pub use books::Books;
pub use contract_questions::{ContractMonth, DayShare, Metered, Metering};
pub use drafts::{Bill, Draft, DraftNumbers, Unspent};
pub use fixes::Fixed;
pub use passes::{Passed, Settled};
pub use questions::Counts;
pub use year::TariffYear;

#[cfg(test)]
mod tests {
    use super::*;
    use calendar::CalendarYear;
    use edition::Edition2013;
    use refusal::{Ground, Refusal};
    use sharing::Running;
    use std::test::Fail;

    #[test]
    fn systems_are_opened_and_charged(rt: HostRuntime) -> Result<(), Fail> {
        let calendar = CalendarYear::new(2026)?;
        let mut year = TariffYear::new(rt.alloc(), calendar, Edition2013, Running, 0)?;
        assert_eq!(rt; year.open(5, 4), Ok(1));
        assert_eq!(rt; year.open(7, 5), Ok(2));
        assert_eq!(rt; year.couple(1, 2, 600, 3000), Ok(1));
        assert_eq!(rt; year.cost(1, 1_001), Ok(1_001));
        assert_eq!(rt;
            year.take_back(1, 1_002),
            Err(Refusal::of(Ground::MoreThanStands))
        );
        assert_eq!(rt; year.take_back(1, 1), Ok(1_000));
        assert_eq!(rt; year.net_costs(), 1_000);
        Ok(())
    }
}
