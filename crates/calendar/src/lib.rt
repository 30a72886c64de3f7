// The calendar: which numbers are days of a year, and how a month's days lie to a first and a last date.
#![tactic(auto)]

mod laws;
mod term;
mod year;

pub use laws::calendar_laws_hold;
pub use year::{CalendarYear, month_of};

#[cfg(test)]
mod tests {
    use super::*;
    use refusal::{Ground, Refusal};
    use std::test::Fail;

    #[test]
    fn every_fourth_year_has_29_february(rt: HostRuntime) -> Result<(), Fail> {
        let leap = CalendarYear::new(2028)?;
        assert!(rt; leap.is_day(229));
        assert_eq!(rt; leap.days(), 366);
        assert_eq!(rt; leap.days_of_month(2), Ok(29));
        let plain = CalendarYear::new(2026)?;
        assert!(rt; !plain.is_day(229));
        assert_eq!(rt; plain.days(), 365);
        Ok(())
    }

    #[test]
    fn a_month_is_split_by_a_term(rt: HostRuntime) -> Result<(), Fail> {
        let year = CalendarYear::new(2026)?;
        assert_eq!(rt; year.month_days(116, 1231, 1), Ok((15, 16, 0)));
        assert_eq!(rt; year.month_days(116, 220, 2), Ok((0, 20, 8)));
        assert_eq!(rt; year.month_days(116, 116, 3), Ok((0, 0, 31)));
        assert_eq!(rt; year.month_days(731, 731, 7), Ok((30, 1, 0)));
        Ok(())
    }

    #[test]
    fn the_calendar_refuses(rt: HostRuntime) -> Result<(), Fail> {
        let refused = Refusal::of(Ground::OutOfBounds);
        assert!(rt; CalendarYear::new(1999).is_err());
        assert!(rt; CalendarYear::new(2100).is_err());
        let year = CalendarYear::new(2026)?;
        assert_eq!(rt; year.days_of_month(13), Err(refused));
        assert_eq!(rt; year.month_days(101, 1231, 0), Err(refused));
        assert_eq!(rt; year.month_days(229, 1231, 3), Err(refused));
        assert_eq!(rt; year.month_days(301, 228, 2), Err(refused));
        Ok(())
    }
}
