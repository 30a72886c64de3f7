// What lands with consumers becomes tariffs, and tariffs become bills: the arithmetic, on plain numbers.
#![tactic(auto)]

mod charges;
mod fixings;
mod metering;
mod months;

pub use charges::{LARGEST_CHARGE, LARGEST_FEE, LARGEST_KW, twelve_portions, yearly_charge};
pub use edition::CARRIERS;
pub use fixings::{Fixing, LARGEST_NUMBER, LARGEST_TARIFF, work_out_fixing};
pub use metering::{MeteredLine, Rate, metered_line};
pub use months::{MonthCents, share_month};

#[cfg(test)]
mod tests {
    use super::*;
    use edition::Carrier;
    use refusal::{Ground, Refusal};
    use sharing::Running;
    use std::test::Fail;

    fn fixing_ground(landed: u64, percentages: [u64; 4], volumes: [u64; 4]) -> Option<Ground> {
        work_out_fixing(&Running, landed, &percentages, &volumes)
            .err()
            .map(|refusal| refusal.ground)
    }

    #[test]
    fn landed_euros_become_tariffs(rt: HostRuntime) -> Result<(), Fail> {
        let fixing = work_out_fixing(&Running, 1176, &[25, 25, 50, 0], &[500, 4500, 2_000_000, 0])?;
        assert_eq!(rt; fixing.tariffs, [5880, 653, 2, 0]);
        assert_eq!(rt; fixing.tariff(Carrier::Kwmax), 653);
        assert_eq!(rt; fixing.remainders, [0, 1500, 1_880_000, 0]);
        assert_eq!(rt;
            fixing_ground(1, [25, 25, 50, 1], [1, 1, 1, 1]),
            Some(Ground::OutOfBounds)
        );
        assert_eq!(rt;
            fixing_ground(1, [25, 25, 50, 0], [1, 1, 0, 0]),
            Some(Ground::VolumeUnfit)
        );
        assert_eq!(rt;
            fixing_ground(1, [25, 25, 50, 0], [1, 1, 1, 1]),
            Some(Ground::VolumeUnfit)
        );
        assert_eq!(rt;
            fixing_ground(10_001, [0, 0, 0, 100], [0, 0, 0, 1]),
            Some(Ground::TariffTooHigh)
        );
        Ok(())
    }

    #[test]
    fn a_year_is_charged_by_months_and_days(rt: HostRuntime) -> Result<(), Fail> {
        assert_eq!(rt; yearly_charge(44_100, 100, 5880, 0), Ok(49_980));
        assert_eq!(rt;
            yearly_charge(0, 1_000_001, 0, 0),
            Err(Refusal::of(Ground::OutOfBounds))
        );
        assert_eq!(rt;
            yearly_charge(0, 1_000_000, 100_000_000, 0),
            Err(Refusal::of(Ground::ChargeTooHigh))
        );
        let portions = twelve_portions(&Running, 49_980)?;
        assert_eq!(rt; portions, [4165; 12]);
        let january = share_month(&Running, 4165, (15, 16, 0))?;
        assert_eq!(rt; [january.issued, january.waived], [2150, 2015]);
        assert!(rt; share_month(&Running, 4165, (0, 32, 0)).is_err());
        Ok(())
    }

    #[test]
    fn metered_lines_telescope(rt: HostRuntime) -> Result<(), Fail> {
        let january = metered_line(653, Rate::PLAIN, 80, 0)?;
        assert_eq!(rt; [january.cents, january.carry], [522, 40]);
        let february = metered_line(653, Rate::PLAIN, 155, 522)?;
        assert_eq!(rt; [february.cents, february.carry], [490, 15]);
        assert!(rt; metered_line(100_000_001, Rate::PLAIN, 1, 0).is_err());
        let refused = metered_line(100_000_000, Rate::PLAIN, 9_999_999_999, 0).err();
        assert_eq!(rt;
            refused.map(|refusal| refusal.ground),
            Some(Ground::LineTooHigh)
        );
        Ok(())
    }
}
