// Editions: which categories there are, and the percentage of each on the four carriers.
#![tactic(auto)]

mod carrier;
mod edition;
mod edition_2013;
mod entered;
mod laws;
mod row_list;
mod table;

pub use carrier::{CARRIERS, Carrier};
pub use edition::{Edition, percentages};
pub use edition_2013::Edition2013;
pub use entered::EnteredEdition;
pub use laws::edition_laws_hold;
pub use table::add_up_to_100;

#[cfg(test)]
mod tests {
    use super::*;
    use refusal::{Ground, Refusal};
    use std::test::Fail;

    #[test]
    fn the_table_of_2013(rt: HostRuntime) -> Result<(), Fail> {
        assert_eq!(rt; percentages(&Edition2013, 3)?, [50, 50, 0, 0]);
        assert_eq!(rt; percentages(&Edition2013, 4)?, [25, 25, 50, 0]);
        assert_eq!(rt; percentages(&Edition2013, 5)?, [0, 0, 0, 100]);
        assert!(rt; !Edition2013.knows(6));
        Ok(())
    }

    #[test]
    fn a_carrier_is_judged_before_a_category(rt: HostRuntime) {
        assert_eq!(rt;
            Edition2013.percent(6, 5),
            Err(Refusal::of(Ground::OutOfBounds))
        );
        assert_eq!(rt;
            Edition2013.percent(6, 4),
            Err(Refusal::of(Ground::UnknownCategory))
        );
    }

    #[test]
    fn entered_rows_add_up_to_a_hundred(rt: HostRuntime) {
        let mut edition = EnteredEdition::new();
        assert_eq!(rt; edition.enter(99, [10, 20, 30, 40]), Ok(()));
        assert_eq!(rt;
            edition.enter(98, [10, 20, 30, 41]),
            Err(Refusal::of(Ground::OutOfBounds))
        );
        assert_eq!(rt;
            edition.enter(97, [u64::MAX, 101, 0, 0]),
            Err(Refusal::of(Ground::OutOfBounds))
        );
        assert_eq!(rt;
            edition.enter(99, [100, 0, 0, 0]),
            Err(Refusal::of(Ground::OutOfBounds))
        );
        assert_eq!(rt;
            edition.enter(100, [100, 0, 0, 0]),
            Err(Refusal::of(Ground::OutOfBounds))
        );
        assert_eq!(rt; edition.percent(99, 3), Ok(30));
        assert!(rt; !edition.knows(98));
    }

    #[test]
    fn there_is_no_ninth_category(rt: HostRuntime) {
        let mut edition = EnteredEdition::new();
        for category in 1..9 {
            assert_eq!(rt; edition.enter(category, [100, 0, 0, 0]), Ok(()));
        }
        assert_eq!(rt;
            edition.enter(9, [100, 0, 0, 0]),
            Err(Refusal::of(Ground::TableFull))
        );
        assert_eq!(rt;
            edition.enter(8, [100, 0, 0, 0]),
            Err(Refusal::of(Ground::OutOfBounds))
        );
    }
}
