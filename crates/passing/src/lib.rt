// A pass worked out on plain numbers: where every euro that stands at a system goes.
#![tactic(auto)]

mod columns;
mod figures;
mod pass;
mod work_out;

pub use figures::{LARGEST_FLOW, PassFigures};
pub use pass::{Column, MOST_TAKERS, Pass};
pub use work_out::work_out_pass;

#[cfg(test)]
mod tests {
    use super::*;
    use refusal::Ground;
    use sharing::{GreatestRemainder, Running};
    use std::test::Fail;

    fn ground_of(amount: u64, permille: u64, kws: &[u64], mwhs: &[u64]) -> Option<Ground> {
        let figures = PassFigures {
            amount,
            permille,
            kws,
            mwhs,
        };
        work_out_pass(&Running, &figures)
            .err()
            .map(|refusal| refusal.ground)
    }

    #[test]
    fn a_pass_is_worked_out(rt: HostRuntime) -> Result<(), Fail> {
        let figures = PassFigures {
            amount: 1001,
            permille: 500,
            kws: &[400, 600],
            mwhs: &[1000, 3000],
        };
        let pass = work_out_pass(&Running, &figures).map_err(|_| "refused")?;
        assert_eq!(rt; [pass.kw.part, pass.mwh.part], [500, 501]);
        assert_eq!(rt; [pass.received[0], pass.received[1]], [325, 676]);
        let pass = work_out_pass(&GreatestRemainder, &figures).map_err(|_| "refused")?;
        assert_eq!(rt; [pass.received[0], pass.received[1]], [325, 676]);
        Ok(())
    }

    #[test]
    fn passes_are_refused(rt: HostRuntime) {
        assert_eq!(rt; ground_of(5_000_000_000, 500, &[1], &[1]), None);
        assert_eq!(rt;
            ground_of(5_000_000_001, 500, &[1], &[1]),
            Some(Ground::OutOfBounds)
        );
        assert_eq!(rt; ground_of(1, 1_001, &[1], &[1]), Some(Ground::OutOfBounds));
        assert_eq!(rt;
            ground_of(1, 500, &[30_000_001], &[1]),
            Some(Ground::OutOfBounds)
        );
        assert_eq!(rt; ground_of(1, 500, &[1, 1], &[1]), Some(Ground::OutOfBounds));
        assert_eq!(rt; ground_of(1, 500, &[], &[]), Some(Ground::OutOfBounds));
        assert_eq!(rt;
            ground_of(1, 1_000, &[0; 33], &[0; 33]),
            Some(Ground::ListTooLong)
        );
        assert_eq!(rt; ground_of(1, 1, &[0], &[1]), Some(Ground::NoWeight));
        assert_eq!(rt; ground_of(1, 0, &[0], &[1]), None);
    }
}
