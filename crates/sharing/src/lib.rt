// Sharing rules: an amount divided over a list of weights in whole euros, told share by share.
#![tactic(auto)]

mod admitted;
mod all_shares;
mod greatest_rule;
mod laws;
mod limits;
mod rule;
mod running_rule;

pub use admitted::{LARGEST_AMOUNT, LARGEST_TOTAL};
pub use all_shares::share_out;
pub use greatest_rule::GreatestRemainder;
pub use laws::sharing_laws_hold;
pub use limits::any_above;
pub use rule::SharingRule;
pub use running_rule::Running;

#[cfg(test)]
mod tests {
    use super::*;
    use refusal::{Ground, Refusal};
    use std::process::Abort;

    fn shares_are<R: SharingRule>(
        rt: &impl Abort,
        rule: &R,
        amount: u64,
        weights: &[u64; 3],
        shares: &[u64; 3],
    ) {
        for (position, share) in shares.iter().enumerate() {
            assert_eq!(rt; rule.share(amount, weights, position), Ok(*share));
        }
    }

    #[test]
    fn odd_euros_fall_by_the_rule(rt: HostRuntime) {
        shares_are(&rt, &Running, 10, &[1, 1, 1], &[3, 3, 4]);
        shares_are(&rt, &GreatestRemainder, 10, &[1, 1, 1], &[4, 3, 3]);
        shares_are(&rt, &Running, 7, &[1, 0, 2], &[2, 0, 5]);
        shares_are(&rt, &GreatestRemainder, 7, &[1, 0, 2], &[2, 0, 5]);
    }

    #[test]
    fn refusals_come_in_their_order(rt: HostRuntime) {
        let out_of_bounds = Err(Refusal::of(Ground::OutOfBounds));
        let too_long = Err(Refusal::of(Ground::ListTooLong));
        let no_weight = Err(Refusal::of(Ground::NoWeight));
        assert_eq!(rt; Running.share(LARGEST_AMOUNT, &[1], 0), Ok(LARGEST_AMOUNT));
        assert_eq!(rt; Running.share(LARGEST_AMOUNT + 1, &[1], 0), out_of_bounds);
        assert_eq!(rt; Running.share(1, &[LARGEST_TOTAL], 0), Ok(1));
        assert_eq!(rt; Running.share(1, &[LARGEST_TOTAL, 1], 0), out_of_bounds);
        assert_eq!(rt; Running.share(1, &[u64::MAX, u64::MAX], 0), out_of_bounds);
        assert_eq!(rt; Running.share(1, &[0; 33], 33), out_of_bounds);
        assert_eq!(rt; Running.share(1, &[0; 33], 32), too_long);
        assert_eq!(rt; GreatestRemainder.share(1, &[0; 21], 20), too_long);
        assert_eq!(rt; GreatestRemainder.share(1, &[0; 20], 19), no_weight);
    }
}
