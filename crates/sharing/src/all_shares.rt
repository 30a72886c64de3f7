// All shares of an amount at once.
ghost use Rattle.std.specs.Prelude.{◌≡◌, IfOk, sum};
ghost use Rattle.sharing.specs.ShareOut.{share_out_answer};

use crate::rule::SharingRule;
use refusal::{Ground, Refusal};

// The shares of all positions in the first of N places, and 0 in the others. The rule is asked once a position.
pub fn share_out<R: SharingRule, const N: usize>(
    rule: &R,
    amount: u64,
    weights: &[u64],
) -> Result<[u64; N], Refusal>
    ensures pinned { result ≡ share_out_answer N R.LONGEST (R.share rule.now) amount weights.now }
    ensures whole { IfOk result (λ shares. sum shares ≡ amount) }
{
    if weights.len() > N {
        return Err(Refusal::of(Ground::ListTooLong));
    }
    if weights.is_empty() {
        return Err(Refusal::of(Ground::OutOfBounds));
    }
    let mut shares = [0; N];
    for (position, share) in shares[..weights.len()].iter_mut().enumerate() {
        *share = rule.share(amount, weights, position)?;
    }
    Ok(shares)
}
