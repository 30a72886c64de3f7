// The tables that a person reads.
ghost use Rattle.std.specs.Prelude.{◌≡◌, ◌*◌, nat_lt};

use number_lines::{Outcome, sum_of};
use sharing::{GreatestRemainder, Running, SharingRule, share_out};
use std::io;

// The most weights that a line may have.
pub const MOST_WEIGHTS: usize = 64;

// Shows the amount shared by both rules. The line is answered if at least one of them shared it. Amount and weights stand
// apart, as the sharing rules take them.
pub fn show_line(rt: &HostRuntime, amount: u64, weights: &[u64]) -> io::Result<Outcome> {
    let count = weights.len();
    println!(rt; "{amount} euros over {count} weights")?;
    let running = show_rule(rt, "running rule", &Running, amount, weights)?;
    let greatest = show_rule(
        rt,
        "greatest remainder",
        &GreatestRemainder,
        amount,
        weights,
    )?;
    println!(rt)?;
    Ok(running.or(greatest))
}

// Shows the amount shared by one rule, or why the rule refuses. Each program does this in words of its own; only the outcome is
// the same.
fn show_rule<R: SharingRule>(
    rt: &HostRuntime,
    name: &str,
    rule: &R,
    amount: u64,
    weights: &[u64],
) -> io::Result<Outcome> {
    match share_out::<R, MOST_WEIGHTS>(rule, amount, weights) {
        Ok(shares) => {
            println!(rt; "  {name}")?;
            show_shares(rt, amount, weights, &shares)?;
            Ok(Outcome::Answered)
        }
        Err(refusal) => {
            println!(rt; "  {name}: {refusal}")?;
            Ok(Outcome::Refused)
        }
    }
}

// One line a position, and the sums below.
fn show_shares(rt: &HostRuntime, amount: u64, weights: &[u64], shares: &[u64]) -> io::Result<()> {
    let total = sum_of(weights);
    let sum = sum_of(shares);
    println!(rt; "    position      weight       share")?;
    for (position, (weight, share)) in weights.iter().zip(shares).enumerate() {
        let mark = if is_odd(amount, *weight, total, *share) {
            "  odd euro"
        } else {
            ""
        };
        println!(rt; "    {position:>8}  {weight:>10}  {share:>10}{mark}")?;
    }
    println!(rt; "         sum  {total:>10}  {sum:>10}")
}

// Whether a share is above the proportion of its weight, so that an odd euro fell to it.
fn is_odd(amount: u64, weight: u64, total: u64, share: u64) -> bool
    ensures { result ≡ nat_lt (amount * weight) (share * total) }
{
    u128::from(amount) * u128::from(weight) < u128::from(share) * u128::from(total)
}
