// The running rule: a share is what the amount's rounded running part rises by at its position.
ghost use Rattle.std.specs.Prelude.{◌≡◌, ◌≤◌, length, take, sum};
ghost use Rattle.sharing.specs.Running.{running_part, running_share};
ghost use Rattle.sharing.specs.RunningLaw.{running_law};
ghost use Rattle.std.proofs.Math.Nat.{le-add_right};

use crate::admitted::Admitted;
use crate::rule::SharingRule;
use refusal::Refusal;

#[derive(Clone, Copy)]
pub struct Running;

impl SharingRule for Running {
    const LONGEST: usize = 32;

    ghost LONGEST = { 32 };

    ghost share = { λ _. running_share };

    ghost twelve = { le-add_right 12 20 };

    ghost sharing = { λ rule. running_law 32 };

    fn share(&self, amount: u64, weights: &[u64], position: usize) -> Result<u64, Refusal> {
        let asked = Admitted::new(Self::LONGEST, amount, weights, position)?;
        Ok(asked.running_part(asked.position + 1) - asked.running_part(asked.position))
    }
}

impl Admitted<'_> {
    // What the weights before `end` have of the amount, rounded down.
    fn running_part(&self, end: usize) -> u64
        requires { end ≤ length self.now.weights.now }
        ensures { result ≡ running_part self.now.amount self.now.weights.now end }
    {
        self.part_of(self.total_before(end))
    }

    // The total of the weights before `end`.
    fn total_before(&self, end: usize) -> u64
        requires { end ≤ length self.now.weights.now }
        ensures told { result ≡ sum (take end self.now.weights.now) }
        ensures within { result ≤ self.now.total }
    {
        self.weights[..end].iter().sum()
    }
}
