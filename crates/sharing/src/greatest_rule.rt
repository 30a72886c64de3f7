// The rule of the greatest remainder: shares are rounded down, and the euros left over go one each to the
// greatest remainders, the lower position first among equals.
ghost use Rattle.std.specs.Prelude.{◌≡◌, ◌*◌, ◌/◌, sum_by};
ghost use Rattle.sharing.specs.Greatest.{ahead, greatest_share, left_over, rank};
ghost use Rattle.sharing.specs.GreatestLaw.{greatest_law};
ghost use Rattle.std.proofs.Math.Nat.{le-add_right};

use crate::admitted::Admitted;
use crate::rule::SharingRule;
use refusal::Refusal;

#[derive(Clone, Copy)]
pub struct GreatestRemainder;

impl SharingRule for GreatestRemainder {
    const LONGEST: usize = 20;

    ghost LONGEST = { 20 };

    ghost share = { λ _. greatest_share };

    ghost twelve = { le-add_right 12 8 };

    ghost sharing = { λ rule. greatest_law 20 };

    fn share(&self, amount: u64, weights: &[u64], position: usize) -> Result<u64, Refusal> {
        let asked = Admitted::new(Self::LONGEST, amount, weights, position)?;
        let rounded = asked.part_of(asked.own_weight());
        if asked.rank() < asked.euros_left() {
            Ok(rounded + 1)
        } else {
            Ok(rounded)
        }
    }
}

impl Admitted<'_> {
    // The euros left over once every share is rounded down.
    fn euros_left(&self) -> u64
        ensures { result ≡ left_over self.now.amount self.now.weights.now }
    {
        self.amount - self.rounded_parts()
    }

    // The parts of all weights, each rounded down, together.
    fn rounded_parts(&self) -> u64
        ensures { result ≡ sum_by (λ weight. self.now.amount * weight / self.now.total) self.now.weights.now }
    {
        self.weights
            .iter()
            .map(|weight| self.part_of(*weight))
            .sum()
    }

    // How many positions are served before the one that is asked for.
    fn rank(&self) -> u64
        ensures { result ≡ rank self.now.amount self.now.weights.now self.now.position }
    {
        let own = self.remainder_of(self.own_weight());
        self.weights
            .iter()
            .map(|weight| self.remainder_of(*weight))
            .enumerate()
            .filter(|(other, theirs)| is_ahead(*theirs, *other, own, self.position))
            .count() as u64
    }
}

// Whether the position `other` is served before `position`, by their remainders.
fn is_ahead(theirs: u64, other: usize, own: u64, position: usize) -> bool
    ensures { result ≡ ahead theirs other own position }
{
    theirs > own || theirs == own && other < position
}
