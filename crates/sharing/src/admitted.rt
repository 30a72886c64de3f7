// What a rule is asked and does not refuse.
ghost use Rattle.std.specs.Prelude.{◌≡◌, ◌-◌, ◌*◌, ◌/◌, ◌%◌, ◌<◌, ◌≤◌, if◌then◌else◌, length, IfOk, Some, None, sum, nat_lt, slice_index};
ghost use Rattle.std.specs.Result.{result_map_both};
ghost use Rattle.sharing.specs.Sharing.{largest_amount, largest_total, share_answer};

use refusal::{Ground, Refusal};

// The largest amount that is shared.
pub const LARGEST_AMOUNT: u64 = 5_000_000_000;

// The largest total of a list of weights.
pub const LARGEST_TOTAL: u64 = 1_000_000_000;

// An amount to share, the weights and a position among them, with the total of the weights.
#[derive(Clone, Copy)]
pub(crate) struct Admitted<'a> {
    pub amount: u64,
    pub weights: &'a [u64],
    pub position: usize,
    pub total: u64,
    ghost small: { amount ≤ largest_amount },
    ghost within: { position < length weights.now },
    ghost whole: { total ≡ sum weights.now },
    ghost light: { total ≤ largest_total },
    ghost some: { 0 < total },
}

impl<'a> Admitted<'a> {
    // What a rule that takes `longest` weights is asked, where it does not refuse.
    pub(crate) fn new(
        longest: usize,
        amount: u64,
        weights: &'a [u64],
        position: usize,
    ) -> Result<Admitted<'a>, Refusal>
        ensures told { result_map_both (λ asked. asked.total) (λ refusal. refusal) result ≡ share_answer longest (λ _ ws _. sum ws) amount weights.now position }
        ensures as_asked { IfOk result (λ asked. (asked.amount ≡ amount) × ((asked.weights.now ≡ weights.now) × (asked.position ≡ position))) }
    {
        if amount > LARGEST_AMOUNT {
            return Err(Refusal::of(Ground::OutOfBounds));
        }
        let total = bounded_total(weights).ok_or(Refusal::of(Ground::OutOfBounds))?;
        if position >= weights.len() {
            return Err(Refusal::of(Ground::OutOfBounds));
        }
        if weights.len() > longest {
            return Err(Refusal::of(Ground::ListTooLong));
        }
        if total == 0 {
            return Err(Refusal::of(Ground::NoWeight));
        }
        Ok(Admitted {
            amount,
            weights,
            position,
            total,
        })
    }

    // The weight at the position.
    pub(crate) fn own_weight(&self) -> u64
        ensures told { result ≡ slice_index self.now.weights.now self.now.position }
        ensures within { result ≤ self.now.total }
    {
        self.weights[self.position]
    }

    // The part of the amount that `weight` has of the total, rounded down.
    pub(crate) fn part_of(&self, weight: u64) -> u64
        requires { weight ≤ self.now.total }
        ensures { result ≡ self.now.amount * weight / self.now.total }
    {
        self.amount * weight / self.total
    }

    // What rounding down takes from that part.
    pub(crate) fn remainder_of(&self, weight: u64) -> u64
        requires { weight ≤ self.now.total }
        ensures { result ≡ self.now.amount * weight % self.now.total }
    {
        self.amount * weight % self.total
    }
}

// What the weights leave of `LARGEST_TOTAL`, or None where they pass it: one subtraction a weight tells both.
fn room_left(weights: &[u64]) -> Option<u64>
    ensures { result ≡ (if nat_lt largest_total (sum weights.now) then None else Some (largest_total - sum weights.now)) }
{
    weights
        .iter()
        .try_fold(LARGEST_TOTAL, |room, weight| room.checked_sub(*weight))
}

// The total of the weights, or None where it passes `LARGEST_TOTAL`.
fn bounded_total(weights: &[u64]) -> Option<u64>
    ensures { result ≡ (if nat_lt largest_total (sum weights.now) then None else Some (sum weights.now)) }
{
    let room = room_left(weights)?;
    Some(LARGEST_TOTAL.saturating_sub(room))
}
