// The two columns of a pass.
ghost use Rattle.std.specs.Prelude.{◌≡◌, ℕ, ◌+◌, ◌<◌, ◌≤◌, map, length, Ok, slice_index};
ghost use Rattle.std.specs.List.{range_with_len};
ghost use Rattle.sharing.specs.Sharing.{Sharable};
ghost use Rattle.passing.specs.Passing.{column};

use crate::pass::{Column, MOST_TAKERS};
use refusal::Refusal;
use sharing::{SharingRule, share_out};
use std::array;

// One part shared out over the takers' weights. Where the factor is 0 the rule is not asked.
pub fn share_column<R: SharingRule>(
    rule: &R,
    factor: u64,
    part: u64,
    weights: &[u64],
) -> Result<Column, Refusal>
    requires some { 0 < length weights.now }
    requires room { length weights.now ≤ 32 }
    requires sharable { 0 < factor → Sharable R.LONGEST part weights.now }
    ensures { result ≡ Ok (column (R.share rule.now) factor part weights.now) }
{
    let shares = if factor == 0 {
        [0; MOST_TAKERS]
    } else {
        share_out::<R, MOST_TAKERS>(rule, part, weights)?
    };
    Ok(Column { part, shares })
}

// What each taker gets of both parts together.
pub fn added(kw: &[u64; MOST_TAKERS], mwh: &[u64; MOST_TAKERS]) -> [u64; MOST_TAKERS]
    requires kw_bound { (k : ℕ) → slice_index kw.now k ≤ 5_000_000_000 }
    requires mwh_bound { (k : ℕ) → slice_index mwh.now k ≤ 5_000_000_000 }
    ensures { result ≡ map (λ k. slice_index kw.now k + slice_index mwh.now k) (range_with_len 0 32) }
{
    array::from_fn(|taker| kw[taker] + mwh[taker])
}
