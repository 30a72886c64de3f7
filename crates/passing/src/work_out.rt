// A whole pass.
ghost use Rattle.std.specs.Prelude.{◌≡◌, ℕ, ◌<◌, length, IfOk, Ok, sum, slice_index};
ghost use Rattle.passing.specs.Passing.{Passable, pass_answer, worked_out};
ghost use Rattle.passing.specs.Proportion.{WithinThreeEuros, denominator, numerator};

use crate::columns::{added, share_column};
use crate::figures::PassFigures;
use crate::pass::{MOST_TAKERS, Pass};
use refusal::{Ground, Refusal};
use sharing::{SharingRule, share_out};

// Shares the amount over the permille and the rest of 1,000, then the first part by the takers' kW and the second by
// their MWh.
pub fn work_out_pass<R: SharingRule>(rule: &R, figures: &PassFigures) -> Result<Pass, Refusal>
    ensures pinned { result ≡ pass_answer R.LONGEST (R.share rule.now) figures.now.amount figures.now.permille figures.now.kws.now figures.now.mwhs.now }
    ensures nothing_is_lost { IfOk result (λ pass. sum pass.received ≡ figures.now.amount) }
    ensures near_the_proportion { IfOk result (λ pass. (taker : ℕ) → taker < length figures.now.kws.now → WithinThreeEuros (slice_index pass.received taker) (numerator figures.now.amount figures.now.permille figures.now.kws.now figures.now.mwhs.now taker) (denominator figures.now.permille figures.now.kws.now figures.now.mwhs.now)) }
{
    if figures.are_out_of_bounds() {
        return Err(Refusal::of(Ground::OutOfBounds));
    }
    let takers = figures.kws.len();
    if takers > R::LONGEST || takers > MOST_TAKERS {
        return Err(Refusal::of(Ground::ListTooLong));
    }
    if figures.have_nothing_to_go_by() {
        return Err(Refusal::of(Ground::NoWeight));
    }
    divide(rule, figures)
}

// The pass, where nothing stands against it.
fn divide<R: SharingRule>(rule: &R, figures: &PassFigures) -> Result<Pass, Refusal>
    requires { Passable R.LONGEST figures.now.amount figures.now.permille figures.now.kws.now figures.now.mwhs.now }
    ensures { result ≡ Ok (worked_out (R.share rule.now) figures.now.amount figures.now.permille figures.now.kws.now figures.now.mwhs.now) }
{
    let permille = figures.permille;
    let rest = 1_000 - permille;
    let parts = share_out::<R, 2>(rule, figures.amount, &[permille, rest])?;
    let kw = share_column(rule, permille, parts[0], figures.kws)?;
    let mwh = share_column(rule, rest, parts[1], figures.mwhs)?;
    Ok(Pass {
        takers: figures.kws.len(),
        kw,
        mwh,
        received: added(&kw.shares, &mwh.shares),
    })
}
