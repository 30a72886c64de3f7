// The exact proportion of a taker, and how far what it received lies from that.
ghost use Rattle.std.specs.Prelude.{◌≡◌, ◌-◌, ◌*◌, ◌≤◌, IfSome, sum};
ghost use Rattle.passing.specs.Proportion.{all_of, denominator, numerator};

use crate::fraction::Fraction;
use passing::PassFigures;

// The amount times permille and kW over all kW, plus the amount times the rest and MWh over all MWh, divided by 1,000.
// None where the figures do not fit.
pub fn exact_proportion(figures: &PassFigures<'_>, taker: usize) -> Option<(u128, u128)>
    ensures { IfSome result (λ f. (f.0 ≡ numerator figures.now.amount figures.now.permille figures.now.kws.now figures.now.mwhs.now taker) × (f.1 ≡ denominator figures.now.permille figures.now.kws.now figures.now.mwhs.now)) }
{
    let permille = figures.permille;
    let rest = 1_000u64.checked_sub(permille)?;
    let kw = *figures.kws.get(taker)?;
    let mwh = *figures.mwhs.get(taker)?;
    let all_kw = all_of(permille, figures.kws)?;
    let all_mwh = all_of(rest, figures.mwhs)?;
    let by_kw = product(permille, kw, all_mwh)?;
    let by_mwh = product(rest, mwh, all_kw)?;
    let weighed = by_kw.checked_add(by_mwh)?;
    let above = u128::from(figures.amount).checked_mul(weighed)?;
    let below = u128::from(1_000u64).checked_mul(all_kw.checked_mul(all_mwh)?)?;
    Some((above, below))
}

// All takers' weights together, or 1 where the factor is 0.
fn all_of(factor: u64, weights: &[u64]) -> Option<u128>
    ensures { IfSome result (λ n. n ≡ all_of factor weights.now) }
{
    if factor == 0 {
        return Some(1);
    }
    weights
        .iter()
        .try_fold(0u128, |all, weight| all.checked_add(u128::from(*weight)))
}

// A factor times a weight times what all weigh.
fn product(factor: u64, weight: u64, all: u128) -> Option<u128>
    ensures { IfSome result (λ n. n ≡ factor * (weight * all)) }
{
    u128::from(factor).checked_mul(u128::from(weight).checked_mul(all)?)
}

// What was received less the proportion.
pub fn difference(received: u64, above: u128, below: u128) -> Option<Fraction> {
    let got = u128::from(received).checked_mul(below)?;
    Fraction::new(got < above, got.abs_diff(above), below)
}
