// A fixing: the euros that landed at a system become tariffs.
ghost use Rattle.std.specs.Prelude.{◌≡◌, ℕ, ◌-◌, ◌<◌, ◌≤◌, IfOk, slice_index};
ghost use Rattle.edition.specs.Carriers.{carrier_number};
ghost use Rattle.billing.specs.Fixings.{FixedWhole, each_carrier, fixing_answer, fixing_out_of_bounds, price, remainder_of, tariff_of, unfit, volumes_unfit};

use edition::{CARRIERS, Carrier, add_up_to_100};
use refusal::{Ground, Refusal};
use sharing::{LARGEST_AMOUNT, SharingRule, any_above, share_out};
use std::array;

// The largest tariff, in ten-thousandths of a euro.
pub const LARGEST_TARIFF: u64 = 100_000_000;

// The largest number that ten columns hold. The rows of a page have the same limit of their own, and know nothing of bills.
pub const LARGEST_NUMBER: u64 = 9_999_999_999;

// Four figures each, carrier 1 first. Tariffs and remainders are in ten-thousandths of a euro.
// A list of each figure, and no list of carriers: callers add up, hand on and compare one figure of all carriers.
#[derive(Clone, Copy)]
pub struct Fixing {
    pub volumes: [u64; CARRIERS],
    pub allotments: [u64; CARRIERS],
    pub tariffs: [u64; CARRIERS],
    pub remainders: [u64; CARRIERS],
}

impl Fixing {
    // The tariff of a carrier.
    pub fn tariff(self, carrier: Carrier) -> u64
        ensures { result ≡ slice_index self.tariffs (carrier_number carrier - 1) }
    {
        self.tariffs[carrier.position()]
    }
}

// A carrier's tariff, and what rounding it down leaves; both are 0 where the carrier is unused.
#[derive(Clone, Copy)]
struct Price {
    tariff: u64,
    remainder: u64,
}

// The price of one carrier.
fn price_of(percentage: u64, euros: u64, volume: u64) -> Price
    requires small { euros ≤ 5_000_000_000 }
    requires fit { 0 < percentage → 0 < volume }
    ensures { result ≡ price percentage euros volume }
{
    if percentage == 0 {
        return Price {
            tariff: 0,
            remainder: 0,
        };
    }
    Price {
        tariff: 10_000 * euros / volume,
        remainder: 10_000 * euros % volume,
    }
}

// Whether a used carrier has no volume, or an unused one has some.
fn is_unfit(percentage: u64, volume: u64) -> bool
    ensures { result ≡ unfit percentage volume }
{
    if percentage == 0 {
        volume > 0
    } else {
        volume == 0
    }
}

// Whether the volume of some carrier does not go with its percentage. The percentages are an edition's and the volumes a
// caller's, so they stay two lists.
fn are_volumes_unfit(percentages: &[u64; CARRIERS], volumes: &[u64; CARRIERS]) -> bool
    ensures { result ≡ volumes_unfit percentages.now volumes.now }
{
    percentages
        .iter()
        .zip(volumes)
        .any(|(percentage, volume)| is_unfit(*percentage, *volume))
}

// The tariffs and the remainders of all carriers.
fn price_all(
    percentages: &[u64; CARRIERS],
    allotments: &[u64; CARRIERS],
    volumes: &[u64; CARRIERS],
) -> ([u64; CARRIERS], [u64; CARRIERS])
    requires small { (k : ℕ) → slice_index allotments.now k ≤ 5_000_000_000 }
    requires fit { (k : ℕ) → k < 4 → 0 < slice_index percentages.now k → 0 < slice_index volumes.now k }
    ensures tariffs { result.0 ≡ each_carrier (λ k. tariff_of (slice_index percentages.now k) (slice_index allotments.now k) (slice_index volumes.now k)) }
    ensures remainders { result.1 ≡ each_carrier (λ k. remainder_of (slice_index percentages.now k) (slice_index allotments.now k) (slice_index volumes.now k)) }
{
    let prices: [Price; CARRIERS] = array::from_fn(|i| price_of(
        percentages[i],
        allotments[i],
        volumes[i],
    ));
    let tariffs = prices.map(|price| price.tariff);
    let remainders = prices.map(|price| price.remainder);
    (tariffs, remainders)
}

// Whether landed euros or a volume are out of bounds, or the percentages miss 100.
fn is_out_of_bounds(landed: u64, percentages: &[u64; CARRIERS], volumes: &[u64; CARRIERS]) -> bool
    ensures { result ≡ fixing_out_of_bounds landed percentages.now volumes.now }
{
    landed > LARGEST_AMOUNT || any_above(LARGEST_NUMBER, volumes) || !add_up_to_100(percentages)
}

// Shares the landed euros over the percentages; a carrier's tariff is its euros divided by its volume.
pub fn work_out_fixing<R: SharingRule>(
    rule: &R,
    landed: u64,
    percentages: &[u64; CARRIERS],
    volumes: &[u64; CARRIERS],
) -> Result<Fixing, Refusal>
    ensures pinned { result ≡ fixing_answer (R.share rule.now) landed percentages.now volumes.now }
    ensures landed_euros_come_back { IfOk result (λ f. FixedWhole landed percentages.now f) }
{
    if is_out_of_bounds(landed, percentages, volumes) {
        return Err(Refusal::of(Ground::OutOfBounds));
    }
    if are_volumes_unfit(percentages, volumes) {
        return Err(Refusal::of(Ground::VolumeUnfit));
    }
    let allotments = share_out::<R, CARRIERS>(rule, landed, percentages)?;
    let (tariffs, remainders) = price_all(percentages, &allotments, volumes);
    if any_above(LARGEST_TARIFF, &tariffs) {
        return Err(Refusal::of(Ground::TariffTooHigh));
    }
    Ok(Fixing {
        volumes: *volumes,
        allotments,
        tariffs,
        remainders,
    })
}
