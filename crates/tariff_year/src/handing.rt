// Handing euros down along couplings.
ghost use Rattle.std.specs.Prelude.{◌≡◌, ℕ, ◌≤◌, length, slice_index, slice_index_or};
ghost use Rattle.year_model.specs.Passes.{handed_down};
ghost use Rattle.year_model.specs.Systems.{below_count};
ghost use Rattle.tariff_year.specs.Takings.{LeadWithin, blank_system, leading_down};

use passing::MOST_TAKERS;
use year_model::{Coupling, System};

// What each taker but the consumers received stands at the lower system of its coupling.
pub fn hand_down(
    systems: &mut [System],
    couplings: &[Coupling],
    upper: u64,
    received: &[u64; MOST_TAKERS],
)
    requires lead { LeadWithin (length systems.old) couplings.now }
    requires few { below_count couplings.now upper ≤ 31 }
    requires standing { (k : ℕ) → (slice_index_or systems.old k blank_system).standing ≤ 5_000_000_000 }
    requires received { (k : ℕ) → slice_index received.now k ≤ 5_000_000_000 }
    ensures { systems.new ≡ handed_down (λ taker. slice_index received.now taker) 1 (leading_down couplings.now upper) systems.old }
{
    let below = couplings.iter().filter(|coupling| coupling.upper == upper);
    for (coupling, euros) in below.zip(&received[1..]) {
        systems[(coupling.lower - 1) as usize].standing += *euros;
    }
}
