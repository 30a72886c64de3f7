// The takers of a system when it is passed.
ghost use Rattle.std.specs.Prelude.{◌≡◌, ◌≤◌, ◌∷◌, map};
ghost use Rattle.year_model.specs.Systems.{below_count};
ghost use Rattle.tariff_year.specs.Takings.{leading_down};

use arrayvec::ArrayVec;
use passing::MOST_TAKERS;
use year_model::Coupling;

// Taker 0 is the system's consumers, then come its couplings in order of entry. Two lists, since a pass takes two lists of weights,
// and of a fixed capacity, since none of the year's calls allocates.
#[derive(Drop)]
pub struct Takers {
    pub kws: ArrayVec<u64, MOST_TAKERS>,
    pub mwhs: ArrayVec<u64, MOST_TAKERS>,
}

// The consumers' kW and MWh, and those of each coupling that leads down from the system.
pub fn gather(couplings: &[Coupling], upper: u64, kw: u64, mwh: u64) -> Takers
    requires { below_count couplings.now upper ≤ 31 }
    ensures kws { result.kws.items ≡ kw ∷ map (λ c. c.kw) (leading_down couplings.now upper) }
    ensures mwhs { result.mwhs.items ≡ mwh ∷ map (λ c. c.mwh) (leading_down couplings.now upper) }
{
    let mut kws = ArrayVec::new();
    let mut mwhs = ArrayVec::new();
    kws.push(kw);
    mwhs.push(mwh);
    let below = couplings.iter().filter(|coupling| coupling.upper == upper);
    for coupling in below {
        kws.push(coupling.kw);
        mwhs.push(coupling.mwh);
    }
    Takers { kws, mwhs }
}
