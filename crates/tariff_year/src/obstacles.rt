// What stands in the way of settling.
ghost use Rattle.std.specs.Prelude.{◌≡◌, ◌≤◌, not, ◌&&◌, ◌||◌, length, nat_lt};
ghost use Rattle.tariff_year.specs.Obstacles.{first_way};

use refusal::{Ground, Refusal};
use year_model::{Coupling, System};

// The first unfixed system with more takers than the longest list, or with nothing to go by. Two loops left by a label, as
// the project asks here, and so takers are counted where too many of them end the search.
pub fn first_obstacle(longest: usize, systems: &[System], couplings: &[Coupling]) -> Option<Refusal>
    requires some { 1 ≤ longest }
    requires few { length couplings.now ≤ 256 }
    ensures { result ≡ first_way longest couplings.now 1 systems.now }
{
    let found = 'search: {
        for (index, system) in systems.iter().enumerate() {
            if system.fixing.is_some() {
                continue;
            }
            let number = index as u64 + 1;
            let mut takers = 1;
            let mut has_kw = system.kw > 0;
            let mut has_mwh = system.mwh > 0;
            for coupling in couplings {
                if coupling.upper == number {
                    takers += 1;
                    if takers > longest {
                        break 'search Some(Refusal::at(Ground::ListTooLong, number));
                    }
                    has_kw |= coupling.kw > 0;
                    has_mwh |= coupling.mwh > 0;
                }
            }
            if lacks_weight(system.permille, has_kw, has_mwh) {
                break 'search Some(Refusal::at(Ground::NoWeight, number));
            }
        }
        None
    };
    found
}

// Whether a part that is not 0 goes by kW or by MWh that nobody has.
fn lacks_weight(permille: u64, has_kw: bool, has_mwh: bool) -> bool
    ensures { result ≡ (nat_lt 0 permille && not has_kw || nat_lt permille 1000 && not has_mwh) }
{
    permille > 0 && !has_kw || permille < 1_000 && !has_mwh
}
