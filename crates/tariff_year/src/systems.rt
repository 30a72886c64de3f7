// Opening, coupling and using systems, and their costs.
ghost use Rattle.std.specs.Prelude.{◌≡◌};
ghost use Rattle.year_model.specs.Calls.{call_cost, call_couple, call_open, call_take_back, call_use};
ghost use Rattle.year_model.specs.State.{view};
ghost use Rattle.year_model.specs.Systems.{below_count, joining_count};
ghost use Rattle.tariff_year.specs.Years.{told_number};

use crate::look_up::{bound, bound_from_1, listed, unfixed};
use crate::year::{MOST_COUPLINGS, MOST_SYSTEMS, TariffYear};
use billing::LARGEST_NUMBER;
use edition::Edition;
use passing::LARGEST_FLOW;
use refusal::{Ground, Refusal};
use sharing::{LARGEST_AMOUNT, SharingRule};
use year_model::{Coupling, System};

// The category with the largest number.
const LARGEST_CATEGORY: u64 = 99;

// The level with the largest number; costs go down to it.
pub const LOWEST_LEVEL: u64 = 7;

// The most couplings below one system.
const MOST_BELOW: u64 = 31;

impl<E: Edition + Drop, R: SharingRule + Drop> TariffYear<E, R> {
    ghost use Rattle.tariff_year.specs.Called.{Called};

    // One system more at this level and of this category; answers its number.
    pub fn open(&mut self, level: u64, category: u64) -> Result<u64, Refusal>
        ensures { Called self.old (call_open level category) (told_number result) self.new }
    {
        bound_from_1(1, level, LOWEST_LEVEL)?;
        bound_from_1(2, category, LARGEST_CATEGORY)?;
        if !self.basis.edition.knows(category) {
            return Err(Refusal::of(Ground::UnknownCategory));
        }
        let count = self.tables.systems.len();
        if count >= MOST_SYSTEMS {
            return Err(Refusal::of(Ground::TableFull));
        }
        self.tables.systems.push_reserved(System {
            level,
            category,
            kw: 0,
            mwh: 0,
            permille: 1_000,
            standing: 0,
            landed: 0,
            fixing: None,
        });
        Ok(count as u64 + 1)
    }

    // Joins an upper system to a lower one, with the kW and MWh exchanged; answers the coupling's number.
    pub fn couple(&mut self, upper: u64, lower: u64, kw: u64, mwh: u64) -> Result<u64, Refusal>
        ensures { Called self.old (call_couple upper lower kw mwh) (told_number result) self.new }
    {
        bound(1, upper, LARGEST_NUMBER)?;
        bound(2, lower, LARGEST_NUMBER)?;
        bound(3, kw, LARGEST_FLOW)?;
        bound(4, mwh, LARGEST_FLOW)?;
        let above = listed(&self.tables.systems, upper)?;
        let below = listed(&self.tables.systems, lower)?;
        let count = self.tables.couplings.len();
        if count >= MOST_COUPLINGS || count_below(&self.tables.couplings, upper) >= MOST_BELOW {
            return Err(Refusal::of(Ground::TableFull));
        }
        if above.fixing.is_some() || below.fixing.is_some() {
            return Err(Refusal::of(Ground::SystemFixed));
        }
        if below.level <= above.level {
            return Err(Refusal::of(Ground::LevelNotLower));
        }
        if count_joining(&self.tables.couplings, upper, lower) > 0 {
            return Err(Refusal::of(Ground::CoupledAlready));
        }
        self.tables.couplings.push_reserved(Coupling {
            upper,
            lower,
            kw,
            mwh,
        });
        Ok(count as u64 + 1)
    }

    // Sets a system's consumers' kW and MWh and its permille; answers the system's number.
    pub fn use_system(
        &mut self,
        system: u64,
        kw: u64,
        mwh: u64,
        permille: u64,
    ) -> Result<u64, Refusal>
        ensures { Called self.old (call_use system kw mwh permille) (told_number result) self.new }
    {
        bound(1, system, LARGEST_NUMBER)?;
        bound(2, kw, LARGEST_FLOW)?;
        bound(3, mwh, LARGEST_FLOW)?;
        bound(4, permille, 1_000)?;
        let old = unfixed(&self.tables.systems, system)?;
        self.tables.systems[(system - 1) as usize] = System {
            kw,
            mwh,
            permille,
            ..old
        };
        Ok(system)
    }

    // Adds euros to those standing at a system; answers the euros now standing.
    pub fn cost(&mut self, system: u64, euros: u64) -> Result<u64, Refusal>
        ensures { Called self.old (call_cost system euros) (told_number result) self.new }
    {
        bound(1, system, LARGEST_NUMBER)?;
        bound(2, euros, LARGEST_AMOUNT)?;
        let old = unfixed(&self.tables.systems, system)?;
        let net = self.tables.net + euros;
        if net > LARGEST_AMOUNT {
            return Err(Refusal::of(Ground::CostsTooHigh));
        }
        let standing = old.standing + euros;
        self.tables.systems[(system - 1) as usize] = System { standing, ..old };
        self.tables.net = net;
        Ok(standing)
    }

    // Removes euros that stand at a system; answers the euros still standing.
    pub fn take_back(&mut self, system: u64, euros: u64) -> Result<u64, Refusal>
        ensures { Called self.old (call_take_back system euros) (told_number result) self.new }
    {
        bound(1, system, LARGEST_NUMBER)?;
        bound(2, euros, LARGEST_AMOUNT)?;
        let old = unfixed(&self.tables.systems, system)?;
        if old.standing < euros {
            return Err(Refusal::of(Ground::MoreThanStands));
        }
        let standing = old.standing - euros;
        self.tables.systems[(system - 1) as usize] = System { standing, ..old };
        self.tables.net -= euros;
        Ok(standing)
    }
}

// How many couplings lead down from this system.
fn count_below(couplings: &[Coupling], upper: u64) -> u64
    ensures { result ≡ below_count couplings.now upper }
{
    couplings
        .iter()
        .map(|coupling| u64::from(coupling.upper == upper))
        .sum()
}

// How many couplings join these two systems.
fn count_joining(couplings: &[Coupling], upper: u64, lower: u64) -> u64
    ensures { result ≡ joining_count couplings.now upper lower }
{
    couplings
        .iter()
        .map(|coupling| u64::from(coupling.upper == upper && coupling.lower == lower))
        .sum()
}
