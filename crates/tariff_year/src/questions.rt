// What the year tells when it is asked. Asking changes nothing.
ghost use Rattle.std.specs.Prelude.{◌≡◌};
ghost use Rattle.year_model.specs.State.{view};
ghost use Rattle.tariff_year.specs.Questions.{asked, counts_of};

use crate::look_up::{bound, listed};
use crate::year::TariffYear;
use billing::LARGEST_NUMBER;
use calendar::CalendarYear;
use edition::Edition;
use refusal::Refusal;
use sharing::SharingRule;
use year_model::{Coupling, System};

// How many entries the tables have.
#[derive(Clone, Copy)]
pub struct Counts {
    pub systems: u64,
    pub couplings: u64,
    pub contracts: u64,
}

impl<E: Edition + Drop, R: SharingRule + Drop> TariffYear<E, R> {
    pub fn calendar_year(&self) -> CalendarYear
        ensures { result ≡ self.now.basis.calendar }
    {
        self.basis.calendar
    }

    pub fn book(&self) -> u64
        ensures { result ≡ self.now.basis.book }
    {
        self.basis.book
    }

    pub fn counts(&self) -> Counts
        ensures { result ≡ counts_of (view self.now.tables) }
    {
        Counts {
            systems: self.tables.systems.len() as u64,
            couplings: self.tables.couplings.len() as u64,
            contracts: self.tables.contracts.len() as u64,
        }
    }

    // The accepted costs less those taken back.
    pub fn net_costs(&self) -> u64
        ensures { result ≡ (view self.now.tables).net }
    {
        self.tables.net
    }

    // The figures of a system.
    pub fn system(&self, number: u64) -> Result<System, Refusal>
        ensures { result ≡ asked (view self.now.tables).systems number }
    {
        found(&self.tables.systems, number)
    }

    // The figures of a coupling.
    pub fn coupling(&self, number: u64) -> Result<Coupling, Refusal>
        ensures { result ≡ asked (view self.now.tables).couplings number }
    {
        found(&self.tables.couplings, number)
    }
}

// The entry with this number, or why there is none.
pub fn found<T: Copy>(entries: &[T], number: u64) -> Result<T, Refusal>
    ensures { result ≡ asked entries.now number }
{
    bound(1, number, LARGEST_NUMBER)?;
    listed(entries, number)
}
