// The tariff year that a page runs against.
ghost use Rattle.std.specs.Prelude.{IfOk, ◌≡◌};
ghost use Rattle.year_model.specs.Calls.{call_cost, call_couple, call_open, call_take_back, call_use};
ghost use Rattle.tariff_year.specs.Years.{told_number};
ghost use Rattle.page.specs.Reached.{Called, LedTo, Reached, page_makings, year_new};

use calendar::CalendarYear;
use edition::Edition2013;
use refusal::Refusal;
use sharing::Running;
use std::alloc::{AllocError, Global};
use std::marker::Model;
use tariff_year::TariffYear;

// A year under the edition of 2013 and the running rule, with book 0, whose state a list of calls led to.
#[derive(Drop)]
pub struct PageYear {
    year: TariffYear<Edition2013, Running>,
}

impl Model for PageYear {
    ghost use Rattle.std.specs.Prelude.{◌≡◌};
    ghost use Rattle.year_model.specs.State.{view as state_in};
    ghost use Rattle.page.specs.Reached.{Reached, YearAt, page_makings};

    ghost Value = { YearAt };

    ghost view = { λ it. record { calendar = it.year.basis.calendar.year; state = state_in it.year.tables } };

    ghost invariant = { λ it. (it.year.basis.book ≡ 0) × Reached (page_makings it.year.basis.calendar.year) (state_in it.year.tables) };
}

impl PageYear {
    // A year with nothing in it; only want of memory refuses it.
    pub fn new(heap: Global, calendar: CalendarYear) -> Result<PageYear, AllocError>
        ensures { IfOk result (λ year. year ≡ year_new calendar.year) }
    {
        let year = TariffYear::new(heap, calendar, Edition2013, Running, 0)?;
        Ok(PageYear { year })
    }

    // A list of calls led to the year's state, under the edition of 2013, the running rule and book 0. These are lawful and the
    // state is sound, so that what is proved of every list of calls holds of the year.
    pub fn is_reached_by_calls(&self)
        ensures reached { Reached (page_makings self.now.calendar) self.now.state }
        ensures led_to { LedTo self.now.calendar self.now.state }
    {
        // Where a field is used, the invariant is known.
        let _ = &self.year;
    }

    // One system more at this level and of this category; answers its number.
    pub fn open(&mut self, level: u64, category: u64) -> Result<u64, Refusal>
        ensures { Called self.old (call_open level category) (told_number result) self.new }
    {
        self.year.open(level, category)
    }

    // Joins an upper system to a lower one, with the kW and MWh exchanged; answers the coupling's number.
    pub fn couple(&mut self, upper: u64, lower: u64, kw: u64, mwh: u64) -> Result<u64, Refusal>
        ensures { Called self.old (call_couple upper lower kw mwh) (told_number result) self.new }
    {
        self.year.couple(upper, lower, kw, mwh)
    }

    // Sets a system's consumers' kW and MWh and its permille; answers the system's number.
    pub fn use_system(
        &mut self,
        system: u64,
        kw: u64,
        mwh: u64,
        permille: u64,
    ) -> Result<u64, Refusal>
        ensures { Called self.old (call_use system kw mwh permille) (told_number result) self.new }
    {
        self.year.use_system(system, kw, mwh, permille)
    }

    // Adds euros to those standing at a system; answers the euros now standing.
    pub fn cost(&mut self, system: u64, euros: u64) -> Result<u64, Refusal>
        ensures { Called self.old (call_cost system euros) (told_number result) self.new }
    {
        self.year.cost(system, euros)
    }

    // Removes euros that stand at a system; answers the euros still standing.
    pub fn take_back(&mut self, system: u64, euros: u64) -> Result<u64, Refusal>
        ensures { Called self.old (call_take_back system euros) (told_number result) self.new }
    {
        self.year.take_back(system, euros)
    }
}
