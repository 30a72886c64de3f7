// A tariff year and what it is made of.
ghost use Rattle.std.specs.Prelude.{◌≡◌, IfOk};
ghost use Rattle.year_model.specs.Sound.{CategoriesKnown, FixingsWhole, IsSound, TermsDated};
ghost use Rattle.year_model.specs.State.{begun, view};
ghost use Rattle.tariff_year.specs.Years.{Roomy};

use crate::basis::Basis;
use calendar::CalendarYear;
use edition::Edition;
use sharing::SharingRule;
use std::alloc::{AllocError, Global};
use year_model::Tables;

// The most systems, couplings and contracts.
pub const MOST_SYSTEMS: usize = 64;

pub const MOST_COUPLINGS: usize = 256;

pub const MOST_CONTRACTS: usize = 256;

// Made of a calendar year, an edition, a sharing rule and a book number. The tables are reserved when it is made, so that
// no later call can fail for want of memory.
#[derive(Drop)]
pub struct TariffYear<E: Edition, R: SharingRule> {
    pub(crate) basis: Basis<E, R>,
    pub(crate) tables: Tables,
    ghost roomy: { Roomy tables },
    ghost sound: { IsSound (view tables) },
    ghost dated: { TermsDated basis.calendar.year (view tables) },
    ghost priced: { FixingsWhole (view tables) },
    ghost known: { CategoriesKnown (E.known basis.edition) (view tables) },
}

impl<E: Edition + Drop, R: SharingRule + Drop> TariffYear<E, R> {
    // A year with nothing in it; only want of memory refuses it.
    pub fn new(
        heap: Global,
        calendar: CalendarYear,
        edition: E,
        rule: R,
        book: u64,
    ) -> Result<TariffYear<E, R>, AllocError>
        ensures { IfOk result (λ y. (view y.tables ≡ begun) × ((y.basis.calendar ≡ calendar) × (y.basis.edition ≡ edition) × (y.basis.rule ≡ rule) × (y.basis.book ≡ book))) }
    {
        let systems = Vec::with_capacity(heap, MOST_SYSTEMS)?;
        let couplings = Vec::with_capacity(heap, MOST_COUPLINGS)?;
        let contracts = Vec::with_capacity(heap, MOST_CONTRACTS)?;
        let tables = Tables {
            systems,
            couplings,
            contracts,
            net: 0,
        };
        let basis = Basis {
            calendar,
            edition,
            rule,
            book,
        };
        Ok(TariffYear { basis, tables })
    }
}
