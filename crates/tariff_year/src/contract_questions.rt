// What the year tells of its contracts when it is asked.
ghost use Rattle.std.specs.Prelude.{◌≡◌, ◌≤◌};
ghost use Rattle.billing.specs.Fixings.{largest_number, largest_tariff};
ghost use Rattle.billing.specs.Metering.{carry_to_date, cents_to_date};
ghost use Rattle.year_model.specs.Bills.{plain_rate};
ghost use Rattle.year_model.specs.State.{view};
ghost use Rattle.tariff_year.specs.Lines.{Billable};
ghost use Rattle.tariff_year.specs.Questions.{asked, contract_month, metering_asked, month_asked, portions_asked};

use crate::bills::tariff;
use crate::look_up::{bound, bound_from_1};
use crate::questions::found;
use crate::year::TariffYear;
use billing::{LARGEST_NUMBER, Rate, metered_line};
use edition::{Carrier, Edition};
use refusal::Refusal;
use sharing::{SharingRule, share_out};
use year_model::Contract;

// A carrier's volume issued to date, and the rest that is carried on, in parts of a cent.
#[derive(Clone, Copy)]
pub struct Metered {
    pub volume: u64,
    pub carry: u64,
}

// Both metered carriers of a contract.
#[derive(Clone, Copy)]
pub struct Metering {
    pub kwmax: Metered,
    pub kwh: Metered,
}

// Some days of a month, and their share of its portion, in cents.
#[derive(Clone, Copy)]
pub struct DayShare {
    pub days: u64,
    pub cents: u64,
}

// A month before, within and after the term of a contract.
#[derive(Clone, Copy)]
pub struct ContractMonth {
    pub before: DayShare,
    pub within: DayShare,
    pub after: DayShare,
}

impl<E: Edition + Drop, R: SharingRule + Drop> TariffYear<E, R> {
    ghost use Rattle.tariff_year.specs.Called.{made_of};

    // The record of a contract.
    pub fn contract_record(&self, number: u64) -> Result<Contract, Refusal>
        ensures { result ≡ asked (view self.now.tables).contracts number }
    {
        found(&self.tables.contracts, number)
    }

    // The twelve portions of the yearly charge of a contract, January first.
    pub fn portions(&self, number: u64) -> Result<[u64; 12], Refusal>
        ensures { result ≡ portions_asked (R.SharingRule.share self.now.basis.rule) (view self.now.tables) number }
    {
        let contract = self.contract_record(number)?;
        Ok(self.portions_of(contract.yearly))
    }

    // What is metered of a contract.
    pub fn metering(&self, number: u64) -> Result<Metering, Refusal>
        ensures { result ≡ metering_asked (view self.now.tables) number }
    {
        let contract = self.contract_record(number)?;
        let by_kwmax = tariff(&self.tables, contract, Carrier::Kwmax);
        let by_kwh = tariff(&self.tables, contract, Carrier::Kwh);
        let kwh = contract.reading - contract.opening;
        Ok(Metering {
            kwmax: Metered {
                volume: contract.kwmax,
                carry: carried(by_kwmax, contract.kwmax, contract.cents.kwmax),
            },
            kwh: Metered {
                volume: kwh,
                carry: carried(by_kwh, kwh, contract.cents.kwh),
            },
        })
    }

    // A month of a contract: its days, and how its portion is shared over them.
    pub fn month_of_contract(&self, number: u64, month: u64) -> Result<ContractMonth, Refusal>
        ensures { result ≡ month_asked (made_of self.now) (view self.now.tables) number month }
    {
        bound(1, number, LARGEST_NUMBER)?;
        bound_from_1(2, month, 12)?;
        let contract = self.contract_record(number)?;
        Ok(self.shared_month(contract, month))
    }

    fn shared_month(&self, contract: Contract, month: u64) -> ContractMonth
        requires { Billable self.now.basis.calendar.year contract month }
        ensures { result ≡ contract_month (made_of self.now) month contract }
    {
        let (portion, (before, within, after)) = self.month_to_share(contract, month);
        let cents = share_out::<R, 3>(&self.basis.rule, portion, &[before, within, after]).unwrap();
        ContractMonth {
            before: DayShare {
                days: before,
                cents: cents[0],
            },
            within: DayShare {
                days: within,
                cents: cents[1],
            },
            after: DayShare {
                days: after,
                cents: cents[2],
            },
        }
    }
}

// What is carried on of a volume where all cents due are issued.
fn carried(tariff: u64, volume: u64, issued: u64) -> u64
    requires bounded { (tariff ≤ largest_tariff) × (volume ≤ largest_number) }
    requires due { issued ≡ cents_to_date tariff plain_rate volume }
    ensures { result ≡ carry_to_date tariff plain_rate volume }
{
    metered_line(tariff, Rate::PLAIN, volume, issued)
        .unwrap()
        .carry
}
