// Contracts at fixed systems, and their bills month by month.
ghost use Rattle.std.specs.Borrow.{follows, sem};
ghost use Rattle.std.specs.Prelude.{◌≡◌, ◌-◌, ◌≤◌, true, is_ok, IfOk, vec_len, slice_index_or};
ghost use Rattle.std.specs.Vec.{with_item};
ghost use Rattle.year_model.specs.Bills.{draft_out};
ghost use Rattle.year_model.specs.Calls.{call_contract, call_issue, call_start, call_tear};
ghost use Rattle.year_model.specs.DraftLaws.{spendable};
ghost use Rattle.year_model.specs.State.{view};
ghost use Rattle.year_model.specs.contracts.tables.Contract.{the_row as contract_row};
ghost use Rattle.year_model.specs.contracts.tables.Tables.{the_row};
ghost use Rattle.tariff_year.specs.Told.{Back, OthersStay, told_bill, told_draft, told_torn};
ghost use Rattle.tariff_year.specs.Years.{told_number};

use crate::bills::{bill_month, metered_lines};
use crate::drafts::{Bill, Draft, DraftNumbers, Unspent};
use crate::look_up::{bound, entry, listed};
use crate::year::{MOST_CONTRACTS, TariffYear};
use billing::{LARGEST_FEE, LARGEST_KW, LARGEST_NUMBER, yearly_charge};
use calendar::month_of;
use edition::Edition;
use refusal::{Ground, Refusal};
use sharing::SharingRule;
use year_model::{Cents, Contract, Started, Tables};

impl<E: Edition + Drop, R: SharingRule + Drop> TariffYear<E, R> {
    ghost use Rattle.tariff_year.specs.Called.{Called, made_of};

    // A contract at a fixed system, from a first to a last date; answers its number.
    pub fn contract(
        &mut self,
        system: u64,
        kw: u64,
        fee: u64,
        first: u64,
        last: u64,
        reading: u64,
    ) -> Result<u64, Refusal>
        ensures { Called self.old (call_contract system kw fee first last reading) (told_number result) self.new }
    {
        bound(1, system, LARGEST_NUMBER)?;
        bound(2, kw, LARGEST_KW)?;
        bound(3, fee, LARGEST_FEE)?;
        if !self.basis.calendar.is_day(first) {
            return Err(Refusal::at(Ground::OutOfBounds, 4));
        }
        if !self.basis.calendar.is_day(last) || last < first {
            return Err(Refusal::at(Ground::OutOfBounds, 5));
        }
        bound(6, reading, LARGEST_NUMBER)?;
        let supplier = listed(&self.tables.systems, system)?;
        let count = self.tables.contracts.len();
        if count >= MOST_CONTRACTS {
            return Err(Refusal::of(Ground::TableFull));
        }
        let fixing = supplier.fixing.ok_or(Refusal::of(Ground::SystemNotFixed))?;
        let [contracted, _, _, reckoned] = fixing.tariffs;
        let yearly = yearly_charge(fee, kw, contracted, reckoned)?;
        self.tables.contracts.push_reserved(Contract {
            system,
            kw,
            fee,
            first,
            last,
            opening: reading,
            yearly,
            month: month_of(first),
            kwmax: 0,
            reading,
            cents: Cents {
                yearly: 0,
                kwmax: 0,
                kwh: 0,
                waived: 0,
            },
            started: None,
        });
        Ok(count as u64 + 1)
    }

    // A draft of the next month's bill of a contract, with the month's kWmax and reading.
    pub fn start(&mut self, contract: u64, kwmax: u64, reading: u64) -> Result<Draft, Refusal>
        ensures called { Called self.old (call_start contract kwmax reading) (told_draft result) self.new }
        ensures ready { IfOk result (λ d. spendable (made_of self.old) (view self.new.tables) d.numbers.book d.numbers.contract d.numbers.month ≡ true) }
    {
        bound(1, contract, LARGEST_NUMBER)?;
        bound(2, kwmax, LARGEST_KW)?;
        bound(3, reading, LARGEST_NUMBER)?;
        let found = listed(&self.tables.contracts, contract)?;
        if found.started.is_some() {
            return Err(Refusal::of(Ground::DraftOut));
        }
        if found.month > month_of(found.last) {
            return Err(Refusal::of(Ground::NoMonthLeft));
        }
        if reading < found.reading {
            return Err(Refusal::of(Ground::ReadingFell));
        }
        let started = Started { kwmax, reading };
        metered_lines(&self.tables, found, started)?;
        contract_mut(&mut self.tables, contract).started = Some(started);
        Ok(Draft {
            numbers: DraftNumbers {
                book: self.basis.book,
                contract,
                month: found.month,
            },
        })
    }

    // Bills the month of a draft that is out.
    pub fn issue(&mut self, draft: Draft) -> Result<Bill, Unspent>
        ensures called { Called self.old (call_issue draft.numbers.book draft.numbers.contract draft.numbers.month) (told_bill result) self.new }
        ensures back { Back draft result }
        ensures accepts { spendable (made_of self.old) (view self.old.tables) draft.numbers.book draft.numbers.contract draft.numbers.month ≡ true → is_ok result ≡ true }
        ensures own { OthersStay draft.numbers.contract (view self.old.tables) (view self.new.tables) }
    {
        // No `ok_or`, which would move the draft before it is known to be refused.
        let Some((found, started)) = self.draft_out(&draft) else {
            return Err(Unspent {
                refusal: Refusal::of(Ground::DraftNotOut),
                draft,
            });
        };
        let Draft { numbers } = draft;
        let lines = metered_lines(&self.tables, found, started).unwrap();
        let cents = self.month_cents(found, numbers.month);
        bill_month(
            contract_mut(&mut self.tables, numbers.contract),
            started,
            lines,
            cents,
        );
        Ok(Bill {
            contract: numbers.contract,
            month: numbers.month,
            yearly: cents.issued,
            kwmax: lines.kwmax,
            kwh: lines.kwh,
            waived: cents.waived,
        })
    }

    // Discards a draft that is out.
    pub fn tear(&mut self, draft: Draft) -> Result<(), Unspent>
        ensures called { Called self.old (call_tear draft.numbers.book draft.numbers.contract draft.numbers.month) (told_torn result) self.new }
        ensures back { Back draft result }
        ensures accepts { spendable (made_of self.old) (view self.old.tables) draft.numbers.book draft.numbers.contract draft.numbers.month ≡ true → is_ok result ≡ true }
    {
        // As in `issue`.
        let Some(_) = self.draft_out(&draft) else {
            return Err(Unspent {
                refusal: Refusal::of(Ground::DraftNotOut),
                draft,
            });
        };
        let Draft { numbers } = draft;
        contract_mut(&mut self.tables, numbers.contract).started = None;
        Ok(())
    }

    // The contract of a draft that is out, and what it was started with.
    fn draft_out(&self, draft: &Draft) -> Option<(Contract, Started)>
        ensures { result ≡ draft_out (made_of self.now) (view self.now.tables) draft.now.numbers.book draft.now.numbers.contract draft.now.numbers.month }
    {
        let numbers = draft.numbers;
        if numbers.book != self.basis.book {
            return None;
        }
        let contract = entry(&self.tables.contracts, numbers.contract)?;
        let started = contract.started?;
        if numbers.month != contract.month {
            return None;
        }
        Some((contract, started))
    }
}

// One contract of the tables, lent to be changed.
fn contract_mut(tables: &mut Tables, number: u64) -> &mut Contract
    requires { (1 ≤ number) × (number ≤ vec_len tables.old.contracts) }
    ensures* follows { sem 𝓛 (follows the_row contract_row tables.entry.ghost_name result.ghost_name (λ w. record { systems = tables.old.systems; couplings = tables.old.couplings; contracts = with_item tables.old.contracts (number - 1) w; net = tables.old.net })) }
    ensures value { result.now ≡ slice_index_or tables.old.contracts.items (number - 1) result.now }
{
    &mut tables.contracts[(number - 1) as usize]
}
