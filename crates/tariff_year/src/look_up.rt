// Arguments and entries of a call: what is out of bounds, not there or fixed is refused. They are put in line, since each would
// otherwise copy a whole entry once more.
ghost use Rattle.std.specs.Prelude.{◌≡◌, ◌<◌, ◌≤◌, IfOk, IfErr, Some, None, false};
ghost use Rattle.year_model.specs.State.{is_fixed, numbered};
ghost use Rattle.tariff_year.specs.LookedUp.{bounded, bounded_from_1, told_entry, unfixed};

use refusal::{Ground, Refusal};
use year_model::System;

// Refuses a number above its limit, by the place of the argument.
#[inline(always)]
pub fn bound(place: u64, number: u64, limit: u64) -> Result<(), Refusal>
    ensures told { result ≡ bounded place number limit }
    ensures within { IfOk result (λ _. number ≤ limit) }
    ensures above { IfErr result (λ _. limit < number) }
{
    if number > limit {
        return Err(Refusal::at(Ground::OutOfBounds, place));
    }
    Ok(())
}

// Refuses a number that is none of 1 to the last, by the place of the argument.
#[inline(always)]
pub fn bound_from_1(place: u64, number: u64, last: u64) -> Result<(), Refusal>
    ensures told { result ≡ bounded_from_1 place number last }
    ensures within { IfOk result (λ _. (1 ≤ number) × (number ≤ last)) }
{
    if !(1..=last).contains(&number) {
        return Err(Refusal::at(Ground::OutOfBounds, place));
    }
    Ok(())
}

// The entry with this number, counted from 1, if there is one.
#[inline(always)]
pub fn entry<T: Copy>(entries: &[T], number: u64) -> Option<T>
    ensures { result ≡ numbered entries.now number }
{
    let index = number.checked_sub(1)?;
    entries.get(index as usize).copied()
}

// The entry with this number, or the refusal that there is none.
#[inline(always)]
pub fn listed<T: Copy>(entries: &[T], number: u64) -> Result<T, Refusal>
    ensures told { result ≡ told_entry (numbered entries.now number) }
    ensures there { IfOk result (λ x. numbered entries.now number ≡ Some x) }
    ensures missing { IfErr result (λ _. numbered entries.now number ≡ None) }
{
    entry(entries, number).ok_or(Refusal::of(Ground::NotThere))
}

// The system with this number, unless it is fixed.
#[inline(always)]
pub fn unfixed(systems: &[System], number: u64) -> Result<System, Refusal>
    ensures told { result ≡ unfixed (numbered systems.now number) }
    ensures there { IfOk result (λ x. numbered systems.now number ≡ Some x) }
    ensures not_fixed { IfOk result (λ x. is_fixed x ≡ false) }
{
    let system = listed(systems, number)?;
    if system.fixing.is_some() {
        return Err(Refusal::of(Ground::SystemFixed));
    }
    Ok(system)
}
