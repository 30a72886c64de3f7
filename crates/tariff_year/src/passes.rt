// Passing a system, and settling all that are not fixed.
ghost use Rattle.std.specs.Prelude.{◌≡◌, ◌≤◌, false, IfOk, Some, None, Ok, sum};
ghost use Rattle.year_model.specs.Calls.{call_pass, call_settle, state_of};
ghost use Rattle.year_model.specs.Passes.{first_obstacle, in_the_way, landed_in_turn, numbers, pass_with, passed_in_turn};
ghost use Rattle.year_model.specs.State.{is_fixed, numbered, view};
ghost use Rattle.tariff_year.specs.Replies.{emptied_by, pass_of, told_passed, told_settled, unless};
ghost use Rattle.tariff_year.specs.Turns.{turn_of, turns};

use crate::handing::hand_down;
use crate::look_up::{bound, entry, unfixed};
use crate::obstacles::first_obstacle;
use crate::systems::LOWEST_LEVEL;
use crate::takers::gather;
use crate::year::TariffYear;
use billing::LARGEST_NUMBER;
use edition::Edition;
use passing::{Pass, PassFigures, work_out_pass};
use refusal::Refusal;
use sharing::SharingRule;
use year_model::System;

// What a pass came to: the euros that left the system.
#[derive(Clone, Copy)]
pub struct Passed {
    pub euros: u64,
}

// What a settle came to: the euros that landed with the consumers of all systems.
#[derive(Clone, Copy)]
pub struct Settled {
    pub landed: u64,
}

// The euros that left a system, and those of them that landed with its consumers.
#[derive(Clone, Copy)]
struct Emptied {
    passed: u64,
    landed: u64,
}

impl<E: Edition + Drop, R: SharingRule + Drop> TariffYear<E, R> {
    ghost use Rattle.tariff_year.specs.Called.{Called, made_of};

    // Empties a system: what stands there lands with its consumers and goes down its couplings.
    pub fn pass(&mut self, system: u64) -> Result<Passed, Refusal>
        ensures { Called self.old (call_pass system) (told_passed result) self.new }
    {
        bound(1, system, LARGEST_NUMBER)?;
        let old = unfixed(&self.tables.systems, system)?;
        let emptied = self.empty(system, old)?;
        Ok(Passed {
            euros: emptied.passed,
        })
    }

    // What a pass of this system comes to, or what stands in its way.
    fn work_out(&self, number: u64, system: System) -> Result<Pass, Refusal>
        requires { numbered (view self.now.tables).systems number ≡ Some system }
        ensures pinned { result ≡ unless (in_the_way (made_of self.now) (view self.now.tables) number system) (pass_of (made_of self.now) (view self.now.tables) number system) }
        ensures nothing_is_lost { IfOk result (λ pass. sum pass.received ≡ system.standing) }
    {
        let takers = gather(&self.tables.couplings, number, system.kw, system.mwh);
        let figures = PassFigures {
            amount: system.standing,
            permille: system.permille,
            kws: takers.kws.as_slice(),
            mwhs: takers.mwhs.as_slice(),
        };
        work_out_pass(&self.basis.rule, &figures).map_err(|refusal| Refusal::at(
            refusal.ground,
            number,
        ))
    }

    // Passes this system, or tells what stands in its way.
    fn empty(&mut self, number: u64, system: System) -> Result<Emptied, Refusal>
        requires found { numbered (view self.old.tables).systems number ≡ Some system }
        requires unfixed { is_fixed system ≡ false }
        ensures told { result ≡ unless (in_the_way (made_of self.old) (view self.old.tables) number system) (emptied_by (made_of self.old) (view self.old.tables) number system) }
        ensures small { IfOk result (λ emptied. emptied.landed ≤ 5_000_000_000) }
        ensures state { view self.new.tables ≡ state_of (view self.old.tables) (pass_with (made_of self.old) (view self.old.tables) number system (in_the_way (made_of self.old) (view self.old.tables) number system)) }
        ensures kept { self.new.basis ≡ self.old.basis }
    {
        let pass = self.work_out(number, system)?;
        let landed = pass.received[0];
        self.tables.systems[(number - 1) as usize] = System {
            standing: 0,
            landed: system.landed + landed,
            ..system
        };
        hand_down(
            &mut self.tables.systems,
            &self.tables.couplings,
            number,
            &pass.received,
        );
        Ok(Emptied {
            passed: system.standing,
            landed,
        })
    }

    // Passes every unfixed system once, by level and then by number, unless something stands in the way of one.
    pub fn settle(&mut self) -> Result<Settled, Refusal>
        ensures { Called self.old call_settle (told_settled result) self.new }
    {
        if let Some(refusal) = self.first_in_the_way() {
            return Err(refusal);
        }
        let mut landed = 0;
        for level in 1..=LOWEST_LEVEL {
            landed += self.settle_level(level)?;
        }
        Ok(Settled { landed })
    }

    // What stands in the way of passing the first unfixed system that cannot be passed.
    fn first_in_the_way(&self) -> Option<Refusal>
        ensures { result ≡ first_obstacle (made_of self.now) (view self.now.tables) (numbers (view self.now.tables)) }
    {
        first_obstacle(R::LONGEST, &self.tables.systems, &self.tables.couplings)
    }

    // Passes every unfixed system of this level, by number; answers the euros that landed.
    fn settle_level(&mut self, level: u64) -> Result<u64, Refusal>
        requires { first_obstacle (made_of self.old) (view self.old.tables) (numbers (view self.old.tables)) ≡ None }
        ensures told { result ≡ Ok (landed_in_turn (made_of self.old) (view self.old.tables) (turns (view self.old.tables) level)) }
        ensures small { IfOk result (λ landed. landed ≤ 320_000_000_000) }
        ensures state { view self.new.tables ≡ passed_in_turn (made_of self.old) (view self.old.tables) (turns (view self.old.tables) level) }
        ensures kept { self.new.basis ≡ self.old.basis }
    {
        let mut landed = 0;
        // A range, since passing a system changes the list that an iterator would borrow.
        for index in 0..self.tables.systems.len() {
            landed += self.settle_system(level, index as u64 + 1)?;
        }
        Ok(landed)
    }

    // Passes this system if it is unfixed and of this level; answers the euros that landed.
    fn settle_system(&mut self, level: u64, number: u64) -> Result<u64, Refusal>
        requires { first_obstacle (made_of self.old) (view self.old.tables) (numbers (view self.old.tables)) ≡ None }
        ensures told { result ≡ Ok (landed_in_turn (made_of self.old) (view self.old.tables) (turn_of (view self.old.tables) level number)) }
        ensures small { IfOk result (λ landed. landed ≤ 5_000_000_000) }
        ensures state { view self.new.tables ≡ passed_in_turn (made_of self.old) (view self.old.tables) (turn_of (view self.old.tables) level number) }
        ensures kept { self.new.basis ≡ self.old.basis }
    {
        let Some(system) = entry(&self.tables.systems, number) else {
            return Ok(0);
        };
        if system.fixing.is_some() || system.level != level {
            return Ok(0);
        }
        let emptied = self.empty(number, system)?;
        Ok(emptied.landed)
    }
}
