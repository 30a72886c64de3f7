// Fixing the tariffs of a system.
ghost use Rattle.std.specs.Prelude.{◌≡◌, ◌&&◌, count_by, ◌==◌, slice_index};
ghost use Rattle.year_model.specs.Calls.{call_fix};
ghost use Rattle.year_model.specs.Fixes.{is_unfixed};
ghost use Rattle.year_model.specs.State.{numbered, view};
ghost use Rattle.tariff_year.specs.Fixable.{Fixable};
ghost use Rattle.tariff_year.specs.Questions.{asked_fixing};
ghost use Rattle.tariff_year.specs.Years.{told_tariffs};

use crate::look_up::{bound, entry, unfixed};
use crate::questions::found;
use crate::year::TariffYear;
use billing::{CARRIERS, Fixing, LARGEST_NUMBER, work_out_fixing};
use edition::{Edition, percentages};
use refusal::{Ground, Refusal};
use sharing::SharingRule;
use year_model::{Coupling, System};

// What a fix answers: the tariffs of the four carriers, in ten-thousandths of a euro.
#[derive(Clone, Copy)]
pub struct Fixed {
    pub tariffs: [u64; CARRIERS],
}

impl<E: Edition + Drop, R: SharingRule + Drop> TariffYear<E, R> {
    ghost use Rattle.tariff_year.specs.Called.{Called};

    // Cuts the landed euros of a system over the four carriers, by their volumes; answers the tariffs.
    pub fn fix(&mut self, system: u64, volumes: [u64; CARRIERS]) -> Result<Fixed, Refusal>
        ensures { Called self.old (call_fix system (slice_index volumes 0) (slice_index volumes 1) (slice_index volumes 2) (slice_index volumes 3)) (told_tariffs result) self.new }
    {
        bound(1, system, LARGEST_NUMBER)?;
        bound(2, volumes[0], LARGEST_NUMBER)?;
        bound(3, volumes[1], LARGEST_NUMBER)?;
        bound(4, volumes[2], LARGEST_NUMBER)?;
        bound(5, volumes[3], LARGEST_NUMBER)?;
        let old = unfixed(&self.tables.systems, system)?;
        let above = count_unfixed_above(&self.tables.systems, &self.tables.couplings, system);
        if old.standing > 0 || above > 0 {
            return Err(Refusal::at(Ground::NotSettled, system));
        }
        self.fix_settled(system, old, &volumes)
    }

    // Fixes a system that is settled, as far as edition and volumes allow.
    fn fix_settled(
        &mut self,
        system: u64,
        old: System,
        volumes: &[u64; CARRIERS],
    ) -> Result<Fixed, Refusal>
        requires { Fixable (view self.old.tables) system volumes.now old }
        ensures { Called self.old (call_fix system (slice_index volumes.now 0) (slice_index volumes.now 1) (slice_index volumes.now 2) (slice_index volumes.now 3)) (told_tariffs result) self.new }
    {
        let row = percentages(&self.basis.edition, old.category)?;
        let fixing = work_out_fixing(&self.basis.rule, old.landed, &row, volumes)?;
        self.tables.systems[(system - 1) as usize] = System {
            fixing: Some(fixing),
            ..old
        };
        let tariffs = fixing.tariffs;
        Ok(Fixed { tariffs })
    }

    // The volumes, allotments, tariffs and remainders of a fixed system.
    pub fn fixing(&self, system: u64) -> Result<Fixing, Refusal>
        ensures { result ≡ asked_fixing (view self.now.tables).systems system }
    {
        found(&self.tables.systems, system)?
            .fixing
            .ok_or(Refusal::of(Ground::SystemNotFixed))
    }
}

// How many couplings lead to this system from one that is not fixed.
fn count_unfixed_above(systems: &[System], couplings: &[Coupling], lower: u64) -> u64
    ensures { result ≡ count_by (λ c. (c.lower == lower) && is_unfixed (numbered systems.now c.upper)) couplings.now }
{
    couplings
        .iter()
        .filter(|coupling| coupling.lower == lower && is_unfixed(entry(systems, coupling.upper)))
        .count() as u64
}

fn is_unfixed(system: Option<System>) -> bool
    ensures { result ≡ is_unfixed system }
{
    system.is_some_and(|system| system.fixing.is_none())
}
