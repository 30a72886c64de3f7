// The quantities that a tariff can go by.
ghost use Rattle.std.specs.Prelude.{◌≡◌, ◌-◌, ◌<◌, false, true, MatchResult};
ghost use Rattle.edition.specs.Carriers.{carrier_number, is_carrier};
ghost use Rattle.refusal.specs.Refusals.{refuse};
ghost use Rattle.refusal.specs.declared.ground.Ground.TheVariants.{OutOfBounds};

use refusal::{Ground, Refusal};

// How many carriers there are.
pub const CARRIERS: usize = 4;

// The carriers, each with its number; `Kwmax` is the kWmax per month.
#[derive(Clone, Copy, PartialEq, Eq, Debug)]
pub enum Carrier {
    ContractedKw = 1,
    Kwmax = 2,
    Kwh = 3,
    ReckonedKw = 4,
}

impl Carrier {
    // The number by which the carrier is told.
    pub fn number(self) -> u64
        ensures { result ≡ carrier_number self }
    {
        self as u64
    }

    // Where its figure stands in a list with one of each carrier.
    pub fn position(self) -> usize
        ensures told { result ≡ carrier_number self - 1 }
        ensures within { result < 4 }
    {
        self as usize - 1
    }
}

impl TryFrom<u64> for Carrier {
    type Error = Refusal;

    ghost try_from_gives = { λ number r. MatchResult r (λ carrier. (is_carrier number ≡ true) × (carrier_number carrier ≡ number)) (λ why. (is_carrier number ≡ false) × (why ≡ refuse OutOfBounds 0)) };

    fn try_from(number: u64) -> Result<Carrier, Refusal> {
        match number {
            1 => Ok(Carrier::ContractedKw),
            2 => Ok(Carrier::Kwmax),
            3 => Ok(Carrier::Kwh),
            4 => Ok(Carrier::ReckonedKw),
            _ => Err(Refusal::of(Ground::OutOfBounds)),
        }
    }
}
