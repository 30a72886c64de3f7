// What an edition is, and its row for a category.
ghost use Rattle.std.specs.Prelude.{◌≡◌, ℕ, Bool};
ghost use Rattle.edition.specs.Editions.{HundredLaw, percent_answer, row_answer};

use crate::carrier::{CARRIERS, Carrier};
use refusal::Refusal;

// A table of percentages: which categories there are, and how much of each goes by which carrier.
//
// The carriers are 1 contracted kW, 2 kWmax per month, 3 kWh and 4 reckoned kW. An edition means the table (`known`,
// `percent`), and the four percentages of a known category add up to 100. Asking changes nothing.
pub trait Edition {
    ghost known: { Self → ℕ → Bool };

    ghost percent: { Self → ℕ → ℕ → ℕ };

    // Whether there is such a category.
    fn knows(&self, category: u64) -> bool
        ensures { result ≡ known self.now category };

    // The percentage of the category on a carrier, 1 to 4.
    fn percent(&self, category: u64, carrier: u64) -> Result<u64, Refusal>
        ensures { result ≡ percent_answer (known self.now) (percent self.now) category carrier };

    ghost hundred: { (edition : Self) → HundredLaw (known edition) (percent edition) };
}

// The percentages of the category on the carriers 1 to 4, in their order.
pub fn percentages<E: Edition>(edition: &E, category: u64) -> Result<[u64; CARRIERS], Refusal>
    ensures { result ≡ row_answer (E.known edition.now) (E.percent edition.now) category }
{
    Ok([
        edition.percent(category, Carrier::ContractedKw.number())?,
        edition.percent(category, Carrier::Kwmax.number())?,
        edition.percent(category, Carrier::Kwh.number())?,
        edition.percent(category, Carrier::ReckonedKw.number())?,
    ])
}
