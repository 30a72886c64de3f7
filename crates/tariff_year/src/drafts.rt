// A draft of a month's bill, and what comes of it.
ghost use Rattle.std.specs.Prelude.{◌≡◌};
ghost use Rattle.tariff_year.specs.Told.{numbers_of};

use refusal::Refusal;

// A token that a year hands out for one month of a contract, and takes back by issue or by tear. It can be neither copied
// nor dropped.
pub struct Draft {
    pub(crate) numbers: DraftNumbers,
}

// The numbers that a draft is told by, which can be copied.
#[derive(Clone, Copy)]
pub struct DraftNumbers {
    pub book: u64,
    pub contract: u64,
    pub month: u64,
}

// The bill of one month of a contract: cents issued of the yearly charge and of both metered carriers, and cents waived.
#[derive(Clone, Copy)]
pub struct Bill {
    pub contract: u64,
    pub month: u64,
    pub yearly: u64,
    pub kwmax: u64,
    pub kwh: u64,
    pub waived: u64,
}

// A draft that was refused, and why.
pub struct Unspent {
    pub refusal: Refusal,
    pub draft: Draft,
}

impl Draft {
    pub fn numbers(&self) -> DraftNumbers
        ensures { result ≡ numbers_of self.now }
    {
        self.numbers
    }
}
