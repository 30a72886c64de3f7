// What a pass is worked out from, and what no pass can be worked out from.
ghost use Rattle.std.specs.Prelude.{◌≡◌, sum, ◌==◌};
ghost use Rattle.passing.specs.Passing.{nothing_to_go_by, out_of_bounds};

use sharing::{LARGEST_AMOUNT, any_above};

// The largest kW and the largest MWh of one taker.
pub const LARGEST_FLOW: u64 = 30_000_000;

// The amount that stands at a system, how many thousandths of it go by kW, and the kW and the MWh of the takers in
// their order.
#[derive(Clone, Copy)]
pub struct PassFigures<'a> {
    pub amount: u64,
    pub permille: u64,
    pub kws: &'a [u64],
    pub mwhs: &'a [u64],
}

impl PassFigures<'_> {
    // Whether a number is out of bounds, the lists differ in length, or there is no taker.
    pub(crate) fn are_out_of_bounds(&self) -> bool
        ensures { result ≡ out_of_bounds self.now.amount self.now.permille self.now.kws.now self.now.mwhs.now }
    {
        self.amount > LARGEST_AMOUNT
            || self.permille > 1_000
            || any_above(LARGEST_FLOW, self.kws)
            || any_above(LARGEST_FLOW, self.mwhs)
            || self.kws.len() != self.mwhs.len()
            || self.kws.is_empty()
    }

    // Whether all weights of a factor that is not 0 are 0.
    pub(crate) fn have_nothing_to_go_by(&self) -> bool
        ensures { result ≡ nothing_to_go_by self.now.permille self.now.kws.now self.now.mwhs.now }
    {
        self.permille > 0 && are_all_zero(self.kws)
            || self.permille < 1_000 && are_all_zero(self.mwhs)
    }
}

fn are_all_zero(weights: &[u64]) -> bool
    ensures { result ≡ (sum weights.now == 0) }
{
    weights.iter().all(|weight| *weight == 0)
}
