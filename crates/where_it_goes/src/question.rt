// A pass to work out, as a line has it.
ghost use Rattle.std.specs.Prelude.{◌≡◌};

use number_lines::{LineFault, read_numbers};
use passing::PassFigures;
use std::alloc::{AllocError, Global};
use thiserror::Error;

// An amount, a permille and up to 64 takers.
const MOST_NUMBERS: usize = 130;

// The kW and the MWh stand in lists of their own, since a pass shares each part by one list of weights.
#[derive(Drop)]
pub struct Question {
    pub amount: u64,
    pub permille: u64,
    pub kws: Vec<u64>,
    pub mwhs: Vec<u64>,
}

impl Question {
    // What the pass is worked out from.
    pub fn figures(&self) -> PassFigures<'_>
        ensures { (result.amount ≡ self.now.amount) × (result.permille ≡ self.now.permille) × (result.kws.now ≡ self.now.kws.items) × (result.mwhs.now ≡ self.now.mwhs.items) }
    {
        PassFigures {
            amount: self.amount,
            permille: self.permille,
            kws: &self.kws,
            mwhs: &self.mwhs,
        }
    }
}

// Why a line is no question.
#[derive(Clone, Copy, Debug, Error)]
pub enum Fault {
    #[error(transparent)]
    Line(#[from] LineFault),
    #[error("an amount and a permille come first")]
    NoPermille,
    #[error("the last kW has no MWh beside it")]
    UnpairedKw,
}

// The question on a line, or None where the line is blank.
pub fn read_question(heap: Global, line: &[u8]) -> Result<Option<Question>, Fault> {
    let numbers = read_numbers(heap, line, MOST_NUMBERS)?;
    match numbers.as_slice() {
        [] => Ok(None),
        [_] => Err(Fault::NoPermille),
        [amount, permille, flows @ ..] => {
            let (pairs, unpaired) = flows.as_chunks::<2>();
            if !unpaired.is_empty() {
                return Err(Fault::UnpairedKw);
            }
            let (kws, mwhs) = split_flows(heap, pairs).map_err(LineFault::from)?;
            Ok(Some(Question {
                amount: *amount,
                permille: *permille,
                kws,
                mwhs,
            }))
        }
    }
}

// The kW and the MWh of the takers, which stand in pairs.
fn split_flows(heap: Global, pairs: &[[u64; 2]]) -> Result<(Vec<u64>, Vec<u64>), AllocError> {
    let kws = pairs.iter().map(|[kw, _]| *kw).collect(heap)?;
    let mwhs = pairs.iter().map(|[_, mwh]| *mwh).collect(heap)?;
    Ok((kws, mwhs))
}
