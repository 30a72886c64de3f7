// A request as a row: its letter, its numbers as fields, and a line feed.
ghost use Rattle.std.specs.Prelude.{◌≡◌};
ghost use Rattle.rows.specs.Requests.{NoOtherRowIsRead, RowsTellRequestsApart, WrittenRowsReadBack, call_lettered, numbers, read_answer, read_by, row_bytes};

use crate::fault::RowFault;
use crate::line::{letter_of, read_fields, write_line};
use crate::row::Row;
use refusal::Refusal;

// What a row asks, with the numbers of its fields. A date is the month times 100 plus the day.
#[derive(Clone, Copy, Debug, PartialEq, Eq)]
pub enum Request {
    CalendarYear {
        year: u64,
    },
    Open {
        level: u64,
        category: u64,
    },
    Couple {
        upper: u64,
        lower: u64,
        kw: u64,
        mwh: u64,
    },
    Use {
        system: u64,
        kw: u64,
        mwh: u64,
        permille: u64,
    },
    Cost {
        system: u64,
        euros: u64,
    },
    TakeBack {
        system: u64,
        euros: u64,
    },
    Pass {
        system: u64,
    },
    Settle,
    // The volumes of the four carriers: contracted kW, kWmax per month, kWh and reckoned kW.
    Fix {
        system: u64,
        contracted: u64,
        kwmax: u64,
        kwh: u64,
        reckoned: u64,
    },
    Contract {
        system: u64,
        kw: u64,
        fee: u64,
        first: u64,
        last: u64,
        reading: u64,
    },
    // Start a contract's next month, and issue its bill.
    Start {
        contract: u64,
        kwmax: u64,
        reading: u64,
    },
}

// The request in a row of this letter.
#[tactic(auto, unfolding(crate::specs::Requests::call_lettered))]
fn read_call(letter: char, row: &[u8]) -> Result<Request, RowFault>
    ensures { result ≡ read_by (call_lettered letter) row.now }
{
    match letter {
        'Y' => {
            let [year] = read_fields::<1>(row)?;
            Ok(Request::CalendarYear { year })
        }
        'S' => {
            let [level, category] = read_fields::<2>(row)?;
            Ok(Request::Open { level, category })
        }
        'K' => {
            let [upper, lower, kw, mwh] = read_fields::<4>(row)?;
            Ok(Request::Couple {
                upper,
                lower,
                kw,
                mwh,
            })
        }
        'U' => {
            let [system, kw, mwh, permille] = read_fields::<4>(row)?;
            Ok(Request::Use {
                system,
                kw,
                mwh,
                permille,
            })
        }
        'C' => {
            let [system, euros] = read_fields::<2>(row)?;
            Ok(Request::Cost { system, euros })
        }
        'T' => {
            let [system, euros] = read_fields::<2>(row)?;
            Ok(Request::TakeBack { system, euros })
        }
        'P' => {
            let [system] = read_fields::<1>(row)?;
            Ok(Request::Pass { system })
        }
        'Z' => {
            let [] = read_fields::<0>(row)?;
            Ok(Request::Settle)
        }
        'F' => {
            let [system, contracted, kwmax, kwh, reckoned] = read_fields::<5>(row)?;
            Ok(Request::Fix {
                system,
                contracted,
                kwmax,
                kwh,
                reckoned,
            })
        }
        'N' => {
            let [system, kw, fee, first, last, reading] = read_fields::<6>(row)?;
            Ok(Request::Contract {
                system,
                kw,
                fee,
                first,
                last,
                reading,
            })
        }
        'B' => {
            let [contract, kwmax, reading] = read_fields::<3>(row)?;
            Ok(Request::Start {
                contract,
                kwmax,
                reading,
            })
        }
        _ => Err(RowFault::Letter),
    }
}

impl Row for Request {
    ghost numbers = { numbers };

    ghost bytes = { row_bytes };

    ghost said = { read_answer };

    #[tactic(auto, unfolding(crate::specs::Requests::call_lettered, crate::specs::Requests::read_answer))]
    fn read(row: &[u8]) -> Result<Request, RowFault> {
        read_call(letter_of(row)?, row)
    }

    fn write(self, buffer: &mut [u8]) -> Result<usize, Refusal> {
        match self {
            Request::CalendarYear { year } => write_line(b'Y', &[year], buffer),
            Request::Open { level, category } => write_line(b'S', &[level, category], buffer),
            Request::Couple {
                upper,
                lower,
                kw,
                mwh,
            } => { write_line(b'K', &[upper, lower, kw, mwh], buffer) }
            Request::Use {
                system,
                kw,
                mwh,
                permille,
            } => { write_line(b'U', &[system, kw, mwh, permille], buffer) }
            Request::Cost { system, euros } => write_line(b'C', &[system, euros], buffer),
            Request::TakeBack { system, euros } => write_line(b'T', &[system, euros], buffer),
            Request::Pass { system } => write_line(b'P', &[system], buffer),
            Request::Settle => write_line(b'Z', &[], buffer),
            Request::Fix {
                system,
                contracted,
                kwmax,
                kwh,
                reckoned,
            } => { write_line(b'F', &[system, contracted, kwmax, kwh, reckoned], buffer) }
            Request::Contract {
                system,
                kw,
                fee,
                first,
                last,
                reading,
            } => { write_line(b'N', &[system, kw, fee, first, last, reading], buffer) }
            Request::Start {
                contract,
                kwmax,
                reading,
            } => { write_line(b'B', &[contract, kwmax, reading], buffer) }
        }
    }

    fn no_other_row_is_read()
        ensures back { WrittenRowsReadBack }
        ensures only { NoOtherRowIsRead }
        ensures apart { RowsTellRequestsApart }
    {}
}
