// The edition of 2013.
ghost use Rattle.edition.specs.Edition2013.{rows_2013};
ghost use Rattle.edition.specs.Tables.{known_in, percent_in};
ghost use Rattle.std.specs.Prelude.{refl};
ghost use Rattle.edition.specs.WholeRows.{hundred_in, all_whole};

use crate::edition::Edition;
use crate::table::{Row, is_known, percent_in};
use refusal::Refusal;

// Categories 1 to 4 are the letters a to d of article 3.7.1 of the Tarievencode of 2013, with the percentages of its
// articles 3.7.5 and 3.7.9. Category 5 is a connection up to 3×80 A, which pays for its reckoned kW alone by
// article 3.11(3) of the Tarievencode 2026.
const ROWS: [Row; 5] = [
    Row {
        category: 1,
        percentages: [50, 50, 0, 0],
    },
    Row {
        category: 2,
        percentages: [50, 50, 0, 0],
    },
    Row {
        category: 3,
        percentages: [50, 50, 0, 0],
    },
    Row {
        category: 4,
        percentages: [25, 25, 50, 0],
    },
    Row {
        category: 5,
        percentages: [0, 0, 0, 100],
    },
];

#[derive(Clone, Copy)]
pub struct Edition2013;

impl Edition for Edition2013 {
    ghost known = { λ _. known_in rows_2013 };

    ghost percent = { λ _. percent_in rows_2013 };

    // one test over the whole table, which the checker computes
    ghost hundred = { λ edition. hundred_in rows_2013 (all_whole rows_2013 refl) };

    fn knows(&self, category: u64) -> bool {
        is_known(&ROWS, category)
    }

    fn percent(&self, category: u64, carrier: u64) -> Result<u64, Refusal> {
        percent_in(&ROWS, category, carrier)
    }
}
