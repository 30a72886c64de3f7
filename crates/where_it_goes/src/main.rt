// Shows where every euro of a pass goes: each line of standard input, `amount permille kW MWh kW MWh ..`, by both rules.
// The first pair is the consumers', the others are those of the couplings in order of entry.
#![tactic(auto)]

mod fraction;
mod proportion;
mod question;
mod show;

use crate::question::read_question;
use crate::show::show_question;
use number_lines::{Outcome, answer_lines};
use std::io;
use std::io::BufReader;

const HINT: &str =
    "Type an amount, a permille, and kW and MWh of each taker, as in: 1001 500 400 1000 600 3000.";

fn main(rt: HostRuntime) -> io::Result<()> {
    let input = BufReader::new(rt.alloc(), rt.stdin())?;
    answer_lines(
        &rt,
        input,
        HINT,
        &mut |number, line| answer(&rt, number, line),
    )?;
    Ok(())
}

// Each program tells a fault in its own way, so this stands in each.
fn answer(rt: &HostRuntime, number: u64, line: &[u8]) -> io::Result<Outcome> {
    match read_question(rt.alloc(), line) {
        Ok(None) => Ok(Outcome::Blank),
        Ok(Some(question)) => show_question(rt, &question),
        Err(fault) => {
            println!(rt; "Line {number} is not understood: {fault}.")?;
            println!(rt)?;
            Ok(Outcome::NotUnderstood)
        }
    }
}
