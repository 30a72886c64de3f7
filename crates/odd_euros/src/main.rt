// Shows where the odd euros fall: each line of standard input, `amount weight weight ..`, shared by both rules.
#![tactic(auto)]

mod show;

use number_lines::{Outcome, answer_lines, read_numbers};
use show::{MOST_WEIGHTS, show_line};
use std::io;
use std::io::BufReader;

// An amount and its weights.
const MOST_NUMBERS: usize = 1 + MOST_WEIGHTS;

const HINT: &str = "Type an amount and its weights, as in: 10 1 1 1 (whole euros, blanks between).";

fn main(rt: HostRuntime) -> io::Result<()> {
    let input = BufReader::new(rt.alloc(), rt.stdin())?;
    answer_lines(
        &rt,
        input,
        HINT,
        &mut |number, line| answer(&rt, number, line),
    )?;
    Ok(())
}

// Each program tells a fault in its own way, so this stands in each.
fn answer(rt: &HostRuntime, number: u64, line: &[u8]) -> io::Result<Outcome> {
    let numbers = match read_numbers(rt.alloc(), line, MOST_NUMBERS) {
        Ok(numbers) => numbers,
        Err(fault) => {
            println!(rt; "Line {number} is not understood: {fault}.")?;
            println!(rt)?;
            return Ok(Outcome::NotUnderstood);
        }
    };
    match numbers.split_first() {
        Some((amount, weights)) => show_line(rt, *amount, weights),
        None => Ok(Outcome::Blank),
    }
}
