// Answers each line `year first last` of standard input by the days of the twelve months before, in and after that term.
#![tactic(auto)]

mod question;
mod table;

use crate::question::{Question, read_question};
use crate::table::split_year;
use number_lines::{Outcome, answer_lines};
use std::io;
use std::io::BufReader;

const NAMES: [&str; 12] = [
    "January",
    "February",
    "March",
    "April",
    "May",
    "June",
    "July",
    "August",
    "September",
    "October",
    "November",
    "December",
];

const HINT: &str =
    "Type a year, a first and a last date (month times 100 plus day), as in: 2026 116 1231.";

fn main(rt: HostRuntime) -> io::Result<()> {
    let input = BufReader::new(rt.alloc(), rt.stdin())?;
    answer_lines(
        &rt,
        input,
        HINT,
        &mut |number, line| answer(&rt, number, line),
    )?;
    Ok(())
}

// Prints the answer to a line; a blank line has none. Each program tells a fault in its own way, so this stands in each.
fn answer(rt: &HostRuntime, number: u64, line: &[u8]) -> io::Result<Outcome> {
    match read_question(rt.alloc(), line) {
        Ok(None) => Ok(Outcome::Blank),
        Ok(Some(question)) => print_answer(rt, question),
        Err(fault) => {
            println!(rt; "Line {number} is not understood: {fault}.")?;
            Ok(Outcome::NotUnderstood)
        }
    }
}

// Prints the twelve months, or the refusal.
fn print_answer(rt: &HostRuntime, question: Question) -> io::Result<Outcome> {
    print_heading(rt, question)?;
    match split_year(question) {
        Ok(months) => {
            print_months(rt, &months)?;
            Ok(Outcome::Answered)
        }
        Err(refusal) => {
            println!(rt; "{refusal}")?;
            Ok(Outcome::Refused)
        }
    }
}

fn print_heading(rt: &HostRuntime, question: Question) -> io::Result<()> {
    let year = question.year;
    let first = question.first;
    let last = question.last;
    println!(rt; "{year}, {first} to {last}:")
}

// One row a month.
fn print_months(rt: &HostRuntime, months: &[(u64, u64, u64)]) -> io::Result<()> {
    println!(rt; "month      before   in   after")?;
    for (name, days) in NAMES.iter().zip(months.iter()) {
        let (before, within, after) = *days;
        println!(rt; "{name:<9}{before:>8}{within:>5}{after:>8}")?;
    }
    Ok(())
}
