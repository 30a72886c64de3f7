// Explains a page of requests row by row, in words: what each row asks, or what is wrong with it.
#![tactic(auto)]

#[cfg(test)]
mod tests;
mod words;

ghost use Rattle.std.specs.Prelude.{◌≡◌, IfErr};
ghost use Rattle.rows.specs.Faults.{page_row};

use page_input::read_page;
use rows::{NumberedRow, PageFault, Reader, Request, judge_length};
use std::io;
use words::Words;

// The request in a row, its fault as one of the page.
fn request_in(row: NumberedRow<'_>) -> Result<Request, PageFault>
    ensures { IfErr result (λ fault. page_row fault ≡ row.entry.number) }
{
    Ok(row.request()?)
}

// Prints what the row of this number asks or what is wrong with it.
fn explain_row(rt: &impl Print, number: u64, asked: Result<Request, PageFault>) -> io::Result<()> {
    match asked {
        Ok(request) => println!(rt; "row {number}: {}", Words(request)),
        Err(fault) => println!(rt; "row {number}: {}", fault.refusal()),
    }
}

// Prints a line for each row, and how many there are: a loop counts them, since each is printed on the way.
fn explain_rows(rt: &impl Print, page: &[u8]) -> io::Result<()> {
    let mut rows: u64 = 0;
    let mut refused: u64 = 0;
    for row in Reader::new(page) {
        rows = row.number;
        let asked = request_in(row);
        refused += u64::from(asked.is_err());
        explain_row(rt, rows, asked)?;
    }
    println!(rt; "rows: {rows}, refused: {refused}")
}

fn explain_page(rt: &impl Print, page: &[u8]) -> io::Result<()> {
    match judge_length(page) {
        Ok(()) => explain_rows(rt, page),
        Err(fault) => println!(rt; "page: {}", fault.refusal()),
    }
}

fn main(rt: HostRuntime) -> io::Result<()> {
    let page = read_page(rt.alloc(), rt.stdin())?;
    explain_page(&rt, &page)
}
