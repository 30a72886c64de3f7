// Answers a page of requests from standard input, row by row, on standard output: by the edition of 2013, the running rule and book 0.
#![tactic(auto)]

use page::{Page, PageError};
use page_input::read_page;
use rows::LONGEST_ROW;
use std::alloc::AllocError;
use std::io;
use std::io::Write;

// No `From`, since both errors are other crates' types.
fn io_error(error: PageError) -> io::Error {
    match error {
        PageError::NoMemory => AllocError.into(),
        PageError::Refused(_) => io::Error::other("an answer row does not fit"),
    }
}

// Answers every row of a page.
fn answer_page(rt: &HostRuntime, bytes: &[u8]) -> io::Result<()> {
    let mut page = Page::new(bytes);
    let mut buffer = [0u8; LONGEST_ROW];
    loop {
        match page.answer_next(rt.alloc(), &mut buffer).map_err(io_error)? {
            0 => return Ok(()),
            size => rt.stdout().write_all(&buffer[0..size])?,
        }
    }
}

fn main(rt: HostRuntime) -> io::Result<()> {
    let page = read_page(rt.alloc(), rt.stdin())?;
    answer_page(&rt, &page)
}
