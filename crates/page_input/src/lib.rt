// A page of requests, read from an input that may be longer.
#![tactic(auto)]

ghost use Rattle.std.specs.Io.KnownBytes.{Consumes, IsAtEnd};
ghost use Rattle.std.specs.Prelude.{◌≡◌, ◌+◌, ◌<◌, ◌≤◌, length, take, drop, vec_len, IfOk, IfSome};

use rows::LONGEST_PAGE;
use std::alloc::Global;
use std::io;
use std::io::Read;

// One byte more than a page has at most tells a longer page from one that just fits.
const MOST_BYTES: usize = LONGEST_PAGE + 1;

// Reads once, into what is left of the page behind its first `at` bytes, and answers how many bytes came.
fn read_behind<R: Read>(input: &mut R, page: &mut [u8], at: usize) -> io::Result<usize>
    requires { at < length page.old }
    ensures front { take at page.new ≡ take at page.old }
    ensures fits { IfOk result (λ count. at + count ≤ length page.new) }
    ensures came { IfOk result (λ count. Consumes (R.remaining input.old) (R.remaining input.new) (take count (drop at page.new))) }
    ensures end { IfOk result (λ count. count ≡ 0 → IsAtEnd (R.remaining input.new)) }
{
    input.read(&mut page[at..])
}

// Fills the page from its front until the input ends, and answers how many bytes came. Each read asks for all that is left of
// the page, and so `read_to_end` does not serve: of an input that hands out whole messages it would lose what a short read
// leaves of one.
fn fill<R: Read>(input: &mut R, page: &mut [u8]) -> io::Result<usize>
    ensures within { IfOk result (λ filled. filled ≤ length page.old) }
    ensures long { length page.new ≡ length page.old }
    ensures first { IfSome (R.remaining input.old) (λ bytes. IfOk result (λ filled. take filled page.new ≡ take (length page.old) bytes)) }
{
    let mut filled = 0;
    while filled < page.len() {
        let count = read_behind(input, page, filled)?;
        if count == 0 {
            break;
        }
        filled += count;
    }
    Ok(filled)
}

// Room for so many bytes.
fn room_for(size: usize, alloc: Global) -> io::Result<Vec<u8>>
    ensures { IfOk result (λ room. vec_len room ≡ size) }
{
    Ok(vec![in alloc; 0u8; size]?)
}

// The bytes of the input, as far as a page that is too long can be told by them.
pub fn read_page<R: Read + Drop>(alloc: Global, mut input: R) -> io::Result<Vec<u8>>
    ensures few { IfOk result (λ page. vec_len page ≤ 60_001) }
    ensures first { IfSome (R.remaining input) (λ bytes. IfOk result (λ page. page.items ≡ take 60_001 bytes)) }
{
    let mut page = room_for(MOST_BYTES, alloc)?;
    let filled = fill(&mut input, &mut page)?;
    page.truncate(filled);
    Ok(page)
}

#[cfg(test)]
mod tests {
    use super::*;

    #[test]
    fn a_page_is_read_to_its_end(rt: HostRuntime) -> io::Result<()> {
        let page = read_page(rt.alloc(), &b"Y      2026\nZ\n"[..])?;
        assert_eq!(rt; page.as_slice(), &b"Y      2026\nZ\n"[..]);
        let page = read_page(rt.alloc(), &b""[..])?;
        assert!(rt; page.is_empty());
        Ok(())
    }

    #[test]
    fn one_byte_too_many_is_read(rt: HostRuntime) -> io::Result<()> {
        let page = read_page(rt.alloc(), io::repeat(b'Z'))?;
        assert_eq!(rt; page.len(), LONGEST_PAGE + 1);
        Ok(())
    }

    // An input that breaks after its first byte.
    #[derive(Drop)]
    struct Broken {
        begun: bool,
    }

    impl Read for Broken {
        fn read(&mut self, buf: &mut [u8]) -> io::Result<usize> {
            if self.begun || buf.is_empty() {
                return Err(io::Error::other("the input broke"));
            }
            self.begun = true;
            buf[0] = b'Z';
            Ok(1)
        }
    }

    #[test]
    fn an_input_that_breaks_is_no_page(rt: HostRuntime) {
        assert!(rt; read_page(rt.alloc(), Broken { begun: false }).is_err());
    }

    // An input of messages, each of which loses what a short read leaves of it.
    #[derive(Drop)]
    struct Messages {
        left: usize,
    }

    impl Read for Messages {
        fn read(&mut self, buf: &mut [u8]) -> io::Result<usize> {
            if self.left == 0 {
                return Ok(0);
            }
            self.left -= 1;
            Ok(buf.len().min(25_000))
        }
    }

    #[test]
    fn messages_are_read_whole(rt: HostRuntime) -> io::Result<()> {
        let page = read_page(rt.alloc(), Messages { left: 2 })?;
        assert_eq!(rt; page.len(), 50_000);
        Ok(())
    }
}
