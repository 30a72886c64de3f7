// Lines of decimal numbers with blanks between, as people type them at the programs.
#![tactic(auto)]

mod input_lines;
mod line_fault;
mod read;
mod sum;
mod tally;

pub use input_lines::answer_lines;
pub use line_fault::LineFault;
pub use read::read_numbers;
pub use sum::sum_of;
pub use tally::{Outcome, Tally};

#[cfg(test)]
mod tests {
    use super::*;
    use std::io;

    #[test]
    fn lines_are_answered_and_counted(rt: HostRuntime) -> io::Result<()> {
        let input = &b"1 2\n \n3 x\n4"[..];
        let tally = answer_lines(
            &rt,
            input,
            "nothing",
            &mut |number, line| {
                match read_numbers(rt.alloc(), line, 2) {
                    Err(_) => Ok(Outcome::NotUnderstood),
                    Ok(numbers) if numbers.is_empty() => Ok(Outcome::Blank),
                    Ok(numbers) if sum_of(&numbers) == number => Ok(Outcome::Answered),
                    Ok(_) => Ok(Outcome::Refused),
                }
            },
        )?;
        let expected = Tally {
            answered: 1,
            refused: 1,
            unread: 1,
        };
        assert_eq!(rt; tally, expected);
        Ok(())
    }

    #[test]
    fn the_column_of_a_fault_is_told(rt: HostRuntime) {
        let faulty = [
            (&b"1 2x"[..], LineFault::NoDigit { column: 4 }),
            (
                &b"99999999999999999999"[..],
                LineFault::TooLarge { column: 20 },
            ),
            (&b"1 2 3\n"[..], LineFault::TooMany { column: 6, most: 2 }),
        ];
        for (line, fault) in faulty {
            assert!(rt; read_numbers(rt.alloc(), line, 2).is_err_and(|told| told == fault));
        }
    }
}
