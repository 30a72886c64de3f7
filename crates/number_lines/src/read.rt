// The numbers of one line.
ghost use Rattle.std.specs.Prelude.{◌≤◌, IfOk, vec_len, OnOk};

use crate::line_fault::LineFault;
use std::alloc::Global;

// The numbers that stand on the line, `most` at the most. Spaces, tabs and the line's end are blanks.
pub fn read_numbers(heap: Global, line: &[u8], most: usize) -> Result<Vec<u64>, LineFault>
    ensures few { IfOk result (λ v. vec_len v ≤ most) }
{
    let mut numbers = Vec::new(heap);
    let mut begun = None;
    for (index, byte) in line.iter().enumerate() {
        let column = index + 1;
        match *byte as char {
            '0'..='9' => begun = Some(with_digit(begun, *byte, column)?),
            ' ' | '\t' | '\r' | '\n' => {
                if let Some(number) = begun.take() {
                    keep(&mut numbers, number, most, column)?;
                }
            }
            _ => return Err(LineFault::NoDigit { column }),
        }
    }
    if let Some(number) = begun {
        keep(&mut numbers, number, most, line.len())?;
    }
    Ok(numbers)
}

// The number begun so far, with one digit more.
fn with_digit(begun: Option<u64>, digit: u8, column: usize) -> Result<u64, LineFault> {
    let value = u64::from(digit.saturating_sub(b'0'));
    begun
        .unwrap_or(0)
        .checked_mul(10)
        .and_then(|shifted| shifted.checked_add(value))
        .ok_or(LineFault::TooLarge { column })
}

// One number more, if it still fits.
fn keep(numbers: &mut Vec<u64>, number: u64, most: usize, column: usize) -> Result<(), LineFault>
    ensures few { OnOk result (vec_len numbers.new ≤ most) }
{
    if numbers.len() >= most {
        return Err(LineFault::TooMany { column, most });
    }
    numbers.push(number)?;
    Ok(())
}
