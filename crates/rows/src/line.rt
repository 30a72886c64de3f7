// A line: a letter, numbers as fields, and a line feed.
ghost use Rattle.std.specs.Prelude.{◌≡◌, ◌+◌, ◌*◌, ◌≤◌, length, IfOk, MatchResult, nat_lt, position, slice_index};
ghost use Rattle.rows.specs.Faults.{malformed};
ghost use Rattle.rows.specs.declared.fault.RowFault.TheVariants.{Letter};
ghost use Rattle.rows.specs.Fields.{number_in};
ghost use Rattle.rows.specs.Lines.{Wrote, field_bytes, line as LineOf, numbers_answer};

use crate::fault::{FieldFault, RowFault};
use crate::field::{FIELD_WIDTH, LARGEST_NUMBER, read_field, write_columns};
use refusal::{Ground, Refusal};

// The longest row, request or answer: a letter, six fields and a line feed.
pub const LONGEST_ROW: usize = 62;

// The letter of a row.
pub fn letter_of(row: &[u8]) -> Result<char, RowFault>
    ensures { MatchResult result (λ letter. slice_index row.now 0 ≡ letter) (λ fault. (slice_index row.now 0 ≡ 0) × (fault ≡ Letter)) }
{
    let letter = row.first().ok_or(RowFault::Letter)?;
    Ok(char::from(*letter))
}

// The number in the field `i` of a row, from 0.
fn field_at(row: &[u8], i: usize) -> Result<u64, FieldFault>
    requires { (i ≤ 9) × (11 + 10 * i ≤ length row.now) }
    ensures { MatchResult result (λ n. number_in (field_bytes row.now i) ≡ Some n) (λ e. (number_in (field_bytes row.now i) ≡ None) × (e ≡ malformed (i + 1))) }
{
    let start = 1 + FIELD_WIDTH * i;
    let place = i as u64 + 1;
    read_field(&row[start..start + FIELD_WIDTH]).ok_or(FieldFault { place })
}

// The numbers in a row that has N fields behind its letter.
pub fn read_fields<const N: usize>(row: &[u8]) -> Result<[u64; N], RowFault>
    requires { N ≤ 6 }
    ensures answer { result ≡ numbers_answer N row.now }
    ensures long { IfOk result (λ ns. length ns ≡ N) }
{
    let size = 2 + FIELD_WIDTH * N;
    if row.len() != size || row[size - 1] != b'\n' {
        return Err(RowFault::Length);
    }
    let mut numbers = [0; N];
    for (i, number) in numbers.iter_mut().enumerate() {
        *number = field_at(row, i)?;
    }
    Ok(numbers)
}

// Where the first number stands that fits no field.
fn first_unfit(numbers: &[u64]) -> Option<usize>
    ensures { result ≡ position (λ number. nat_lt LARGEST_NUMBER number) numbers.now }
{
    numbers.iter().position(|number| *number > LARGEST_NUMBER)
}

// Writes a line at the front of the buffer, and answers its length; or refuses and writes nothing.
pub fn write_line(letter: u8, numbers: &[u64], buffer: &mut [u8]) -> Result<usize, Refusal>
    requires { length numbers.now ≤ 6 }
    ensures wrote { Wrote numbers.now (LineOf letter numbers.now) buffer.old buffer.new result }
    ensures within { IfOk result (λ size. size ≤ length buffer.old) }
{
    if buffer.len() < LONGEST_ROW {
        return Err(Refusal::of(Ground::BufferTooSmall));
    }
    if let Some(i) = first_unfit(numbers) {
        return Err(Refusal::at(Ground::OutOfBounds, i as u64 + 1));
    }
    let size = 2 + FIELD_WIDTH * numbers.len();
    buffer[0] = letter;
    // By ranges, since a proof learns nothing of what is written through `chunks_exact_mut`.
    for (i, number) in numbers.iter().enumerate() {
        let start = 1 + FIELD_WIDTH * i;
        write_columns(*number, &mut buffer[start..start + FIELD_WIDTH]);
    }
    buffer[size - 1] = b'\n';
    Ok(size)
}
