// A field: a number at the right of ten columns, spaces before it.
ghost use Rattle.std.specs.Prelude.{◌≡◌, ℕ, ◌/◌, ◌^◌, ◌<◌, length, MatchOption, ◌≢◌};
ghost use Rattle.rows.specs.Fields.{mark, columns as columns_of, number_in};

pub const FIELD_WIDTH: usize = 10;

// The largest number that a field holds.
pub const LARGEST_NUMBER: u64 = 9_999_999_999;

// The number with one more column, where `value` stands before it.
fn read_column(value: u64, column: u8, last: bool) -> Option<u64>
    requires { value < 10 ^ 18 }
    ensures { MatchOption result ((n : ℕ) → n / 10 ≡ value → mark last n ≢ column) (λ n. (n / 10 ≡ value) × (mark last n ≡ column)) }
{
    match column {
        b' ' if value == 0 && !last => Some(0),
        b'0' if value == 0 && !last => None,
        b'0'..=b'9' => Some(value * 10 + u64::from(column - b'0')),
        _ => None,
    }
}

// The column that shows the last digit of `rest`.
fn column_of(rest: u64, last: bool) -> u8
    ensures { result ≡ mark last rest }
{
    if rest == 0 && !last {
        b' '
    } else {
        b'0' + (rest % 10) as u8
    }
}

// The number in a field, if the field is well formed.
pub fn read_field(columns: &[u8]) -> Option<u64>
    ensures { result ≡ number_in columns.now }
{
    if columns.len() != FIELD_WIDTH {
        return None;
    }
    let mut value = 0;
    for (i, column) in columns.iter().enumerate() {
        value = read_column(value, *column, i + 1 == FIELD_WIDTH)?;
    }
    Some(value)
}

// Writes the last columns of `value`, as many as `out` has.
pub fn write_columns(value: u64, out: &mut [u8])
    ensures { out.new ≡ columns_of (length out.old) value }
{
    let mut rest = value;
    let width = out.len();
    // By index, since a proof learns nothing of what is written through `iter_mut().rev()`.
    for i in (0..width).rev() {
        out[i] = column_of(rest, i + 1 == width);
        rest /= 10;
    }
}
