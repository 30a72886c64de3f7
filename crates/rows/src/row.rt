// What every kind of row keeps: it is written by its numbers, and reads back as what was written and as nothing else.
ghost use Rattle.std.specs.Prelude.{◌≡◌, ℕ, ◌≤◌, List, length, IfOk, Result};
ghost use Rattle.rows.specs.Lines.{Fit, NoOtherIsRead, ReadsExactly, RowsTellApart, WrittenReadsBack, Wrote};
ghost use Rattle.rows.specs.declared.fault.RowFault.{RowFault};

use crate::fault::RowFault;
use refusal::Refusal;

// A value that a row tells.
pub trait Row: Copy {
    // The numbers of the value, in the order of its fields.
    ghost numbers: { Self → List ℕ };

    // The bytes of its row.
    ghost bytes: { Self → List ℕ };

    // What a row of any bytes says.
    ghost said: { List ℕ → Result Self RowFault };

    // The value in a row, or the first that is wrong with it: its letter, its length or end, its first malformed field.
    fn read(row: &[u8]) -> Result<Self, RowFault>
        ensures answer { result ≡ said row.now }
        ensures exactly { ReadsExactly (λ value. Fit (numbers value)) bytes row.now result };

    // Writes the value's row at the front of the buffer, which has to have 62 bytes, and answers its length; or refuses and
    // writes nothing.
    fn write(self, buffer: &mut [u8]) -> Result<usize, Refusal>
        ensures wrote { Wrote (numbers self) (bytes self) buffer.old buffer.new result }
        ensures within { IfOk result (λ size. size ≤ length buffer.old) };

    // The row that is written for a value reads back as that value, and no other row is read as it, so rows tell values apart.
    fn no_other_row_is_read()
        ensures back { WrittenReadsBack (λ value. Fit (numbers value)) bytes said }
        ensures only { NoOtherIsRead (λ value. Fit (numbers value)) bytes said }
        ensures apart { RowsTellApart (λ value. Fit (numbers value)) bytes };
}
