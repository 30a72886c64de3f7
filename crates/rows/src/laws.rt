// What holds of all rows and all pages.
ghost use Rattle.std.specs.Prelude.{◌≡◌, Some, None};
ghost use Rattle.rows.specs.Fields.{SpacesThenDigits};
ghost use Rattle.rows.specs.Lines.{Fit, WrittenReadsBack};
ghost use Rattle.rows.specs.Pages.{RowsMakeThePage};
ghost use Rattle.rows.specs.Wrong.{FieldsTold, LengthsTold, LettersTold};

use crate::line::LONGEST_ROW;
use crate::row::Row;

// The row that is written for a value reads back as that value. Answers what is read, or None where a number fits no field.
pub fn written_row_reads_back<T: Row>(value: T) -> Option<T>
    ensures law { WrittenReadsBack (λ value. Fit (T.numbers value)) T.bytes T.said }
    ensures back { Fit (T.numbers value) → result ≡ Some value }
    ensures unfit { (Fit (T.numbers value) → ⊥) → result ≡ None }
{
    T::no_other_row_is_read();
    let mut buffer = [0u8; LONGEST_ROW];
    let size = value.write(&mut buffer).ok()?;
    T::read(&buffer[0..size]).ok()
}

// What the fault of a row says of its bytes: the letter is that of no call; the length is not the letter's, or no line feed is at
// the end; or the field at that place is the first malformed one.
pub fn faults_say_what_is_wrong()
    ensures letters { LettersTold }
    ensures lengths { LengthsTold }
    ensures fields { FieldsTold }
{}

// The rows of a page joined are the page, and each but the last ends with its only line feed.
pub fn rows_make_the_page()
    ensures { RowsMakeThePage }
{}

// A field is spaces, and then the digits of its number.
pub fn fields_are_spaces_then_digits()
    ensures { SpacesThenDigits }
{}
