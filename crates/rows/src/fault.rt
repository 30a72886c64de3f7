// What is wrong with a field, a row or a page, and where.
ghost use Rattle.std.specs.Prelude.{◌≡◌};
ghost use Rattle.refusal.specs.Refusals.{refuse};
ghost use Rattle.rows.specs.Faults.{row_ground, row_place, page_ground, page_row, page_place};
ghost use Rattle.rows.specs.declared.fault.RowFault.TheVariants.{Field};
ghost use Rattle.rows.specs.declared.fault.PageFault.TheVariants.{InRow};

use refusal::{Ground, Refusal};

// A field is malformed: which one, counted from 1.
#[derive(Clone, Copy, Debug, PartialEq, Eq)]
pub struct FieldFault {
    pub place: u64,
}

// The row's letter is unknown, its length is not its letter's or no line feed ends it, or one of its fields is malformed.
#[derive(Clone, Copy, Debug, PartialEq, Eq)]
pub enum RowFault {
    Letter,
    Length,
    Field(FieldFault),
}

// A fault with the number of the row that has it, counted from 1.
#[derive(Clone, Copy, Debug, PartialEq, Eq)]
pub struct Numbered<E> {
    pub row: u64,
    pub fault: E,
}

// The page is too long, or one of its rows has a fault.
#[derive(Clone, Copy, Debug, PartialEq, Eq)]
pub enum PageFault {
    TooLong,
    InRow(Numbered<RowFault>),
}

// This and the next are written out, since clauses name the error that a `?` makes, of which a derived one says nothing.
impl From<FieldFault> for RowFault {
    ghost from_gives = { λ e r. r ≡ Field e };

    fn from(fault: FieldFault) -> RowFault {
        RowFault::Field(fault)
    }
}

impl From<Numbered<RowFault>> for PageFault {
    ghost from_gives = { λ e r. r ≡ InRow e };

    fn from(fault: Numbered<RowFault>) -> PageFault {
        PageFault::InRow(fault)
    }
}

impl RowFault {
    // The ground by which the fault is told.
    pub fn ground(self) -> Ground
        ensures { result ≡ row_ground self }
    {
        match self {
            RowFault::Letter => Ground::UnknownLetter,
            RowFault::Length => Ground::WrongLength,
            RowFault::Field(_) => Ground::MalformedField,
        }
    }

    // The place of the malformed field, counted from 1, else 0.
    pub fn place(self) -> u64
        ensures { result ≡ row_place self }
    {
        match self {
            RowFault::Letter | RowFault::Length => 0,
            RowFault::Field(fault) => fault.place,
        }
    }

    pub fn refusal(self) -> Refusal
        ensures { result ≡ refuse (row_ground self) (row_place self) }
    {
        Refusal::at(self.ground(), self.place())
    }
}

impl PageFault {
    // The row that has the fault, counted from 1, or 0 for the page as a whole.
    pub fn row(self) -> u64
        ensures { result ≡ page_row self }
    {
        match self {
            PageFault::TooLong => 0,
            PageFault::InRow(numbered) => numbered.row,
        }
    }

    pub fn refusal(self) -> Refusal
        ensures { result ≡ refuse (page_ground self) (page_place self) }
    {
        match self {
            PageFault::TooLong => Refusal::of(Ground::PageTooLong),
            PageFault::InRow(numbered) => numbered.fault.refusal(),
        }
    }
}

// So that a `?` tells a fault as its refusal.
impl From<PageFault> for Refusal {
    ghost from_gives = { λ e r. r ≡ refuse (page_ground e) (page_place e) };

    fn from(page_fault: PageFault) -> Refusal {
        page_fault.refusal()
    }
}
