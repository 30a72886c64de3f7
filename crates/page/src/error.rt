// Why a page's call has no answer.
ghost use Rattle.std.specs.Prelude.{◌≡◌};
ghost use Rattle.page.specs.declared.error.PageError.TheVariants.{NoMemory, Refused};

use refusal::Refusal;
use std::alloc::AllocError;

// A refusal of the buffer, or want of memory for the year.
#[derive(Clone, Copy)]
pub enum PageError {
    Refused(Refusal),
    NoMemory,
}

// Both are written out, since a clause names the error that a `?` makes, of which a derived one says nothing.
impl From<Refusal> for PageError {
    ghost from_gives = { λ e r. r ≡ Refused e };

    fn from(refusal: Refusal) -> PageError {
        PageError::Refused(refusal)
    }
}

impl From<AllocError> for PageError {
    ghost from_gives = { λ e r. r ≡ NoMemory };

    fn from(_: AllocError) -> PageError {
        PageError::NoMemory
    }
}
