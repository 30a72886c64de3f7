// A ground, with the place that it is about.
ghost use Rattle.std.specs.Prelude.{◌≡◌};
ghost use Rattle.refusal.specs.Refusals.{refuse};

use crate::ground::Ground;
use std::fmt;

// The place is the first such argument or field, counted from 1, or the system that the ground is about; else 0.
#[derive(Clone, Copy, PartialEq, Eq, Debug)]
pub struct Refusal {
    pub ground: Ground,
    pub place: u64,
}

impl Refusal {
    // A refusal that is about no place in particular.
    pub fn of(ground: Ground) -> Refusal
        ensures { result ≡ refuse ground 0 }
    {
        Refusal { ground, place: 0 }
    }

    pub fn at(ground: Ground, place: u64) -> Refusal
        ensures { result ≡ refuse ground place }
    {
        Refusal { ground, place }
    }
}

// The number, the place where there is one, and the sentence. Written out, since a derived one says every field each time.
impl fmt::Display for Refusal {
    fn fmt<W: fmt::Write>(&self, f: &mut fmt::Formatter<W>) -> fmt::Result {
        let ground = self.ground;
        let number = ground.number();
        let place = self.place;
        if place == 0 {
            write!(f, "refused by ground {number}: {ground}")
        } else {
            write!(f, "refused by ground {number}, place {place}: {ground}")
        }
    }
}
