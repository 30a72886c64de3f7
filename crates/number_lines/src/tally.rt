// What became of the lines that a program read.
ghost use Rattle.std.specs.Prelude.{◌≡◌, ◌&&◌, ◌==◌};
ghost use Rattle.number_lines.specs.Tallies.{answered_by, tallied};

use std::fmt;

#[derive(Clone, Copy, Debug, PartialEq, Eq)]
pub enum Outcome {
    Answered,
    Refused,
    NotUnderstood,
    Blank,
}

impl Outcome {
    // What became of a line that was put to two rules: it is answered where the first rule or the second answered it.
    pub fn or(self, second: Outcome) -> Outcome
        ensures { result ≡ answered_by self second }
    {
        match self {
            Outcome::Answered => self,
            _ => second,
        }
    }
}

// How many lines there were of each outcome; blank lines count for nothing.
#[derive(Clone, Copy, Debug, Default, PartialEq, Eq)]
pub struct Tally {
    pub answered: u64,
    pub refused: u64,
    pub unread: u64,
}

impl Tally {
    // The tally with one line more.
    pub fn with(mut self, outcome: Outcome) -> Tally
        ensures { result ≡ tallied self outcome }
    {
        match outcome {
            Outcome::Answered => self.answered = self.answered.saturating_add(1),
            Outcome::Refused => self.refused = self.refused.saturating_add(1),
            Outcome::NotUnderstood => self.unread = self.unread.saturating_add(1),
            Outcome::Blank => {}
        }
        self
    }

    // Whether no line counted.
    pub fn is_empty(self) -> bool
        ensures { result ≡ (self.answered == 0 && (self.refused == 0 && self.unread == 0)) }
    {
        self == Tally::default()
    }
}

// Written out, since the derive that writes sentences is for errors.
impl fmt::Display for Tally {
    fn fmt<W: fmt::Write>(&self, f: &mut fmt::Formatter<W>) -> fmt::Result {
        let answered = self.answered;
        let refused = self.refused;
        let unread = self.unread;
        write!(
            f,
            "Lines answered: {answered}, refused: {refused}, not understood: {unread}."
        )
    }
}
