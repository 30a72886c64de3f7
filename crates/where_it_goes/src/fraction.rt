// The exact proportion of a taker, as a fraction.
use std::fmt;

// A number with a sign, in lowest terms. The sign stands apart, since the numerator may take all of its 128 bits.
#[derive(Clone, Copy)]
pub struct Fraction {
    negative: bool,
    numerator: u128,
    denominator: u128,
}

impl Fraction {
    // `numerator` over `denominator`, or None where that has no meaning.
    pub fn new(negative: bool, numerator: u128, denominator: u128) -> Option<Fraction> {
        let common = common_divisor(numerator, denominator);
        if common == 0 || denominator == 0 {
            return None;
        }
        Some(Fraction {
            negative,
            numerator: numerator / common,
            denominator: denominator / common,
        })
    }
}

// The greatest number that divides both, by Euclid.
fn common_divisor(a: u128, b: u128) -> u128 {
    let mut larger = a;
    let mut smaller = b;
    while smaller > 0 {
        let rest = larger % smaller;
        larger = smaller;
        smaller = rest;
    }
    larger
}

// Written out, since a sign and a denominator may be left away.
impl fmt::Display for Fraction {
    fn fmt<W: fmt::Write>(&self, f: &mut fmt::Formatter<W>) -> fmt::Result {
        let numerator = self.numerator;
        let denominator = self.denominator;
        let sign = if self.negative { "-" } else { "" };
        if denominator == 1 {
            write!(f, "{sign}{numerator}")
        } else {
            write!(f, "{sign}{numerator}/{denominator}")
        }
    }
}
