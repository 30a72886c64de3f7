// What follows from the law of an edition alone.
ghost use Rattle.edition.specs.Laws.{NoPercentageAbove100, PercentagesAddUp};

use crate::edition::Edition;

// The four percentages of a known category add up as a list, and none of them exceeds 100.
pub fn edition_laws_hold<E: Edition>(edition: &E)
    ensures percentages_add_up { PercentagesAddUp (E.known edition.now) (E.percent edition.now) }
    ensures no_percentage_above { NoPercentageAbove100 (E.known edition.now) (E.percent edition.now) }
{}
