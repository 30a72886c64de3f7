// What follows from the sharing law alone, for every rule.
ghost use Rattle.sharing.specs.Laws.{NoShareAboveTheAmount, NoWeightNoShare, SharesAddUp};

use crate::rule::SharingRule;

// The shares told one by one add up as a list, a weight of 0 gets nothing, and no share exceeds the amount.
pub fn sharing_laws_hold<R: SharingRule>(rule: &R)
    ensures shares_add_up { SharesAddUp R.LONGEST (R.share rule.now) }
    ensures no_weight_no_share { NoWeightNoShare R.LONGEST (R.share rule.now) }
    ensures no_share_above_the_amount { NoShareAboveTheAmount R.LONGEST (R.share rule.now) }
{}
