// The worked sums, one joint theorem about what the definitions give.
#![tactic(auto)]

ghost use Rattle.worked_sums.specs.Sums.{WorkedSums};

// Every worked sum comes out as RULES.md has it.
pub fn worked_sums_hold()
    ensures { WorkedSums }
{}
