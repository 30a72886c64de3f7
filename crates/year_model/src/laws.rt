// What holds of every call.
ghost use Rattle.year_model.specs.Books.{BooksBalance};
ghost use Rattle.year_model.specs.DraftLaws.{DraftsStaySpendable, SpendableDraftsAreAccepted};
ghost use Rattle.year_model.specs.Laws.{CallsKeepDates, CallsKeepSoundness, CategoriesAreKnown, CostsAreAccountedFor, EveryStateIsSound, EveryTermIsDated, RefusalsChangeNothing};

// A refused call leaves the state as it was.
pub fn refusals_change_nothing()
    ensures { RefusalsChangeNothing }
{}

// Every call keeps the year sound, so every list of calls leads to a sound year.
pub fn calls_keep_the_year_sound()
    ensures kept { CallsKeepSoundness }
    ensures every_state { EveryStateIsSound }
{}

// Every call keeps the terms of the contracts within the calendar year, so they are after every list of calls.
pub fn calls_keep_terms_in_the_year()
    ensures kept { CallsKeepDates }
    ensures every_state { EveryTermIsDated }
{}

// After every list of calls, under every lawful rule and edition, the accepted costs are what was taken back, what stands
// and what landed.
pub fn costs_are_accounted_for()
    ensures { CostsAreAccountedFor }
{}

// After every list of calls the edition knows the category of every system.
pub fn categories_are_known()
    ensures { CategoriesAreKnown }
{}

// Issue and tear accept exactly the spendable drafts, and a draft stays spendable until it is spent.
pub fn drafts_are_spent_once()
    ensures accepted { SpendableDraftsAreAccepted }
    ensures stay { DraftsStaySpendable }
{}

// The books of every list of calls balance, under every lawful sharing rule and every lawful edition: euros are conserved
// and none hides, passes are fair, settles are passes, contracts add up, part months pay by the day, and a draft that was
// started can be spent.
pub fn books_balance()
    ensures { BooksBalance }
{}
