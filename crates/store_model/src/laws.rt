//! The laws of likeness, of seats, of rows, of entries and of retention (this project's own). F and G are what stands below
//! a field: selections of a document, steps of a plan.
ghost use Rattle.store_model.specs.Enough.{LooksAreEnough};
ghost use Rattle.store_model.specs.FactRows.{FactsAreInOrder};
ghost use Rattle.store_model.specs.Laws.{ReadsAreAlike, ReachesAreAlike, ResponsesAreAlike, DepthsAreEnough};
ghost use Rattle.store_model.specs.Retention.{ReadsAreRetained};
ghost use Rattle.store_model.specs.Smaller.{FoundIsSmaller};
ghost use Rattle.store_model.specs.Verdicts.{SeatsAreRight};

/// Law: parts that are alike are read alike.
pub fn reads_are_alike<F, G>()
    ensures { ReadsAreAlike F G }
{}

/// Law: parts that are alike reach the same ids.
pub fn reaches_are_alike<F, G>()
    ensures { ReachesAreAlike F G }
{}

/// Law: parts that are n deep are read alike, and reach the same ids, under every number of at least n.
pub fn depths_are_enough<F>()
    ensures { DepthsAreEnough F }
{}

/// Law: every response says the same of parts that are alike.
pub fn responses_are_alike<F, G>()
    ensures { ResponsesAreAlike F G }
{}

/// Law: of the values said at one id and key, a seat has the one at the least path, and of those that
/// differ from it again the one at the least path.
pub fn seats_are_right()
    ensures { SeatsAreRight }
{}

/// Law: the facts of rows rise by id and then by key, so no id and key stand there twice.
pub fn facts_are_in_order()
    ensures { FactsAreInOrder }
{}

/// Law: what a sweep leaves gives each read of a retained operation, and in turn of its pointers, as before.
pub fn reads_are_retained<F>()
    ensures { ReadsAreRetained F }
{}

/// Law: a value that is found in an object or an array of a response is less deep.
pub fn found_is_smaller()
    ensures { FoundIsSmaller }
{}

/// Law: what an entry asks for is all that it depends on.
pub fn looks_are_enough()
    ensures { LooksAreEnough }
{}
