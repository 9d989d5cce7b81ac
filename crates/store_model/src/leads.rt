//! What ids lead to (this project's own): the records that the entries of live layers need.
ghost use Rattle.store_model.specs.Leads.{LeadsIsLeast};

/// Law: what ids lead to is the least set that holds the ids and their page information, and with each
/// live id its own page information and the ids that its record links to, with theirs.
pub fn leads_is_least()
    ensures { LeadsIsLeast }
{}
