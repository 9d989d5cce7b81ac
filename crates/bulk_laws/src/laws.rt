//! What holds of the large script for every seed and every count.
ghost use Rattle.bulk_laws.specs.Laws.{BulkIsAccepted, NoLineIsRefused};

/// Law: the schema and the document of the large script are a project that is accepted.
pub fn project_is_accepted()
    ensures { BulkIsAccepted }
{}

/// Law: from no seed does the script have a line that is refused, however many lines it has.
pub fn no_line_is_refused()
    ensures { NoLineIsRefused }
{}
