//! The least of places in files (this project's own).
ghost use Rattle.std.specs.Prelude.{◌≡◌, [], ◌∷◌, None};
ghost use Rattle.doc_merge.specs.Places as places;
ghost use Rattle.doc_merge.specs.Places.{least_from, wrong};

use plan_ir::FilePlace;

/// The least of the places that were noted, by file, line and column.
#[derive(Clone, Copy, Debug)]
pub struct Least {
    pub at: Option<FilePlace>,
}

impl Least {
    /// No place is noted.
    pub fn new() -> Least
        ensures { result.at ≡ None }
    {
        Least { at: None }
    }

    /// Notes a place.
    pub fn note(&mut self, at: FilePlace)
        ensures { self.new.at ≡ least_from self.old.at (at ∷ []) }
    {
        match self.at {
            Some(least) => {
                if is_before(at, least) {
                    self.at = Some(at);
                }
            }
            None => {
                self.at = Some(at);
            }
        }
    }

    /// Notes a place where something is wrong there.
    pub(crate) fn note_if(&mut self, is_wrong: bool, at: FilePlace)
        ensures { self.new.at ≡ least_from self.old.at (wrong is_wrong at) }
    {
        if is_wrong {
            self.note(at);
        }
    }
}

/// Whether a place is before another: by file, line and column.
fn is_before(one: FilePlace, other: FilePlace) -> bool
    ensures { result ≡ places.is_before one other }
{
    if one.file < other.file {
        return true;
    }
    if one.file != other.file {
        return false;
    }
    if one.line < other.line {
        return true;
    }
    if one.line != other.line {
        return false;
    }
    one.column < other.column
}
