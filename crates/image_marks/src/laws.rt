//! The law of marks.
ghost use Rattle.image_marks.specs.Flat.{FlatIsReadBack};

/// Law: a list of marks is read as a value exactly where it is the value's.
pub fn flat_is_read_back()
    ensures { FlatIsReadBack }
{}
