//! Laws.
ghost use Rattle.image_rules.specs.Listed.{ListsAreDecided};

/// Law: the truth value decides whether each list is that of an image.
pub fn lists_are_decided()
    ensures { ListsAreDecided }
{}
