//! The least of places.
ghost use Rattle.std.specs.Prelude.{◌≡◌, [], ◌∷◌, None, IsTrue};
ghost use Rattle.gql_graph.specs.Leasts.{least_from};
ghost use Rattle.gql_graph.specs.Rules.{wrong};

/// The least of the places that were noted, by the numbers of their nodes.
#[derive(Clone, Copy, Debug)]
pub struct Least {
    pub at: Option<usize>,
}

impl Least {
    /// No place is noted.
    pub fn new() -> Least
        ensures { result.at ≡ None }
    {
        Least { at: None }
    }

    /// Notes a place.
    pub fn note(&mut self, at: usize)
        ensures { self.new.at ≡ least_from self.old.at (at ∷ []) }
    {
        match self.at {
            Some(least) => {
                if at < least {
                    self.at = Some(at);
                }
            }
            None => {
                self.at = Some(at);
            }
        }
    }

    /// Whether a place that is noted is not after this one.
    pub fn is_at_most(&self, at: usize) -> bool
        ensures { IsTrue result → least_from self.now.at (at ∷ []) ≡ self.now.at }
    {
        match self.at {
            Some(least) => least <= at,
            None => false,
        }
    }

    /// Notes a place where something is wrong there.
    pub fn note_if(&mut self, is_wrong: bool, at: usize)
        ensures { self.new.at ≡ least_from self.old.at (wrong is_wrong at) }
    {
        if is_wrong {
            self.note(at);
        }
    }
}
