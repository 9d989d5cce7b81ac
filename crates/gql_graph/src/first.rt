//! The first of several rules that does not hold.
ghost use Rattle.std.specs.Prelude.{◌≡◌, ℕ, List, None, ◌∷◌};
ghost use Rattle.gql_graph.specs.Leasts.{least_from};
ghost use Rattle.gql_graph.specs.Rules.{first_from};

/// The first of the rules that were settled that does not hold, with the least place where it does
/// not, by the number of the node. The rules may be of any type.
#[derive(Clone, Copy, Debug)]
pub struct First<R> {
    pub found: Option<(R, usize)>,
}

impl<R: Copy> First<R> {
    /// No rule is settled.
    pub fn new() -> First<R>
        ensures { result.found ≡ None }
    {
        First { found: None }
    }

    /// Settles one more rule, with the least place where it does not hold: `None` where it holds.
    pub fn settle(&mut self, rule: R, place: Option<usize>)
        ensures { (places : List ℕ) (more : List (R × List ℕ)) → place ≡ least_from None places
            → first_from self.new.found more ≡ first_from self.old.found ((rule, places) ∷ more) }
    {
        if self.found.is_some() {
            return;
        }
        match place {
            Some(at) => {
                self.found = Some((rule, at));
            }
            None => {}
        }
    }
}
