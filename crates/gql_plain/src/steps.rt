//! The counters of work.
ghost use Rattle.std.specs.Prelude.{◌≡◌, ℕ};
ghost use Rattle.gql_plain.specs.Counted.{next_count};

/// Counts the work of a store: look-ups of records, applications of entries, nodes made.
///
/// Each number stands still at `u64::MAX`. The trait has no maker, so generic code cannot make a
/// counter of its own for what it is given.
pub trait Steps {
    ghost looks: { Self → ℕ };

    ghost applies: { Self → ℕ };

    ghost nodes: { Self → ℕ };

    /// Counts one look-up of a record.
    fn look(&mut self)
        ensures looks { looks self.new ≡ next_count (looks self.old) }
        ensures applies { applies self.new ≡ applies self.old }
        ensures nodes { nodes self.new ≡ nodes self.old };

    /// Counts one entry applied to a record map.
    fn apply(&mut self)
        ensures looks { looks self.new ≡ looks self.old }
        ensures applies { applies self.new ≡ next_count (applies self.old) }
        ensures nodes { nodes self.new ≡ nodes self.old };

    /// Counts one node made.
    fn node(&mut self)
        ensures looks { looks self.new ≡ looks self.old }
        ensures applies { applies self.new ≡ applies self.old }
        ensures nodes { nodes self.new ≡ next_count (nodes self.old) };
}

/// Three counters.
#[derive(Clone, Copy, Debug, Drop)]
pub struct Counts {
    pub looks: u64,
    pub applies: u64,
    pub nodes: u64,
}

impl Counts {
    /// Counters that stand at 0.
    pub fn new() -> Counts
        ensures { result ≡ record { looks = 0; applies = 0; nodes = 0 } }
    {
        Counts {
            looks: 0,
            applies: 0,
            nodes: 0,
        }
    }
}

impl Steps for Counts {
    ghost looks = { λ c. c.looks };

    ghost applies = { λ c. c.applies };

    ghost nodes = { λ c. c.nodes };

    fn look(&mut self) {
        self.looks = self.looks.saturating_add(1);
    }

    fn apply(&mut self) {
        self.applies = self.applies.saturating_add(1);
    }

    fn node(&mut self) {
        self.nodes = self.nodes.saturating_add(1);
    }
}
