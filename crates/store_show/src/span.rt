//! Which fields of a record are written.
ghost use Rattle.std.specs.Prelude.{◌≡◌};
ghost use Rattle.plan_order.specs.Walk.{is_below, is_taken};
ghost use Rattle.store_show.specs.Spans.{span_of};

/// Which fields of a record are written, by their response keys: an object with pointers tells these, its
/// id and its owner between some and others.
#[derive(Clone, Copy)]
pub(crate) enum Span {
    All,
    /// Those that stand before `__fragments`.
    Before,
    /// The others.
    Behind,
}

impl Span {
    /// Whether the field of a response key is one of them; takes no memory.
    pub(crate) fn takes(self, response: &str) -> bool
        ensures { result ≡ is_taken (span_of self) response.now }
    {
        match self {
            Span::All => true,
            Span::Before => is_before(response),
            Span::Behind => !is_before(response),
        }
    }
}

/// Whether the response key stands before `__fragments`.
fn is_before(response: &str) -> bool
    ensures { result ≡ is_below response.now }
{
    response.cmp("__fragments").is_lt()
}
