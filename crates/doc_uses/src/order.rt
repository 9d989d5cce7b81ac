//! An order of names in which each stands after those that it leads to, where these do not lead back.
//! It is found by a search in depth, in the time of one look at each name and each link. Nothing is
//! promised of it: who asks has to look at it.
ghost use Rattle.std.specs.Prelude.{◌≡◌};

use doc_sites::NoMemory;
use doc_sites::graph::Graph;
use doc_sites::seen::Seen;
use std::alloc::Global;

/// Where a search stands.
#[derive(Drop)]
struct Search<'a> {
    /// The names that were entered.
    entered: Seen<'a>,
    /// The names from the one where the search began to the one where it stands, each with how many of
    /// its links were followed.
    path: Vec<(&'a str, usize)>,
}

impl<'a> Search<'a> {
    /// Enters a name, unless it was entered before: the search stands there.
    fn enter(&mut self, name: &'a str) -> Result<(), NoMemory> {
        let is_new = self.entered.insert(name)?;
        if is_new {
            self.path.push((name, 0))?;
        }
        Ok(())
    }

    /// Follows a link of the name where the search stands. Where none is left, the name is put behind
    /// the others, and the search goes back to where it came from.
    fn step(&mut self, graph: &Graph<'a>, order: &mut Vec<&'a str>) -> Result<(), NoMemory> {
        let Some((name, followed)) = self.path.pop() else {
            return Ok(());
        };
        match graph.next(name).get(followed).copied() {
            Some(next) => {
                self.path.push((name, followed.saturating_add(1)))?;
                self.enter(next)
            }
            None => {
                order.push(name)?;
                Ok(())
            }
        }
    }
}

/// These names and those that they lead to, each once, and after those that it leads to, where these do
/// not lead back.
pub(crate) fn order_of<'a>(
    alloc: Global,
    graph: &Graph<'a>,
    names: &[&'a str],
) -> Result<Vec<&'a str>, NoMemory> {
    let mut order = Vec::new(alloc);
    let mut search = Search {
        entered: Seen::new(alloc),
        path: Vec::new(alloc),
    };
    let most = count_steps(graph, names);
    'names: for name in names {
        search.enter(name)?;
        'steps: for _ in 0..most {
            if search.path.is_empty() {
                break;
            }
            search.step(graph, &mut order)?;
        }
    }
    Ok(order)
}

/// How many steps a search has at most: two a link, for one may lead to a name that leads nowhere, and
/// one a name.
fn count_steps(graph: &Graph<'_>, names: &[&str]) -> usize {
    let mut steps: usize = names.len();
    'names: for name in names {
        let links = graph.next(name).len();
        steps = steps.saturating_add(links).saturating_add(links);
    }
    steps
}
