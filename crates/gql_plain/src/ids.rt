//! Lists of ids.
ghost use Rattle.std.specs.Prelude.{◌≡◌, ◌==◌, [], ◌∷◌, ◌++◌, length, IfOk, OnOk, OnErr};
ghost use Rattle.gql_plain.specs.Order.{AreInOrder, AreSortedOf, has_text};

use crate::memory::NoMemory;
use crate::words::{Name, Words};
use std::alloc::Global;
use std::marker::Model;
use std::rc::Rc;

/// Texts that are distinct and in byte order, such as the ids of records, seen as a list. Several
/// owners share one list.
#[derive(Debug)]
pub struct Ids {
    /// None where there is no text.
    texts: Option<Rc<Vec<Words>>>,
}

impl Drop for Ids {
    fn drop(self) {
        let Ids { texts } = self;
        drop(texts);
    }
}

impl Model for Ids {
    ghost use Rattle.std.specs.Prelude.{ℕ, List, [], option_map, unwrap_or};
    ghost use Rattle.gql_plain.specs.Order.{AreInOrder};

    ghost Value = { List (List ℕ) };

    ghost view = { λ a. unwrap_or (option_map (λ shared. shared.value.items) a.texts) [] };

    ghost invariant = { λ a. AreInOrder (unwrap_or (option_map (λ shared. shared.value.items) a.texts) []) };
}

impl Ids {
    /// No text; takes no memory.
    pub fn new(_alloc: Global) -> Ids
        ensures { result ≡ [] }
    {
        Ids { texts: None }
    }

    /// The distinct texts of a list, in byte order.
    pub fn sort(mut words: Vec<Words>) -> Result<Ids, NoMemory>
        ensures { IfOk result (AreSortedOf words.items) }
    {
        words.sort()?;
        words.dedup();
        Ids::in_order(words)
    }

    /// The texts of a list, which are distinct and in byte order.
    pub fn in_order(words: Vec<Words>) -> Result<Ids, NoMemory>
        requires { AreInOrder words.items }
        ensures { IfOk result (λ ids. ids ≡ words.items) }
    {
        let alloc = *words.allocator();
        Ok(Ids {
            texts: Some(Rc::new(alloc, words)?),
        })
    }

    /// Whether the text is one of them; takes no memory.
    pub fn contains(&self, id: &str) -> bool
        ensures { result ≡ has_text self.now id.now }
    {
        match &self.texts {
            Some(texts) => texts.binary_search_by(|word| word.as_str().cmp(id)).is_ok(),
            None => false,
        }
    }

    /// How many texts; takes no memory.
    pub fn len(&self) -> usize
        ensures { result ≡ length self.now }
    {
        self.as_slice().len()
    }

    /// Whether there is none; takes no memory.
    pub fn is_empty(&self) -> bool
        ensures { result ≡ (length self.now == 0) }
    {
        self.as_slice().is_empty()
    }

    /// The texts; takes no memory.
    pub fn as_slice(&self) -> &[Words]
        ensures { result.now ≡ self.now }
    {
        match &self.texts {
            Some(texts) => texts.as_slice(),
            None => &[],
        }
    }

    /// One more owner of the same list.
    pub fn copy(&self) -> Result<Ids, NoMemory>
        ensures { IfOk result (λ ids. ids ≡ self.now) }
    {
        match &self.texts {
            Some(texts) => Ok(Ids {
                texts: Some(texts.clone()?),
            }),
            None => Ok(Ids { texts: None }),
        }
    }
}

impl PartialEq for Ids {
    ghost use Rattle.std.specs.Cmp.{partial_equiv_from_equiv};
    ghost use Rattle.gql_plain.specs.Equal.{texts_eq, texts_eq_equiv};

    ghost eq = { texts_eq };

    ghost laws = { partial_equiv_from_equiv texts_eq_equiv };

    fn eq(&self, other: &Ids) -> bool {
        self.len() == other.len() && self.as_slice() == other.as_slice()
    }
}

impl Eq for Ids {
    ghost use Rattle.gql_plain.specs.Equal.{texts_eq_equiv};

    ghost laws = { texts_eq_equiv };
}

/// Ids or the lack of one, in an order of their own, seen as a list.
#[derive(Debug)]
pub struct OptIds {
    items: Vec<Option<Words>>,
}

impl Drop for OptIds {
    fn drop(self) {
        let OptIds { items } = self;
        drop(items);
    }
}

impl Model for OptIds {
    ghost use Rattle.std.specs.Prelude.{ℕ, List, Option};

    ghost Value = { List (Option (List ℕ)) };

    ghost view = { λ a. a.items.items };
}

impl OptIds {
    /// No id; takes no memory.
    pub fn new(alloc: Global) -> OptIds
        ensures { result ≡ [] }
    {
        OptIds {
            items: Vec::new(alloc),
        }
    }

    /// Puts an id, or the lack of one, to the end.
    pub fn push(&mut self, id: Option<Words>) -> Result<(), NoMemory>
        ensures ok { OnOk result (self.new ≡ self.old ++ id ∷ []) }
        ensures err { OnErr result (self.new ≡ self.old) }
    {
        self.items.push(id)?;
        Ok(())
    }

    /// How many entries; takes no memory.
    pub fn len(&self) -> usize
        ensures { result ≡ length self.now }
    {
        self.items.len()
    }

    /// Whether there is none; takes no memory.
    pub fn is_empty(&self) -> bool
        ensures { result ≡ (length self.now == 0) }
    {
        self.items.is_empty()
    }

    /// The entries; takes no memory.
    pub fn as_slice(&self) -> &[Option<Words>]
        ensures { result.now ≡ self.now }
    {
        self.items.as_slice()
    }

    /// An equal list.
    pub fn copy(&self) -> Result<OptIds, NoMemory>
        ensures { IfOk result (λ ids. ids ≡ self.now) }
    {
        let mut items = Vec::with_capacity(*self.items.allocator(), self.items.len())?;
        'items: for id in &self.items {
            items.push(copy_of(id)?)?;
        }
        Ok(OptIds { items })
    }
}

impl PartialEq for OptIds {
    ghost use Rattle.std.specs.Cmp.{partial_equiv_from_equiv};
    ghost use Rattle.gql_plain.specs.Equal.{links_eq, links_eq_equiv};

    ghost eq = { links_eq };

    ghost laws = { partial_equiv_from_equiv links_eq_equiv };

    fn eq(&self, other: &OptIds) -> bool {
        self.len() == other.len() && self.as_slice() == other.as_slice()
    }
}

impl Eq for OptIds {
    ghost use Rattle.gql_plain.specs.Equal.{links_eq_equiv};

    ghost laws = { links_eq_equiv };
}

/// An equal text, where there is one.
fn copy_of(id: &Option<Words>) -> Result<Option<Words>, NoMemory>
    ensures { IfOk result (λ copy. copy ≡ id.now) }
{
    match id {
        Some(id) => Ok(Some(id.copy()?)),
        None => Ok(None),
    }
}

/// What a `@connection` says (this project's own): the key, and the names of the arguments that
/// tell one connection from another, where they are given.
#[derive(Debug, Drop, PartialEq, Eq)]
pub struct Conn {
    pub key: Name,
    pub filters: Option<Ids>,
}

impl Conn {
    /// An equal value.
    pub fn copy(&self) -> Result<Conn, NoMemory>
        ensures { IfOk result (λ conn. conn ≡ self.now) }
    {
        let key = self.key.copy()?;
        let filters = match &self.filters {
            Some(filters) => Some(filters.copy()?),
            None => None,
        };
        Ok(Conn { key, filters })
    }
}
