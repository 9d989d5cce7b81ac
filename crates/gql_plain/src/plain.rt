//! Plain trees.
ghost use Rattle.std.specs.Prelude.{◌≡◌, ◌==◌, [], ◌∷◌, ◌++◌, length, map, option_map, IfOk, OnOk, OnErr};
ghost use Rattle.std.specs.Map.{keys_of};
ghost use Rattle.gql_plain.specs.Order.{IsAfter, member_at};
ghost use Rattle.gql_plain.specs.Shown.{tree_of, plain_trees, shown_members};

use crate::memory::NoMemory;
use crate::words::Words;
use std::alloc::Global;
use std::marker::Model;

/// A JSON value whose numbers are all whole: null, a truth value, a number of 64 bits, a text, a
/// list, or an object with distinct keys in byte order.
#[cycle(plain)]
#[derive(Debug, Drop)]
pub enum Plain {
    Null,
    Bool(bool),
    Int(i64),
    Text(Words),
    List(Plains),
    Tree(Pairs),
}

/// A list of plain trees, seen as the list of the trees.
#[cycle(plain)]
#[derive(Debug)]
pub struct Plains {
    pub items: Vec<Plain>,
}

impl Drop for Plains {
    #[cycle(plain)]
    fn drop(self) {
        let Plains { items } = self;
        drop(items);
    }
}

/// The keys and values of an object, seen as the list of the pairs: the keys are distinct and in
/// byte order.
#[cycle(plain)]
#[derive(Debug)]
pub struct Pairs {
    pub entries: Vec<(Words, Plain)>,
}

impl Drop for Pairs {
    #[cycle(plain)]
    fn drop(self) {
        let Pairs { entries } = self;
        drop(entries);
    }
}

impl Model for Plains {
    ghost use Rattle.std.specs.Prelude.{List};
    ghost use Rattle.gql_plain.specs.Codes.{coded_trees};
    ghost use Rattle.gql_plain.specs.Tree.{Tree, trees_of, trees_weight};

    ghost Value = { List Tree };

    ghost coded = { coded_trees };

    ghost use Rattle.gql_plain.specs.Shown.{plain_trees};

    ghost view = { λ a. plain_trees a.items.items };

    ghost size = { λ ts. trees_weight (trees_of ts) };

    ghost use Rattle.std.proofs.Common.{arith};
    ghost use Rattle.gql_plain.specs.Falls.{most_deep-le_trees_weight};

    ghost size_decreases = { λ a h. omega (arith, most_deep-le_trees_weight a.items.items) };
}

impl Model for Pairs {
    ghost use Rattle.std.specs.Prelude.{ℕ, List};
    ghost use Rattle.std.specs.Map.{keys_of};
    ghost use Rattle.gql_plain.specs.Codes.{coded_members};
    ghost use Rattle.gql_plain.specs.Order.{AreInOrder};
    ghost use Rattle.gql_plain.specs.Tree.{Tree, members_of, members_weight};

    ghost Value = { List (List ℕ × Tree) };

    ghost coded = { coded_members };

    ghost use Rattle.gql_plain.specs.Shown.{shown_members};

    ghost view = { λ a. shown_members a.entries.items };

    ghost invariant = { λ a. AreInOrder (keys_of a.entries.items) };

    ghost size = { λ ms. members_weight (members_of ms) };

    ghost use Rattle.std.proofs.Common.{arith};
    ghost use Rattle.gql_plain.specs.Falls.{most_deep-le_members_weight};

    ghost size_decreases = { λ a h. omega (arith, most_deep-le_members_weight a.entries.items) };
}

impl Plain {
    /// An equal tree.
    #[cycle(copy)]
    pub fn copy(&self) -> Result<Plain, NoMemory>
        ensures { IfOk result (λ plain. plain ≡ self.now) }
    {
        match self {
            Plain::Null => Ok(Plain::Null),
            Plain::Bool(truth) => Ok(Plain::Bool(*truth)),
            Plain::Int(number) => Ok(Plain::Int(*number)),
            Plain::Text(text) => Ok(Plain::Text(text.copy()?)),
            Plain::List(plains) => Ok(Plain::List(plains.copy()?)),
            Plain::Tree(pairs) => Ok(Plain::Tree(pairs.copy()?)),
        }
    }
}

impl Plains {
    /// No tree; takes no memory.
    pub fn new(alloc: Global) -> Plains
        ensures { result ≡ [] }
    {
        Plains {
            items: Vec::new(alloc),
        }
    }

    /// Puts a tree to the end.
    pub fn push(&mut self, plain: Plain) -> Result<(), NoMemory>
        ensures ok { OnOk result (self.new ≡ self.old ++ tree_of plain ∷ []) }
        ensures err { OnErr result (self.new ≡ self.old) }
    {
        self.items.push(plain)?;
        Ok(())
    }

    /// How many trees; takes no memory.
    pub fn len(&self) -> usize
        ensures { result ≡ length self.now }
    {
        self.items.len()
    }

    /// Whether there is none; takes no memory.
    pub fn is_empty(&self) -> bool
        ensures { result ≡ (length self.now == 0) }
    {
        self.items.is_empty()
    }

    /// The trees; takes no memory.
    pub fn as_slice(&self) -> &[Plain]
        ensures { plain_trees result.now ≡ self.now }
    {
        self.items.as_slice()
    }

    /// An equal list.
    #[cycle(copy)]
    pub fn copy(&self) -> Result<Plains, NoMemory>
        ensures { IfOk result (λ plains. plains ≡ self.now) }
    {
        let mut items = Vec::with_capacity(*self.items.allocator(), self.items.len())?;
        'items: for plain in &self.items {
            items.push(plain.copy()?)?;
        }
        Ok(Plains { items })
    }
}

impl Pairs {
    /// No pair; takes no memory.
    pub fn new(alloc: Global) -> Pairs
        ensures { result ≡ [] }
    {
        Pairs {
            entries: Vec::new(alloc),
        }
    }

    /// Puts a pair to the end, whose key stands after the last one.
    pub fn push(&mut self, key: Words, plain: Plain) -> Result<(), NoMemory>
        requires { IsAfter key (keys_of self.old) }
        ensures ok { OnOk result (self.new ≡ self.old ++ (key, tree_of plain) ∷ []) }
        ensures err { OnErr result (self.new ≡ self.old) }
    {
        self.entries.push((key, plain))?;
        Ok(())
    }

    /// The value of a key, or None where no pair has it; takes no memory.
    pub fn get(&self, key: &str) -> Option<&Plain>
        ensures { option_map (λ plain. tree_of plain.now) result ≡ member_at self.now key.now }
    {
        let found = self
            .entries
            .binary_search_by(|(name, _)| name.as_str().cmp(key));
        match found {
            Ok(at) => Some(&self.entries[at].1),
            Err(_) => None,
        }
    }

    /// How many pairs; takes no memory.
    pub fn len(&self) -> usize
        ensures { result ≡ length self.now }
    {
        self.entries.len()
    }

    /// Whether there is none; takes no memory.
    pub fn is_empty(&self) -> bool
        ensures { result ≡ (length self.now == 0) }
    {
        self.entries.is_empty()
    }

    /// The pairs; takes no memory.
    pub fn as_slice(&self) -> &[(Words, Plain)]
        ensures { shown_members result.now ≡ self.now }
    {
        self.entries.as_slice()
    }

    /// An equal object.
    #[cycle(copy)]
    pub fn copy(&self) -> Result<Pairs, NoMemory>
        ensures { IfOk result (λ pairs. pairs ≡ self.now) }
    {
        let mut entries = Vec::with_capacity(*self.entries.allocator(), self.entries.len())?;
        'entries: for (key, plain) in &self.entries {
            entries.push((key.copy()?, plain.copy()?))?;
        }
        Ok(Pairs { entries })
    }
}
