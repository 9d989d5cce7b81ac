//! Places in the files of a project.
ghost use Rattle.std.specs.Prelude.{◌≡◌, [], ◌∷◌, ◌++◌, length, IfOk, OnOk, OnErr, IsTrue, ◌↔◌};

use crate::lists::push;
use gql_plain::NoMemory;
use std::alloc::Global;
use std::marker::Model;

/// A place in a file: the file's number, the line, and the column in characters, both from 1.
#[derive(Clone, Copy, Debug, PartialEq, Eq)]
pub struct FilePlace {
    pub file: u32,
    pub line: u32,
    pub column: u32,
}

/// Places in text order.
#[derive(Debug)]
pub struct FilePlaces {
    pub items: Vec<FilePlace>,
}

impl Drop for FilePlaces {
    fn drop(self) {
        let FilePlaces { items } = self;
        drop(items);
    }
}

impl Model for FilePlaces {
    ghost use Rattle.std.specs.Prelude.{List};
    ghost use Rattle.gql_ast.specs.declared.place.FilePlace.{FilePlace};

    ghost Value = { List FilePlace };

    ghost view = { λ x. x.items.items };
}

impl FilePlaces {
    /// No place; takes no memory.
    pub fn new(alloc: Global) -> FilePlaces
        ensures { result ≡ [] }
    {
        FilePlaces {
            items: Vec::new(alloc),
        }
    }

    /// Puts a place at the end.
    pub fn push(&mut self, place: FilePlace) -> Result<(), NoMemory>
        ensures ok { OnOk result (self.new ≡ self.old ++ place ∷ []) }
        ensures err { OnErr result (self.new ≡ self.old) }
    {
        push(&mut self.items, place)
    }

    /// The places in order.
    pub fn as_slice(&self) -> &[FilePlace]
        ensures { result.now ≡ self.now }
    {
        &self.items
    }

    /// The number of places.
    pub fn len(&self) -> usize
        ensures { result ≡ length self.now }
    {
        self.items.len()
    }

    /// Whether there is no place.
    pub fn is_empty(&self) -> bool
        ensures { IsTrue result ↔ (self.now ≡ []) }
    {
        self.items.is_empty()
    }

    /// The same places.
    pub fn copy(&self) -> Result<FilePlaces, NoMemory>
        ensures { IfOk result (λ places. places ≡ self.now) }
    {
        let mut items = Vec::with_capacity(*self.items.allocator(), self.items.len())?;
        'places: for place in &self.items {
            items.push(*place)?;
        }
        Ok(FilePlaces { items })
    }
}

/// A tree with the places of its nodes in text order.
///
/// A node is a value of a struct or an enum of the trees, or a Name in them; a list, a Kind and a
/// Location are none. The place of a node is that of its first token: a definition with a
/// description begins with the description, a field, an input and an enum value of a type system
/// with its name, and a root with its kind. Of two nodes that begin at one token the outer one
/// stands first.
#[derive(Debug, Drop)]
pub struct Placed<T> {
    pub tree: T,
    pub places: FilePlaces,
}
