//! What a payload says.
ghost use Rattle.std.specs.Prelude.{◌≡◌, ◌==◌, [], ◌∷◌, ◌++◌, length, IfOk, OnOk, OnErr};
ghost use Rattle.store_model.specs.FactOrder.{IsHandleAfter};
ghost use Rattle.store_model.specs.FactRows.{facts_of, facts_of_row, IsFactRow, AreFactRows, IsRowAfter};

use std::alloc::Global;
use std::marker::Model;
use store_record::gql_plain::{Id, Name, NoMemory, Plain, Words};
use store_record::{Field, Fields};

/// One field of one record.
#[derive(Drop)]
pub struct Fact {
    pub id: Id,
    pub key: Words,
    pub value: Field,
}

impl Fact {
    /// An equal fact.
    pub fn copy(&self) -> Result<Fact, NoMemory>
        ensures { IfOk result (λ fact. fact ≡ self.now) }
    {
        let id = self.id.copy()?;
        let key = self.key.copy()?;
        let value = self.value.copy()?;
        Ok(Fact { id, key, value })
    }
}

/// The facts of one record: its id, the name of its type, and its other fields. The name of the type
/// stands for the fact under `__typename`, so no field has that key.
#[derive(Drop)]
pub struct FactRow {
    pub id: Id,
    pub type_name: Name,
    pub fields: Fields,
}

impl FactRow {
    /// An equal row.
    pub fn copy(&self) -> Result<FactRow, NoMemory>
        ensures { IfOk result (λ row. row ≡ self.now) }
    {
        let id = self.id.copy()?;
        let type_name = self.type_name.copy()?;
        let fields = self.fields.copy()?;
        Ok(FactRow {
            id,
            type_name,
            fields,
        })
    }
}

/// Facts by rows in byte order of their ids, seen as the list of the facts: those of one id stand
/// together, in byte order of their keys.
pub struct FactList {
    pub rows: Vec<FactRow>,
}

impl Drop for FactList {
    fn drop(self) {
        let FactList { rows } = self;
        drop(rows);
    }
}

impl Model for FactList {
    ghost use Rattle.std.specs.Prelude.{List};
    ghost use Rattle.std.specs.Coded.{coded_list};
    ghost use Rattle.store_model.specs.declared.facts.Fact.{Fact};
    ghost use Rattle.store_model.specs.contracts.facts.Fact as fact;

    ghost Value = { List Fact };

    ghost coded = { coded_list fact.the_row.coded };

    ghost use Rattle.store_model.specs.FactRows.{facts_of, AreFactRows};

    ghost view = { λ a. facts_of a.rows.items };

    ghost invariant = { λ a. AreFactRows a.rows.items };
}

impl FactList {
    /// No fact; takes no memory.
    pub fn new(alloc: Global) -> FactList
        ensures { result ≡ [] }
    {
        FactList {
            rows: Vec::new(alloc),
        }
    }

    /// Puts the facts of a row to the end; its id stands after those before it.
    pub fn push_row(&mut self, row: FactRow) -> Result<(), NoMemory>
        requires row { IsFactRow row }
        requires after { IsRowAfter row self.old }
        ensures ok { OnOk result (self.new ≡ self.old ++ facts_of_row row) }
        ensures err { OnErr result (self.new ≡ self.old) }
    {
        self.rows.push(row)?;
        Ok(())
    }

    /// The rows, one for each id; takes no memory.
    pub fn rows(&self) -> &[FactRow]
        ensures facts { facts_of result.now ≡ self.now }
        ensures order { AreFactRows result.now }
    {
        self.rows.as_slice()
    }

    /// An equal list.
    pub fn copy(&self) -> Result<FactList, NoMemory>
        ensures { IfOk result (λ copy. copy ≡ self.now) }
    {
        let mut rows = Vec::new(*self.rows.allocator());
        'rows: for row in &self.rows {
            rows.push(row.copy()?)?;
        }
        Ok(FactList { rows })
    }
}

/// One page of a connection: the record that holds it, the keys under which the client's and the
/// server's connection stand there, the cursors that were asked for, and the types of the connection
/// and of its page information (Cursor Connections, sections 2 and 5).
#[derive(Drop)]
pub struct HandleFact {
    pub parent: Id,
    pub handle_key: Words,
    pub field_key: Words,
    pub after: Plain,
    pub before: Plain,
    pub page_type: Name,
    pub info_type: Name,
}

impl HandleFact {
    /// An equal page.
    pub fn copy(&self) -> Result<HandleFact, NoMemory>
        ensures { IfOk result (λ handle. handle ≡ self.now) }
    {
        let parent = self.parent.copy()?;
        let handle_key = self.handle_key.copy()?;
        let field_key = self.field_key.copy()?;
        let after = self.after.copy()?;
        let before = self.before.copy()?;
        let page_type = self.page_type.copy()?;
        let info_type = self.info_type.copy()?;
        Ok(HandleFact {
            parent,
            handle_key,
            field_key,
            after,
            before,
            page_type,
            info_type,
        })
    }
}

/// Pages in byte order of parent, handle key and field key, seen as a list: no two are of one place.
pub struct HandleFacts {
    pub items: Vec<HandleFact>,
}

impl Drop for HandleFacts {
    fn drop(self) {
        let HandleFacts { items } = self;
        drop(items);
    }
}

impl Model for HandleFacts {
    ghost use Rattle.std.specs.Prelude.{List};
    ghost use Rattle.std.specs.Coded.{coded_list};
    ghost use Rattle.store_model.specs.declared.facts.HandleFact.{HandleFact};
    ghost use Rattle.store_model.specs.contracts.facts.HandleFact as handle;

    ghost Value = { List HandleFact };

    ghost coded = { coded_list handle.the_row.coded };

    ghost view = { λ a. a.items.items };

    ghost use Rattle.store_model.specs.FactOrder.{AreHandlesInOrder};

    ghost invariant = { λ a. AreHandlesInOrder a.items.items };
}

impl HandleFacts {
    /// No page; takes no memory.
    pub fn new(alloc: Global) -> HandleFacts
        ensures { result ≡ [] }
    {
        HandleFacts {
            items: Vec::new(alloc),
        }
    }

    /// Puts a page to the end, which stands after the last one.
    pub fn push(&mut self, handle: HandleFact) -> Result<(), NoMemory>
        requires { IsHandleAfter handle self.old }
        ensures ok { OnOk result (self.new ≡ self.old ++ handle ∷ []) }
        ensures err { OnErr result (self.new ≡ self.old) }
    {
        self.items.push(handle)?;
        Ok(())
    }

    /// How many pages; takes no memory.
    pub fn len(&self) -> usize
        ensures { result ≡ length self.now }
    {
        self.items.len()
    }

    /// Whether there is none; takes no memory.
    pub fn is_empty(&self) -> bool
        ensures { result ≡ (length self.now == 0) }
    {
        self.items.is_empty()
    }

    /// The pages; takes no memory.
    pub fn as_slice(&self) -> &[HandleFact]
        ensures { result.now ≡ self.now }
    {
        self.items.as_slice()
    }

    /// An equal list.
    pub fn copy(&self) -> Result<HandleFacts, NoMemory>
        ensures { IfOk result (λ copy. copy ≡ self.now) }
    {
        let mut items = Vec::new(*self.items.allocator());
        'items: for handle in &self.items {
            items.push(handle.copy()?)?;
        }
        Ok(HandleFacts { items })
    }
}

/// What a payload says: the fields of records, and the pages of connections. Each handle key begins
/// with `__`, as no key of a field of a schema does.
#[derive(Drop)]
pub struct Facts {
    pub facts: FactList,
    pub handles: HandleFacts,
}

impl Model for Facts {
    ghost use Rattle.store_model.specs.Said.{Said, HaveHandleKeys};

    ghost Value = { Said };

    ghost use Rattle.std.specs.Coded.{codes};
    ghost use Rattle.store_model.specs.contracts.facts.Fact as fact;
    ghost use Rattle.store_model.specs.contracts.facts.HandleFact as handle;

    ghost coded = { Prim.hlevel (codes, fact.the_row.coded, handle.the_row.coded) };

    ghost view = { λ a. record { facts = a.facts; handles = a.handles } };

    ghost invariant = { λ a. HaveHandleKeys a.handles };
}

impl Facts {
    /// Nothing; takes no memory.
    pub fn new(alloc: Global) -> Facts
        ensures { result ≡ record { facts = []; handles = [] } }
    {
        Facts {
            facts: FactList::new(alloc),
            handles: HandleFacts::new(alloc),
        }
    }

    /// Equal facts.
    pub fn copy(&self) -> Result<Facts, NoMemory>
        ensures { IfOk result (λ facts. facts ≡ self.now) }
    {
        let facts = self.facts.copy()?;
        let handles = self.handles.copy()?;
        Ok(Facts { facts, handles })
    }
}
