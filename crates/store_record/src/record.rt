//! Records and their slots.
ghost use Rattle.std.specs.Prelude.{◌≡◌, [], IfOk};

use crate::field::Fields;
use gql_plain::{Name, NoMemory};
use std::alloc::Global;
use std::marker::Model;
use std::rc::Rc;

/// A record: the name of its type, and its fields.
#[derive(Drop)]
pub struct Record {
    pub type_name: Name,
    pub fields: Fields,
}

impl Record {
    /// A record without fields; takes no memory.
    pub fn new(alloc: Global, type_name: Name) -> Record
        ensures { result ≡ record { type_name = type_name; fields = [] } }
    {
        Record {
            type_name,
            fields: Fields::new(alloc),
        }
    }

    /// An equal record.
    pub fn copy(&self) -> Result<Record, NoMemory>
        ensures { IfOk result (λ copy. copy ≡ self.now) }
    {
        let type_name = self.type_name.copy()?;
        let fields = self.fields.copy()?;
        Ok(Record { type_name, fields })
    }
}

/// A record that several owners share, seen as the record itself.
#[derive(Drop)]
pub struct Shared {
    pub row: Rc<Record>,
}

impl Model for Shared {
    ghost use Rattle.store_record.specs.declared.record.Record.{Record};

    ghost Value = { Record };

    ghost use Rattle.store_record.specs.contracts.record.Record as record_contract;

    ghost coded = { record_contract.the_row.coded };

    ghost view = { λ s. s.row.value };
}

impl Shared {
    /// The record, so that it can be shared.
    pub fn new(alloc: Global, row: Record) -> Result<Shared, NoMemory>
        ensures { IfOk result (λ shared. shared ≡ row) }
    {
        Ok(Shared {
            row: Rc::new(alloc, row)?,
        })
    }

    /// The record; takes no memory.
    pub fn get(&self) -> &Record
        ensures { result.now ≡ self.now }
    {
        &self.row
    }

    /// One more owner of the same record.
    pub fn copy(&self) -> Result<Shared, NoMemory>
        ensures { IfOk result (λ shared. shared ≡ self.now) }
    {
        Ok(Shared {
            row: self.row.clone()?,
        })
    }
}

/// What stands under an id: a deleted record, or a live one. An id without a slot is absent.
#[derive(Drop)]
pub enum Slot {
    Deleted,
    Alive(Shared),
}

impl Slot {
    /// An equal slot, which shares the record.
    pub fn copy(&self) -> Result<Slot, NoMemory>
        ensures { IfOk result (λ slot. slot ≡ self.now) }
    {
        match self {
            Slot::Deleted => Ok(Slot::Deleted),
            Slot::Alive(shared) => Ok(Slot::Alive(shared.copy()?)),
        }
    }
}
