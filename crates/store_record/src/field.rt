//! The fields of a record.
ghost use Rattle.std.specs.Prelude.{◌≡◌, ◌==◌, [], Some, length, option_copied, IfOk, OnOk, OnErr};
ghost use Rattle.std.specs.Cmp.Lexicographic.{slice_cmp};
ghost use Rattle.std.specs.FinMap.Entries.{put};
ghost use Rattle.std.specs.Map.{keys_of};
ghost use Rattle.std.specs.Ordering.{nat_cmp};
ghost use Rattle.gql_plain.specs.Order.{AreInOrder, member_at};
ghost use Rattle.store_record.specs.declared.field.Field.{Field as FieldValue};

use gql_plain::{Id, NoMemory, OptIds, Plain, SharedText, Words};
use std::alloc::Global;
use std::marker::Model;
use std::rc::Rc;

/// What a record holds under a key. A null of any field is `Leaf(Null)`.
#[derive(Debug, Drop)]
pub enum Field {
    /// A value of the server.
    Leaf(Plain),
    /// A record.
    Link(Id),
    /// A list of records and nulls.
    Links(OptIds),
}

impl Field {
    /// An equal field.
    pub fn copy(&self) -> Result<Field, NoMemory>
        ensures { IfOk result (λ field. field ≡ self.now) }
    {
        match self {
            Field::Leaf(value) => Ok(Field::Leaf(value.copy()?)),
            Field::Link(id) => Ok(Field::Link(id.copy()?)),
            Field::Links(ids) => Ok(Field::Links(ids.copy()?)),
        }
    }
}

/// A key and the field that stands under it.
#[derive(Drop)]
pub struct FieldEntry {
    pub key: SharedText,
    pub field: Field,
}

/// A key and its field, which several records may share, seen as the pair of both.
pub struct SharedField {
    entry: Rc<FieldEntry>,
}

impl Drop for SharedField {
    fn drop(self) {
        let SharedField { entry } = self;
        drop(entry);
    }
}

impl Model for SharedField {
    ghost use Rattle.std.specs.Prelude.{ℕ, List};
    ghost use Rattle.store_record.specs.declared.field.Field.{Field};

    ghost Value = { List ℕ × Field };

    ghost use Rattle.std.specs.Coded.{coded×, coded_list, coded_ℕ};
    ghost use Rattle.store_record.specs.contracts.field.Field as field;

    ghost coded = { coded× (coded_list coded_ℕ) field.the_row.coded };

    ghost view = { λ s. (s.entry.value.key, s.entry.value.field) };
}

impl SharedField {
    /// The key and the field, so that they can be shared.
    pub fn new(alloc: Global, key: SharedText, field: Field) -> Result<SharedField, NoMemory>
        ensures { IfOk result (λ shared. shared ≡ (key, field)) }
    {
        Ok(SharedField {
            entry: Rc::new(alloc, FieldEntry { key, field })?,
        })
    }

    /// The key; takes no memory.
    pub fn key(&self) -> &str
        ensures { result.now ≡ self.now.0 }
    {
        self.entry.key.as_str()
    }

    /// The field; takes no memory.
    pub fn field(&self) -> &Field
        ensures { result.now ≡ self.now.1 }
    {
        &self.entry.field
    }

    /// One more owner of the same key and field.
    pub fn copy(&self) -> Result<SharedField, NoMemory>
        ensures { IfOk result (λ shared. shared ≡ self.now) }
    {
        Ok(SharedField {
            entry: self.entry.clone()?,
        })
    }
}

/// The fields of a record under their keys, seen as the list of the pairs: the keys are distinct and
/// in byte order.
///
/// Copies share the keys and fields: a copy of n fields takes one allocation, and none for a field,
/// but it raises n counts. So a change of one field of a record that others still hold costs n
/// counts, and N changes that each bring a new key cost about N * N / 2 counts. A persistent tree of
/// fields would need about log n allocations a change in their place.
pub struct Fields {
    entries: Vec<SharedField>,
}

impl Drop for Fields {
    fn drop(self) {
        let Fields { entries } = self;
        drop(entries);
    }
}

impl Model for Fields {
    ghost use Rattle.std.specs.Prelude.{ℕ, List};
    ghost use Rattle.std.specs.Map.{keys_of};
    ghost use Rattle.gql_plain.specs.Order.{AreInOrder};
    ghost use Rattle.store_record.specs.declared.field.Field.{Field};

    ghost Value = { List (List ℕ × Field) };

    ghost use Rattle.std.specs.Coded.{coded×, coded_list, coded_ℕ};
    ghost use Rattle.store_record.specs.contracts.field.Field as field;

    ghost coded = { coded_list (coded× (coded_list coded_ℕ) field.the_row.coded) };

    ghost view = { λ a. a.entries.items };

    ghost invariant = { λ a. AreInOrder (keys_of a.entries.items) };
}

impl Fields {
    /// No field; takes no memory.
    pub fn new(alloc: Global) -> Fields
        ensures { result ≡ [] }
    {
        Fields {
            entries: Vec::new(alloc),
        }
    }

    /// The fields of entries that are in byte order of their keys; takes no memory.
    pub fn from_entries(entries: Vec<SharedField>) -> Fields
        requires { AreInOrder (keys_of entries.items) }
        ensures { result ≡ entries.items }
    {
        Fields { entries }
    }

    /// The field under a key, or None where there is none; takes no memory.
    pub fn get(&self, key: &str) -> Option<&Field>
        ensures { option_copied result ≡ member_at self.now key.now }
    {
        let found = self.entries.binary_search_by(|entry| entry.key().cmp(key));
        match found {
            Ok(at) => Some(self.entries[at].field()),
            Err(_) => None,
        }
    }

    /// The field under a key, or None where there is none, as by `get`; takes no memory.
    ///
    /// The place `near` is looked at first, and is then left where the next key may stand. So fields that are
    /// asked for in the order of their keys are mostly found without a search, by as many comparisons as fields.
    /// Any number may be given: 0 at the beginning.
    pub fn near(&self, key: &str, near: &mut usize) -> Option<&Field>
        ensures { option_copied result ≡ member_at self.now key.now }
    {
        if let Some(field) = self.field_at(*near, key) {
            *near = near.wrapping_add(1);
            return Some(field);
        }
        let found = self.entries.binary_search_by(|entry| entry.key().cmp(key));
        match found {
            Ok(at) => {
                *near = at.wrapping_add(1);
                Some(self.entries[at].field())
            }
            Err(at) => {
                *near = at;
                None
            }
        }
    }

    /// The field at a place, where its key is this one; takes no memory.
    fn field_at(&self, place: usize, key: &str) -> Option<&Field>
        ensures { (f : FieldValue) → option_copied result ≡ Some f → member_at self.now key.now ≡ Some f }
    {
        if place < self.entries.len() {
            let entry = &self.entries[place];
            if entry.key() == key {
                return Some(entry.field());
            }
        }
        None
    }

    /// Puts a field under a key, in the place of the one that stands there.
    pub fn put(&mut self, key: Words, field: Field) -> Result<(), NoMemory>
        ensures ok { OnOk result (self.new ≡ put (slice_cmp nat_cmp) key field self.old) }
        ensures err { OnErr result (self.new ≡ self.old) }
    {
        let alloc = *self.entries.allocator();
        let key = SharedText::new(alloc, key)?;
        let entry = SharedField::new(alloc, key, field)?;
        self.put_shared(entry)
    }

    /// Puts a shared field under its key, in the place of the one that stands there.
    pub fn put_shared(&mut self, entry: SharedField) -> Result<(), NoMemory>
        ensures ok { OnOk result (self.new ≡ put (slice_cmp nat_cmp) entry.0 entry.1 self.old) }
        ensures err { OnErr result (self.new ≡ self.old) }
    {
        let found = self
            .entries
            .binary_search_by(|other| other.key().cmp(entry.key()));
        match found {
            Ok(at) => self.entries[at] = entry,
            Err(at) => self.entries.insert(at, entry)?,
        }
        Ok(())
    }

    /// How many fields; takes no memory.
    pub fn len(&self) -> usize
        ensures { result ≡ length self.now }
    {
        self.entries.len()
    }

    /// Whether there is none; takes no memory.
    pub fn is_empty(&self) -> bool
        ensures { result ≡ (length self.now == 0) }
    {
        self.entries.is_empty()
    }

    /// The keys and fields, in byte order of the keys; takes no memory.
    pub fn as_slice(&self) -> &[SharedField]
        ensures items { result.now ≡ self.now }
        ensures in_order { AreInOrder (keys_of result.now) }
    {
        self.entries.as_slice()
    }

    /// Equal fields, which share the keys and fields.
    pub fn copy(&self) -> Result<Fields, NoMemory>
        ensures { IfOk result (λ fields. fields ≡ self.now) }
    {
        let mut entries = Vec::with_capacity(*self.entries.allocator(), self.entries.len())?;
        'entries: for entry in &self.entries {
            entries.push(entry.copy()?)?;
        }
        Ok(Fields { entries })
    }
}
