//! Facts in order, by rows.
ghost use Rattle.std.specs.Prelude.{◌≡◌, true, List, [], ◌∷◌, ◌++◌, map, is_some, None, IfOk, OnOk};
ghost use Rattle.store_model.specs.declared.facts.Fact.{Fact};
ghost use Rattle.std.specs.List.Sorted.{IsStrictlySortedBy};
ghost use Rattle.gql_order.specs.gql_plain.declared.plain.Plain.TheVariants.{Text as Words};
ghost use Rattle.store_model.specs.store_record.declared.field.Field.TheVariants.{Leaf};
ghost use Rattle.store_report.specs.Gathering.{IsTypeName, AreNamed};
ghost use Rattle.store_report.specs.Rows.{IsOpen, IsOpenAt, CanPut, CanTakeAt, shown, shown_some, entries_of, is_filled};
ghost use Rattle.store_report.specs.SaidFacts.{fact_of, put_of, place_cmp};

use crate::said::SaidFact;
use gql_order::gql_plain::{Name, NoMemory, Plain, SharedText};
use std::alloc::Global;
use std::mem;
use store_model::store_record::{Field, Fields, SharedField};
use store_model::{FactList, FactRow};

/// The row of a record, as far as its facts have come.
#[derive(Drop)]
pub(crate) struct OpenRow {
    pub(crate) id: SharedText,
    pub(crate) type_name: Option<Name>,
    pub(crate) fields: Fields,
}

/// The facts, which are in order of id and key, by rows.
pub(crate) fn rows_of(alloc: Global, facts: Vec<SaidFact<'_>>) -> Result<FactList, NoMemory>
    requires order { IsStrictlySortedBy place_cmp facts.items }
    requires named { AreNamed (map put_of facts.items) }
    ensures { IfOk result (λ rows. rows ≡ map fact_of facts.entry.items) }
{
    let mut rows = FactList::new(alloc);
    let mut begun: Option<OpenRow> = None;
    'facts: for fact in facts {
        take(alloc, &mut rows, &mut begun, fact)?;
    }
    match begun {
        Some(row) => close(&mut rows, row)?,
        None => {}
    }
    Ok(rows)
}

/// Puts a fact to the row that is begun, or begins a row with it, where it is of another record.
fn take(
    alloc: Global,
    rows: &mut FactList,
    begun: &mut Option<OpenRow>,
    fact: SaidFact<'_>,
) -> Result<(), NoMemory>
    requires { CanTakeAt rows.old begun.old (fact_of fact) }
    ensures facts { OnOk result (rows.new ++ shown_some begun.new ≡ rows.old ++ (shown_some begun.old ++ fact_of fact.entry ∷ [])) }
    ensures row { OnOk result (IsOpenAt rows.new begun.new) }
{
    let SaidFact {
        id,
        key,
        value,
        path: _path,
        response: _response,
    } = fact;
    match begun {
        Some(row) => {
            if row.id == id {
                return put(alloc, row, key, value);
            }
            let whole = mem::replace(row, begin(alloc, id));
            close(rows, whole)?;
            put(alloc, row, key, value)
        }
        None => {
            let mut row = begin(alloc, id);
            put(alloc, &mut row, key, value)?;
            *begun = Some(row);
            Ok(())
        }
    }
}

/// A row without facts; takes no memory.
fn begin(alloc: Global, id: SharedText) -> OpenRow
    ensures { result ≡ record { id = id; type_name = None; fields = [] } }
{
    OpenRow {
        id,
        type_name: None,
        fields: Fields::new(alloc),
    }
}

/// Puts a key and its value to a row, behind those that stand there.
fn put(alloc: Global, row: &mut OpenRow, key: SharedText, value: Field) -> Result<(), NoMemory>
    requires { CanPut row.old key value }
    ensures id { OnOk result (row.new.id ≡ row.old.id) }
    ensures entries { OnOk result (entries_of row.new ≡ entries_of row.old ++ (key, value) ∷ []) }
    ensures row { OnOk result ((facts : List Fact) → IsOpen facts row.old → IsOpen facts row.new) }
    ensures filled { OnOk result (is_filled (entries_of row.new) ≡ true) }
{
    if key.as_str() == "__typename" {
        row.type_name = Some(name_of(value));
        return Ok(());
    }
    let field = SharedField::new(alloc, key, value)?;
    row.fields.put_shared(field)?;
    Ok(())
}

/// The name that the value under `__typename` is.
fn name_of(value: Field) -> Name
    requires { IsTypeName value }
    ensures { value ≡ Leaf (Words result) }
{
    match value {
        Field::Leaf(Plain::Text(name)) => name,
        _ => unreachable!(),
    }
}

/// Puts a row to the end of others; the name of its type has come.
fn close(rows: &mut FactList, row: OpenRow) -> Result<(), NoMemory>
    requires row { IsOpen rows.old row }
    requires named { is_some row.type_name ≡ true }
    ensures { OnOk result (rows.new ≡ rows.old ++ shown row) }
{
    let OpenRow {
        id,
        type_name,
        fields,
    } = row;
    let Some(type_name) = type_name else {
        unreachable!()
    };
    rows.push_row(FactRow {
        id: id.into_words()?,
        type_name,
        fields,
    })
}
