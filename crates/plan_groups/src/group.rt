//! Groups of fields: those of one response key.
ghost use Rattle.std.specs.Prelude.{◌≡◌, ◌+◌, ◌≤◌, [], codes, map, option_copied, vec_capacity, vec_len, IfOk, OnErr, OnOk};
ghost use Rattle.plan_ir.specs.gql_plain.Order.{sorted_texts, with_text, AreInOrder};
ghost use Rattle.plan_ir.specs.NormalMeaning.{collect_plan};
ghost use Rattle.plan_ir.specs.store_model.Items.{asks, handle_of, key_of, parts};
ghost use Rattle.plan_ir.specs.store_model.Reaches.{types_of};
ghost use Rattle.plan_ir.specs.store_model.Says as says;
ghost use Rattle.plan_groups.specs.FieldView.{ask_at, asked_at, form_at, plan_at, IsKept};
ghost use Rattle.plan_groups.specs.GroupView.{group_of};
ghost use Rattle.plan_groups.specs.Made.{with_handle, with_part};
ghost use Rattle.plan_groups.specs.Putting.{with_other};

use crate::field::{FieldAt, FormAt, PlanAt};
use crate::groups::info_type;
use plan_ir::{NoMemory, Pairs, Plain, SharedText, Words, handle_key};
use std::alloc::Global;
use std::marker::Model;
use std::slice;

/// The fields of one response key.
#[derive(Drop)]
pub struct GroupAt<'p> {
    first: FieldAt<'p>,
    others: Vec<FieldAt<'p>>,
    /// What stands below the fields, where there are several.
    parts: Vec<PlanAt<'p>>,
    /// The key that the first field is stored under.
    key: SharedText,
    /// The distinct keys of the connections of the fields, in byte order.
    handles: Vec<Words>,
}

impl<'p> Model for GroupAt<'p> {
    ghost use Rattle.std.specs.Prelude.{map};
    ghost use Rattle.plan_ir.specs.NormalMeaning.{Plan};
    ghost use Rattle.plan_ir.specs.store_model.Items.{Group};
    ghost use Rattle.plan_groups.specs.Codes.{coded_group};

    ghost Value = { Group Plan };

    ghost coded = { coded_group };

    ghost use Rattle.plan_groups.specs.FieldView.{plan_at};
    ghost use Rattle.plan_groups.specs.GroupView.{group_of};
    ghost use Rattle.plan_groups.specs.Made.{IsMade};

    ghost view = { λ g. group_of g.first g.others.items };

    ghost invariant = { λ g. IsMade (group_of g.first g.others.items) (map plan_at g.parts.items) g.key g.handles.items };
}

impl<'p> GroupAt<'p> {
    /// The group of one field.
    pub(crate) fn of(alloc: Global, field: FieldAt<'p>) -> Result<GroupAt<'p>, NoMemory>
        requires { IsKept field }
        ensures { IfOk result (λ group. group ≡ group_of field.entry []) }
    {
        let key = field.key(alloc)?;
        let handle = own_handle(alloc, &field)?;
        let handles = first_handles(alloc, handle)?;
        Ok(GroupAt {
            first: field,
            others: Vec::new(alloc),
            parts: Vec::new(alloc),
            key,
            handles,
        })
    }

    /// Puts a field behind those of the group. Its arguments are evaluated only where it has a
    /// connection.
    pub(crate) fn add(&mut self, alloc: Global, field: FieldAt<'p>) -> Result<(), NoMemory>
        ensures { OnOk result (self.new ≡ with_other self.old (asked_at field.entry)) }
    {
        let first = self.first.part;
        let handle = own_handle(alloc, &field)?;
        self.parts.reserve(2)?;
        self.others.reserve(1)?;
        put_handle(&mut self.handles, handle)?;
        put_part(&mut self.parts, first, field.part);
        self.others.push_reserved(field);
        Ok(())
    }

    /// The response key; takes no memory.
    pub fn response(&self) -> &'p str
        ensures { result.now ≡ self.now.first.ask.response }
    {
        self.first.response.as_str()
    }

    /// The key that the first field is stored under, made once; takes no memory.
    pub fn key(&self) -> &SharedText
        ensures { result.now ≡ key_of self.now.first.ask }
    {
        &self.key
    }

    /// What stands under the first field; takes no memory.
    pub fn form(&self) -> FormAt<'p>
        ensures { form_at result ≡ self.now.first.ask.form }
    {
        self.first.form
    }

    /// What stands below each field; takes no memory.
    pub fn parts(&self) -> &[PlanAt<'p>]
        ensures { map plan_at result.now ≡ parts self.now }
    {
        if self.others.is_empty() {
            return slice::from_ref(&self.first.part);
        }
        &self.parts
    }

    /// The distinct keys of the connections of the fields, in byte order; takes no memory.
    pub fn handles(&self) -> &[Words]
        ensures { result.now ≡ sorted_texts (says.handles (asks self.now)) }
    {
        &self.handles
    }

    /// The values of the first field's arguments.
    fn arguments(&self, alloc: Global) -> Result<Pairs, NoMemory>
        ensures { IfOk result (λ arguments. arguments ≡ self.now.first.ask.arguments) }
    {
        self.first.arguments(alloc)
    }

    /// The value of the argument `after` of the first field, null where it is not given (Cursor
    /// Connections, section 4).
    pub fn after(&self, alloc: Global) -> Result<Plain, NoMemory>
        ensures { IfOk result (λ plain. plain ≡ says.value_of (codes "after") self.now.first.ask.arguments) }
    {
        value_or_null(&self.arguments(alloc)?, "after")
    }

    /// The value of the argument `before` of the first field, null where it is not given.
    pub fn before(&self, alloc: Global) -> Result<Plain, NoMemory>
        ensures { IfOk result (λ plain. plain ≡ says.value_of (codes "before") self.now.first.ask.arguments) }
    {
        value_or_null(&self.arguments(alloc)?, "before")
    }

    /// The type of the page where the fields are of a connection: the first possible type of the
    /// first field; takes no memory.
    pub fn page_type(&self) -> Option<&'p str>
        ensures { option_copied result ≡ says.first_of (types_of self.now.first.ask.form) }
    {
        self.first.form.first_type()
    }

    /// The type of the page information where the fields are of a connection, by what they ask of
    /// the page; empty where they do not ask for it (Cursor Connections, section 2.1).
    pub fn info_type(&self, alloc: Global) -> Result<&'p str, NoMemory>
        ensures { IfOk result (λ name. name.now ≡ says.info_of collect_plan (says.first_of (types_of self.now.first.ask.form)) (parts self.now)) }
    {
        info_type(alloc, self.page_type(), self.parts())
    }
}

/// Puts what stands below a field behind what is kept; where nothing is kept, what stands below the
/// first field comes before it. There is room for both.
fn put_part<'p>(parts: &mut Vec<PlanAt<'p>>, first: PlanAt<'p>, part: PlanAt<'p>)
    requires { vec_len parts.old + 2 ≤ vec_capacity parts.old }
    ensures { map plan_at parts.new.items ≡ with_part (map plan_at parts.old.items) (plan_at first.entry) (plan_at part.entry) }
{
    if parts.is_empty() {
        parts.push_reserved(first);
        parts.push_reserved(part);
        return;
    }
    parts.push_reserved(part);
}

/// The key of a field's connection. Only where it has one, its arguments are evaluated.
fn own_handle(alloc: Global, field: &FieldAt<'_>) -> Result<Option<Words>, NoMemory>
    ensures { IfOk result (λ key. key ≡ handle_of (ask_at field.now)) }
{
    if field.connection.is_none() {
        return Ok(None);
    }
    let arguments = field.arguments(alloc)?;
    handle_with(alloc, field, &arguments)
}

/// The key of a field's connection; its arguments have these values.
fn handle_with(
    alloc: Global,
    field: &FieldAt<'_>,
    arguments: &Pairs,
) -> Result<Option<Words>, NoMemory>
    requires { arguments.now ≡ (ask_at field.now).arguments }
    ensures { IfOk result (λ key. key ≡ handle_of (ask_at field.now)) }
{
    match field.connection {
        Some(connection) => {
            let key = handle_key(alloc, connection, arguments)?;
            Ok(Some(key))
        }
        None => Ok(None),
    }
}

/// The key of the first field's connection alone; nothing, without memory, where it has none.
fn first_handles(alloc: Global, key: Option<Words>) -> Result<Vec<Words>, NoMemory>
    ensures { IfOk result (λ keys. keys.items ≡ says.some_text key []) }
{
    match key {
        Some(key) => {
            let mut keys = Vec::with_capacity(alloc, 1)?;
            keys.push(key)?;
            Ok(keys)
        }
        None => Ok(Vec::new(alloc)),
    }
}

/// Puts the key of a connection at its place, where there is one, unless it is there.
fn put_handle(keys: &mut Vec<Words>, key: Option<Words>) -> Result<(), NoMemory>
    requires { AreInOrder keys.old.items }
    ensures ok { OnOk result (keys.new.items ≡ with_handle key keys.old.items) }
    ensures err { OnErr result (keys.new.items ≡ keys.old.items) }
{
    match key {
        Some(key) => put_text(keys, key),
        None => Ok(()),
    }
}

/// Puts a text at its place in a list in byte order, unless it is there.
fn put_text(texts: &mut Vec<Words>, text: Words) -> Result<(), NoMemory>
    requires { AreInOrder texts.old.items }
    ensures ok { OnOk result (texts.new.items ≡ with_text text texts.old.items) }
    ensures err { OnErr result (texts.new.items ≡ texts.old.items) }
{
    let found = texts.binary_search_by(|other| other.as_str().cmp(text.as_str()));
    match found {
        Ok(_) => Ok(()),
        Err(at) => {
            texts.insert(at, text)?;
            Ok(())
        }
    }
}

/// The value of an argument, null where it is not given.
fn value_or_null(arguments: &Pairs, name: &str) -> Result<Plain, NoMemory>
    ensures { IfOk result (λ plain. plain ≡ says.value_of name.now arguments.now) }
{
    match arguments.get(name) {
        Some(plain) => plain.copy(),
        None => Ok(Plain::Null),
    }
}
