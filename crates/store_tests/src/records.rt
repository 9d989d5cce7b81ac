use event_script::gql_plain::{
    Conn, Ids, NoMemory, OptIds, Pairs, Plain, SharedText, Words, plain_of,
};
use event_script::store_record::{
    Field, Fields, Record, Shared, SharedField, Slot, client_id, field_key, handle_key,
};
use serde_json::Value;
use std::alloc::Global;
use std::test::Fail;

/// A key of a field, its name, and its arguments.
const FIELD_KEYS: &str = r#"team(size:2) team {"size":2}
team team {"size":null}
friends(after:"c1",first:2) friends {"first":2,"after":"c1"}
friends(a:[1,null],z:{"b":"x","c":true}) friends {"z":{"c":true,"b":"x"},"m":null,"a":[1,null]}"#;

/// A key of a connection `K_friends`, the names of its filters or `-`, and its arguments.
const HANDLE_KEYS: &str = r#"__K_friends_connection - {"after":2}
__K_friends_connection - {"first":2,"last":1,"before":null}
__K_friends_connection(order:2) - {"order":2}
__K_friends_connection(order:2) order {"first":2,"order":2}
__K_friends_connection(first:2) first {"first":2,"order":2}
__K_friends_connection name {"first":2,"order":2}
__K_friends_connection(first:2,order:[1,2]) order,first {"name":1,"order":[1,2],"first":2}
__K_friends_connection , {"first":2,"order":2}
__K_friends_connection(a:1,order:2) - {"order":2,"first":2,"a":1}"#;

/// The pairs of an object; none where the text is no object of whole numbers.
fn pairs_in(alloc: Global, text: &str) -> Pairs {
    let Ok(value) = Value::from_str(alloc, text) else {
        return Pairs::new(alloc);
    };
    match plain_of(alloc, &value) {
        Ok(Plain::Tree(pairs)) => pairs,
        _ => Pairs::new(alloc),
    }
}

fn words(alloc: Global, text: &str) -> Result<Words, NoMemory> {
    Words::new(alloc, text)
}

/// The names between commas, or None of a `-`.
fn filters_in(alloc: Global, text: &str) -> Result<Option<Ids>, NoMemory> {
    if text == "-" {
        return Ok(None);
    }
    let mut names = Vec::new(alloc);
    for name in text.split(',').filter(|name| !name.is_empty()) {
        names.push(words(alloc, name)?)?;
    }
    Ok(Some(Ids::sort(names)?))
}

#[test]
fn a_field_key_has_the_arguments_that_are_not_null(rt: HostRuntime) -> Result<(), Fail> {
    let alloc = rt.alloc();
    for row in FIELD_KEYS.lines() {
        let (expected, rest) = row.split_once(' ').unwrap_or((row, ""));
        let (name, arguments) = rest.split_once(' ').unwrap_or((rest, ""));
        let key = field_key(alloc, &words(alloc, name)?, &pairs_in(alloc, arguments))?;
        assert_eq!(rt; key.as_str(), expected);
    }
    Ok(())
}

#[test]
fn a_handle_key_has_the_filters_alone(rt: HostRuntime) -> Result<(), Fail> {
    let alloc = rt.alloc();
    for row in HANDLE_KEYS.lines() {
        let (expected, rest) = row.split_once(' ').unwrap_or((row, ""));
        let (filter, arguments) = rest.split_once(' ').unwrap_or((rest, ""));
        let key = words(alloc, "K_friends")?;
        let filters = filters_in(alloc, filter)?;
        let handle = handle_key(alloc, &Conn { key, filters }, &pairs_in(alloc, arguments))?;
        assert_eq!(rt; handle.as_str(), expected);
    }
    Ok(())
}

#[test]
fn a_generated_id_has_its_parent_key_and_index(rt: HostRuntime) -> Result<(), Fail> {
    let alloc = rt.alloc();
    for (parent, key, index, expected) in [
        ("4", "address", None, "client:4:address"),
        ("4", "tags", Some(0), "client:4:tags:0"),
        ("4", "tags", Some(10), "client:4:tags:10"),
        ("client:4:address", "x", None, "client:4:address:x"),
        ("client:4:tags:1", "x", Some(12), "client:4:tags:1:x:12"),
    ] {
        let parent = words(alloc, parent)?;
        let id = client_id(alloc, &parent, &words(alloc, key)?, index)?;
        assert_eq!(rt; id.as_str(), expected);
    }
    Ok(())
}

/// `a` is 5 and a null, `b` the whole number 3, `c` the record 7.
fn three_fields(alloc: Global) -> Result<Fields, NoMemory> {
    let mut ids = OptIds::new(alloc);
    ids.push(Some(words(alloc, "5")?))?;
    ids.push(None)?;
    let mut fields = Fields::new(alloc);
    fields.put(words(alloc, "b")?, Field::Leaf(Plain::Int(1)))?;
    fields.put(words(alloc, "a")?, Field::Links(ids))?;
    fields.put(words(alloc, "b")?, Field::Leaf(Plain::Int(3)))?;
    let key = SharedText::new(alloc, words(alloc, "c")?)?;
    let last = SharedField::new(alloc, key, Field::Link(words(alloc, "7")?))?;
    fields.put_shared(last.copy()?)?;
    fields.put_shared(last)?;
    Ok(fields)
}

#[test]
fn fields_stand_in_byte_order_and_have_equal_copies(rt: HostRuntime) -> Result<(), Fail> {
    let alloc = rt.alloc();
    let fields = three_fields(alloc)?;
    for (entry, expected) in fields.as_slice().iter().zip(["a", "b", "c"]) {
        assert_eq!(rt; entry.key(), expected);
        assert!(rt; fields.get(expected) == Some(&entry.field().copy()?));
    }
    assert!(rt; fields.get("b") == Some(&Field::Leaf(Plain::Int(3))));
    assert!(rt; fields.get("d").is_none() && fields.len() == 3);
    let mut other = fields.copy()?;
    assert!(rt; other == fields);
    other.put(words(alloc, "b")?, Field::Leaf(Plain::Int(4)))?;
    assert!(rt; other != fields);
    Ok(())
}

#[test]
fn slots_have_equal_copies(rt: HostRuntime) -> Result<(), Fail> {
    let alloc = rt.alloc();
    let mut record = Record::new(alloc, words(alloc, "User")?);
    assert!(rt; record.copy()?.fields.is_empty());
    record.fields = three_fields(alloc)?;
    let slot = Slot::Alive(Shared::new(alloc, record.copy()?)?).copy()?;
    assert!(rt; matches!(&slot, Slot::Alive(shared) if *shared.get() == record));
    assert!(rt; matches!(Slot::Deleted.copy()?, Slot::Deleted));
    Ok(())
}
