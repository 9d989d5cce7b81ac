ghost use Rattle.std.specs.Prelude.{◌≡◌, IfOk};
ghost use Rattle.event_script.specs.store_model.FactRows.{IsFactRow};

use event_script::gql_plain::{NoMemory, OptIds, Pairs, Plain, Words};
use event_script::store_model::{
    Command, Commands, EdgeEdit, Entry, Fact, FactList, FactRow, Facts, HandleFact, HandleFacts,
    PathStep, PathSteps,
};
use event_script::store_record::{Field, Fields};
use std::alloc::Global;
use std::test::Fail;

fn word(alloc: Global, text: &str) -> Result<Words, NoMemory>
    ensures { IfOk result (λ w. w ≡ text.now) }
{
    Words::new(alloc, text)
}

fn edit(alloc: Global) -> Result<EdgeEdit, NoMemory> {
    Ok(EdgeEdit {
        id: word(alloc, "4")?,
        key: word(alloc, "K_friends")?,
        filters: Pairs::new(alloc),
        node: word(alloc, "5")?,
        edge_type: word(alloc, "UserEdge")?,
        cursor: Plain::Null,
    })
}

fn name_of(command: &Command) -> &'static str {
    match command {
        Command::Set { .. } => "set",
        Command::Add { .. } => "add",
        Command::Link { .. } => "link",
        Command::Links { .. } => "links",
        Command::Create { .. } => "create",
        Command::Delete { .. } => "delete",
        Command::AppendNode(_) => "append_node",
        Command::PrependNode(_) => "prepend_node",
        Command::DeleteEdge(_) => "delete_edge",
    }
}

fn set(alloc: Global) -> Result<Command, NoMemory> {
    Ok(Command::Set {
        id: word(alloc, "4")?,
        field: word(alloc, "name")?,
        args: Pairs::new(alloc),
        value: Plain::Null,
    })
}

fn add(alloc: Global) -> Result<Command, NoMemory> {
    Ok(Command::Add {
        id: word(alloc, "4")?,
        field: word(alloc, "age")?,
        args: Pairs::new(alloc),
        by: 1,
    })
}

fn link(alloc: Global) -> Result<Command, NoMemory> {
    Ok(Command::Link {
        id: word(alloc, "4")?,
        field: word(alloc, "friend")?,
        args: Pairs::new(alloc),
        to: Some(word(alloc, "5")?),
    })
}

fn no_link(alloc: Global) -> Result<Command, NoMemory> {
    Ok(Command::Link {
        id: word(alloc, "4")?,
        field: word(alloc, "friend")?,
        args: Pairs::new(alloc),
        to: None,
    })
}

/// 5 and a null.
fn two_ids(alloc: Global) -> Result<OptIds, NoMemory> {
    let mut ids = OptIds::new(alloc);
    ids.push(Some(word(alloc, "5")?))?;
    ids.push(None)?;
    Ok(ids)
}

fn links(alloc: Global) -> Result<Command, NoMemory> {
    Ok(Command::Links {
        id: word(alloc, "4")?,
        field: word(alloc, "friends")?,
        args: Pairs::new(alloc),
        to: two_ids(alloc)?,
    })
}

fn create(alloc: Global) -> Result<Command, NoMemory> {
    Ok(Command::Create {
        id: word(alloc, "t1")?,
        of: word(alloc, "User")?,
    })
}

fn delete(alloc: Global) -> Result<Command, NoMemory> {
    Ok(Command::Delete {
        id: word(alloc, "4")?,
    })
}

fn put_field_commands(alloc: Global, commands: &mut Commands) -> Result<(), NoMemory> {
    commands.push(set(alloc)?)?;
    commands.push(add(alloc)?)?;
    Ok(())
}

fn put_link_commands(alloc: Global, commands: &mut Commands) -> Result<(), NoMemory> {
    commands.push(link(alloc)?)?;
    commands.push(no_link(alloc)?)?;
    commands.push(links(alloc)?)?;
    Ok(())
}

fn put_record_commands(alloc: Global, commands: &mut Commands) -> Result<(), NoMemory> {
    commands.push(create(alloc)?)?;
    commands.push(delete(alloc)?)?;
    Ok(())
}

fn put_edge_commands(alloc: Global, commands: &mut Commands) -> Result<(), NoMemory> {
    commands.push(Command::AppendNode(edit(alloc)?))?;
    commands.push(Command::PrependNode(edit(alloc)?))?;
    commands.push(Command::DeleteEdge(edit(alloc)?))?;
    Ok(())
}

fn all_commands(alloc: Global) -> Result<Commands, NoMemory> {
    let mut commands = Commands::new(alloc);
    put_field_commands(alloc, &mut commands)?;
    put_link_commands(alloc, &mut commands)?;
    put_record_commands(alloc, &mut commands)?;
    put_edge_commands(alloc, &mut commands)?;
    Ok(commands)
}

#[test]
fn entries_are_copied_whole(rt: HostRuntime) -> Result<(), Fail> {
    let alloc = rt.alloc();
    let entry = Entry {
        facts: Facts::new(alloc),
        commands: all_commands(alloc)?,
    };
    let names = [
        "set",
        "add",
        "link",
        "link",
        "links",
        "create",
        "delete",
        "append_node",
        "prepend_node",
        "delete_edge",
    ];
    let copy = entry.copy()?;
    assert_eq!(rt; copy.commands.len(), 10);
    for (command, name) in copy.commands.as_slice().iter().zip(names) {
        assert_eq!(rt; name_of(command), name);
    }
    Ok(())
}

fn fact(alloc: Global, value: Field) -> Result<Fact, NoMemory> {
    Ok(Fact {
        id: word(alloc, "4")?,
        key: word(alloc, "best")?,
        value,
    })
}

#[test]
fn facts_are_copied_whole(rt: HostRuntime) -> Result<(), Fail> {
    let alloc = rt.alloc();
    let link = Field::Link(word(alloc, "5")?);
    for value in [
        Field::Leaf(Plain::Null),
        link,
        Field::Links(two_ids(alloc)?),
    ] {
        let fact = fact(alloc, value)?;
        let copy = fact.copy()?;
        assert_eq!(rt; copy.key.as_str(), "best");
        assert!(rt; copy.value == fact.value);
    }
    Ok(())
}

/// A row of a user with one field.
fn row(alloc: Global, id: &str) -> Result<FactRow, NoMemory>
    ensures id { IfOk result (λ r. r.id ≡ id.now) }
    ensures row { IfOk result (λ r. IsFactRow r) }
{
    let mut fields = Fields::new(alloc);
    let link = Field::Link(word(alloc, "5")?);
    fields.put(word(alloc, "best")?, link)?;
    Ok(FactRow {
        id: word(alloc, id)?,
        type_name: word(alloc, "User")?,
        fields,
    })
}

#[test]
fn rows_are_copied_whole(rt: HostRuntime) -> Result<(), Fail> {
    let alloc = rt.alloc();
    let row = row(alloc, "4")?;
    let copy = row.copy()?;
    assert_eq!(rt; copy.type_name.as_str(), "User");
    assert!(rt; matches!(copy.fields.get("best"), Some(Field::Link(id)) if id.as_str() == "5"));
    Ok(())
}

#[test]
fn lists_of_rows_are_copied_whole(rt: HostRuntime) -> Result<(), Fail> {
    let alloc = rt.alloc();
    let mut facts = FactList::new(alloc);
    assert_eq!(rt; facts.copy()?.rows().len(), 0);
    let first = row(alloc, "4")?;
    facts.push_row(first)?;
    let second = row(alloc, "5")?;
    facts.push_row(second)?;
    let copy = facts.copy()?;
    for (row, id) in copy.rows().iter().zip(["4", "5"]) {
        assert_eq!(rt; row.id.as_str(), id);
    }
    assert_eq!(rt; copy.rows().len(), 2);
    Ok(())
}

fn page(alloc: Global) -> Result<HandleFact, NoMemory> {
    Ok(HandleFact {
        parent: word(alloc, "4")?,
        handle_key: word(alloc, "__K_friends_connection")?,
        field_key: word(alloc, "friends(first:2)")?,
        after: Plain::Null,
        before: Plain::Null,
        page_type: word(alloc, "UserConnection")?,
        info_type: word(alloc, "PageInfo")?,
    })
}

#[test]
fn pages_are_copied_whole(rt: HostRuntime) -> Result<(), Fail> {
    let alloc = rt.alloc();
    let mut handles = HandleFacts::new(alloc);
    handles.push(page(alloc)?)?;
    assert_eq!(rt; handles.copy()?.len(), 1);
    Ok(())
}

fn path(alloc: Global) -> Result<PathSteps, NoMemory> {
    let mut path = PathSteps::new(alloc);
    path.push(PathStep::Key(word(alloc, "friends")?))?;
    path.push(PathStep::Index(1))?;
    Ok(path)
}

#[test]
fn a_path_has_its_steps_in_order(rt: HostRuntime) -> Result<(), Fail> {
    let alloc = rt.alloc();
    let path = path(alloc)?;
    assert_eq!(rt; path.len(), 2);
    assert!(rt; matches!(path.as_slice(), [PathStep::Key(_), PathStep::Index(1)]));
    Ok(())
}
