//! How often records are looked up and put where an entry is applied.
ghost use Rattle.std.specs.Prelude.{◌≡◌, IfOk};
ghost use Rattle.plan_ir.specs.store_model.FactRows.{IsFactRow};

use crate::puts::Puts;
use plan_ir::{
    Command, Commands, Counts, EdgeEdit, Entry, FactList, FactRow, Facts, Field, Fields,
    HandleFacts, Id, Name, NoMemory, Pairs, Plain, Slot, Words,
};
use std::alloc::Global;
use std::test::Fail;
use store_layers::{Changed, RecordSource, apply};

/// A user of age 20 is made, and 1 is added to its age twice.
fn run(alloc: Global, id: &str, commands: &mut Commands) -> Result<(), NoMemory> {
    commands.push(Command::Create {
        id: Id::new(alloc, id)?,
        of: Name::new(alloc, "User")?,
    })?;
    commands.push(Command::Set {
        id: Id::new(alloc, id)?,
        field: Words::new(alloc, "age")?,
        args: Pairs::new(alloc),
        value: Plain::Int(20),
    })?;
    add(alloc, id, 1, commands)?;
    add(alloc, id, 1, commands)
}

/// Adds a number to the age of a user.
fn add(alloc: Global, id: &str, by: i64, commands: &mut Commands) -> Result<(), NoMemory> {
    commands.push(Command::Add {
        id: Id::new(alloc, id)?,
        field: Words::new(alloc, "age")?,
        args: Pairs::new(alloc),
        by,
    })
}

/// A user of age 20 with a name.
fn row(alloc: Global, id: &str) -> Result<FactRow, NoMemory>
    ensures id { IfOk result (λ r. r.id ≡ id.now) }
    ensures row { IfOk result (λ r. IsFactRow r) }
{
    let mut fields = Fields::new(alloc);
    fields.put(Words::new(alloc, "age")?, Field::Leaf(Plain::Int(20)))?;
    let name = Plain::Text(Words::new(alloc, "Ann")?);
    fields.put(Words::new(alloc, "name")?, Field::Leaf(name))?;
    Ok(FactRow {
        id: Words::new(alloc, id)?,
        type_name: Words::new(alloc, "User")?,
        fields,
    })
}

/// What the row of `4` says.
fn facts(alloc: Global) -> Result<Facts, NoMemory> {
    let mut facts = Facts::new(alloc);
    let row = row(alloc, "4")?;
    facts.facts.push_row(row)?;
    Ok(facts)
}

/// What the rows of `4` and of `5` say.
fn two_rows(alloc: Global) -> Result<Facts, NoMemory> {
    let mut rows = FactList::new(alloc);
    let first = row(alloc, "4")?;
    rows.push_row(first)?;
    let second = row(alloc, "5")?;
    rows.push_row(second)?;
    Ok(Facts {
        facts: rows,
        handles: HandleFacts::new(alloc),
    })
}

/// An edge of `4` to `6`, where `4` has no connection.
fn edge(alloc: Global) -> Result<Command, NoMemory> {
    Ok(Command::AppendNode(EdgeEdit {
        id: Id::new(alloc, "4")?,
        key: Name::new(alloc, "Friends_friends")?,
        filters: Pairs::new(alloc),
        node: Id::new(alloc, "6")?,
        edge_type: Words::new(alloc, "UserEdge")?,
        cursor: Plain::Null,
    }))
}

/// What an entry changes in a map, and what that took.
#[derive(Drop)]
struct Applied {
    changed: Changed<Puts>,
    looks: u64,
    puts: u64,
}

/// Applies an entry.
fn apply_entry(
    alloc: Global,
    before: &Puts,
    facts: Facts,
    commands: Commands,
) -> Result<Applied, NoMemory> {
    let mut steps = Counts::new();
    let entry = Entry { facts, commands };
    let changed = apply(before, &entry, &mut steps)?;
    let looks = steps.looks;
    let puts = changed.source.puts.saturating_sub(before.puts);
    Ok(Applied {
        changed,
        looks,
        puts,
    })
}

/// The age of a live user.
fn age_of(source: &Puts, id: &str) -> Option<i64> {
    let mut steps = Counts::new();
    match source.get(id, &mut steps) {
        Some(Slot::Alive(shared)) => match shared.get().fields.get("age") {
            Some(Field::Leaf(Plain::Int(age))) => Some(*age),
            _ => None,
        },
        _ => None,
    }
}

#[test]
fn commands_on_one_id_in_a_row_take_one_look_and_put_one_record(
    rt: HostRuntime,
) -> Result<(), Fail> {
    let alloc = rt.alloc();
    let empty = Puts::new(alloc)?;
    let mut commands = Commands::new(alloc);
    run(alloc, "4", &mut commands)?;
    let done = apply_entry(alloc, &empty, Facts::new(alloc), commands)?;
    assert!(rt; done.changed.touched.contains("4"));
    assert_eq!(rt; age_of(&done.changed.source, "4"), Some(22));
    assert_eq!(rt; done.looks, 1);
    assert_eq!(rt; done.puts, 1);
    Ok(())
}

#[test]
fn facts_of_one_id_take_one_look_and_put_one_record(rt: HostRuntime) -> Result<(), Fail> {
    let alloc = rt.alloc();
    let empty = Puts::new(alloc)?;
    let done = apply_entry(alloc, &empty, facts(alloc)?, Commands::new(alloc))?;
    assert!(rt; done.changed.touched.contains("4"));
    assert_eq!(rt; age_of(&done.changed.source, "4"), Some(20));
    assert_eq!(rt; done.looks, 1);
    assert_eq!(rt; done.puts, 1);
    Ok(())
}

#[test]
fn commands_behind_facts_of_their_id_take_no_look_more_and_put_no_record_more(
    rt: HostRuntime,
) -> Result<(), Fail> {
    let alloc = rt.alloc();
    let empty = Puts::new(alloc)?;
    let mut commands = Commands::new(alloc);
    run(alloc, "4", &mut commands)?;
    let done = apply_entry(alloc, &empty, facts(alloc)?, commands)?;
    assert!(rt; done.changed.touched.contains("4"));
    assert_eq!(rt; age_of(&done.changed.source, "4"), Some(22));
    assert_eq!(rt; done.looks, 1);
    assert_eq!(rt; done.puts, 1);
    Ok(())
}

#[test]
fn an_id_of_several_turns_alone_is_compared(rt: HostRuntime) -> Result<(), Fail> {
    let alloc = rt.alloc();
    let empty = Puts::new(alloc)?;
    let mut commands = Commands::new(alloc);
    run(alloc, "4", &mut commands)?;
    let done = apply_entry(alloc, &empty, two_rows(alloc)?, commands)?;
    assert!(rt; done.changed.touched.contains("4") && done.changed.touched.contains("5"));
    assert_eq!(rt; age_of(&done.changed.source, "4"), Some(22));
    // the turns are 4, 5 and 4, and what 4 was before and is now is compared
    assert_eq!(rt; done.looks, 5);
    assert_eq!(rt; done.puts, 3);
    Ok(())
}

#[test]
fn an_id_that_comes_back_to_its_record_is_not_touched(rt: HostRuntime) -> Result<(), Fail> {
    let alloc = rt.alloc();
    let empty = Puts::new(alloc)?;
    let users = apply_entry(alloc, &empty, two_rows(alloc)?, Commands::new(alloc))?;
    let mut commands = Commands::new(alloc);
    add(alloc, "4", 1, &mut commands)?;
    add(alloc, "5", 1, &mut commands)?;
    add(alloc, "4", -1, &mut commands)?;
    let done = apply_entry(alloc, &users.changed.source, Facts::new(alloc), commands)?;
    assert!(rt; !done.changed.touched.contains("4") && done.changed.touched.contains("5"));
    assert_eq!(rt; age_of(&done.changed.source, "5"), Some(21));
    assert_eq!(rt; done.looks, 5);
    assert_eq!(rt; done.puts, 3);
    Ok(())
}

#[test]
fn facts_beside_a_command_on_edges_are_not_compared(rt: HostRuntime) -> Result<(), Fail> {
    let alloc = rt.alloc();
    let empty = Puts::new(alloc)?;
    let mut commands = Commands::new(alloc);
    commands.push(edge(alloc)?)?;
    let done = apply_entry(alloc, &empty, facts(alloc)?, commands)?;
    assert!(rt; done.changed.touched.contains("4"));
    // one for the facts, and one for the record in which no connection stands
    assert_eq!(rt; done.looks, 2);
    assert_eq!(rt; done.puts, 1);
    Ok(())
}

#[test]
fn what_is_there_already_puts_no_record(rt: HostRuntime) -> Result<(), Fail> {
    let alloc = rt.alloc();
    let empty = Puts::new(alloc)?;
    let users = apply_entry(alloc, &empty, facts(alloc)?, Commands::new(alloc))?;
    let mut commands = Commands::new(alloc);
    add(alloc, "4", 0, &mut commands)?;
    let done = apply_entry(alloc, &users.changed.source, facts(alloc)?, commands)?;
    assert!(rt; done.changed.touched.is_empty());
    assert_eq!(rt; done.looks, 1);
    assert_eq!(rt; done.puts, 0);
    Ok(())
}
