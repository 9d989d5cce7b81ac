//! Layers that finish, and copies of layers, on each kind of record map.
ghost use Rattle.std.specs.Prelude.{◌≡◌};
ghost use Rattle.store_layers.specs.store_model.Records.{no_records};

use std::alloc::Global;
use std::test::Fail;
use store_layers::{
    Command, Commands, Entry, Facts, Field, Flat, Layers, RecordSource, Slot, Versions,
};
use store_tree::gql_plain::{Counts, Id, NoMemory, Pairs, Plain, Words};

/// Sets a field of `4`.
fn set(alloc: Global, field: &str, value: Plain) -> Result<Command, NoMemory> {
    Ok(Command::Set {
        id: Id::new(alloc, "4")?,
        field: Words::new(alloc, field)?,
        args: Pairs::new(alloc),
        value,
    })
}

/// Adds to the age of `4`.
fn add(alloc: Global, by: i64) -> Result<Command, NoMemory> {
    Ok(Command::Add {
        id: Id::new(alloc, "4")?,
        field: Words::new(alloc, "age")?,
        args: Pairs::new(alloc),
        by,
    })
}

/// Gives `4` a name, and adds to its age.
fn entry(alloc: Global, name: &str, by: i64) -> Result<Entry, NoMemory> {
    let name = Plain::Text(Words::new(alloc, name)?);
    let mut commands = Commands::new(alloc);
    commands.push(set(alloc, "name", name)?)?;
    commands.push(add(alloc, by)?)?;
    Ok(Entry {
        facts: Facts::new(alloc),
        commands,
    })
}

/// `4` becomes live, with the age 0.
fn born(alloc: Global) -> Result<Entry, NoMemory> {
    let id = Id::new(alloc, "4")?;
    let of = Words::new(alloc, "User")?;
    let mut commands = Commands::new(alloc);
    commands.push(Command::Create { id, of })?;
    commands.push(set(alloc, "age", Plain::Int(0))?)?;
    Ok(Entry {
        facts: Facts::new(alloc),
        commands,
    })
}

/// Starts a layer, where none of the name is live: it gives its name to `4`.
fn begin<S: RecordSource>(
    alloc: Global,
    layers: &mut Layers<S>,
    name: &str,
    by: i64,
    steps: &mut S::Count,
) -> Result<(), NoMemory> {
    if !layers.is_live(name) {
        drop(layers.begin(Words::new(alloc, name)?, entry(alloc, name, by)?, steps)?);
    }
    Ok(())
}

/// Drops a layer, where it is live.
fn revert<S: RecordSource>(
    alloc: Global,
    layers: &mut Layers<S>,
    name: &str,
    steps: &mut S::Count,
) -> Result<(), NoMemory> {
    if layers.is_live(name) {
        drop(layers.revert(&Words::new(alloc, name)?, steps)?);
    }
    Ok(())
}

/// Finishes a layer, where it is live, with an entry that gives this name to `4`; whether `4` is among
/// the ids that change.
fn finish<S: RecordSource>(
    alloc: Global,
    layers: &mut Layers<S>,
    layer: &str,
    name: &str,
    by: i64,
    steps: &mut S::Count,
) -> Result<bool, NoMemory> {
    if !layers.is_live(layer) {
        return Ok(false);
    }
    let entry = entry(alloc, name, by)?;
    let ids = layers.finish(&Words::new(alloc, layer)?, entry, steps)?;
    Ok(ids.contains("4"))
}

/// Three layers over `4`.
fn three<S: RecordSource>(
    alloc: Global,
    source: S,
    steps: &mut S::Count,
) -> Result<Layers<S>, NoMemory>
    requires { S.records source ≡ no_records }
{
    let mut layers = Layers::new(alloc, source)?;
    drop(layers.commit(born(alloc)?, steps)?);
    for (name, by) in [("a", 1), ("b", 10), ("c", 100)] {
        begin(alloc, &mut layers, name, by, steps)?;
    }
    Ok(layers)
}

/// Writes a number or a text.
fn put_field(field: Option<&Field>, text: &mut String) -> Result<(), NoMemory> {
    match field {
        Some(Field::Leaf(Plain::Int(number))) => {
            let digits = format!(in *text.allocator(); "{number} ")?;
            Ok(text.push_str(digits.as_str())?)
        }
        Some(Field::Leaf(Plain::Text(words))) => {
            text.push_str(words.as_str())?;
            Ok(text.push(' ')?)
        }
        _ => Ok(text.push_str("none ")?),
    }
}

/// Writes the age and the name of `4`.
fn put_user<S: RecordSource>(
    map: &S,
    text: &mut String,
    steps: &mut S::Count,
) -> Result<(), NoMemory> {
    match map.get("4", steps) {
        Some(Slot::Alive(shared)) => {
            put_field(shared.get().fields.get("age"), text)?;
            put_field(shared.get().fields.get("name"), text)
        }
        _ => Ok(text.push_str("absent ")?),
    }
}

/// Writes the age and the name of `4` in the base, those in the view, and the layers that are live.
fn put_layers<S: RecordSource>(
    layers: &Layers<S>,
    text: &mut String,
    steps: &mut S::Count,
) -> Result<(), NoMemory> {
    put_user(layers.base(), text, steps)?;
    put_user(layers.view(), text, steps)?;
    for name in ["a", "b", "c"] {
        if layers.is_live(name) {
            text.push_str(name)?;
        }
    }
    Ok(text.push(';')?)
}

/// What is shown of three layers when the one in the middle, the last and the first one have finished
/// in turn.
fn finished<S: RecordSource>(
    alloc: Global,
    source: S,
    steps: &mut S::Count,
) -> Result<String, NoMemory>
    requires { S.records source ≡ no_records }
{
    let mut layers = three(alloc, source, steps)?;
    let mut text = String::new(alloc);
    for (layer, name, by) in [("b", "d", 1_000), ("c", "e", 0), ("a", "f", 5)] {
        finish(alloc, &mut layers, layer, name, by, steps)?;
        put_layers(&layers, &mut text, steps)?;
    }
    Ok(text)
}

/// The entry that a layer finishes with is confirmed; the layers that are left stand over it.
#[test]
fn a_layer_that_finishes_gives_way_to_an_entry(rt: HostRuntime) -> Result<(), Fail> {
    let alloc = rt.alloc();
    let mut steps = Counts::new();
    let wanted = "1000 d 1101 c ac;1000 e 1001 a a;1005 f 1005 f ;";
    let text = finished(alloc, Flat::new(alloc)?, &mut steps)?;
    assert_eq!(rt; text.as_str(), wanted);
    let text = finished(alloc, Versions::new(alloc), &mut steps)?;
    assert_eq!(rt; text.as_str(), wanted);
    Ok(())
}

/// How often entries are applied to finish the layer in the middle of three, and whether `4` is among
/// the ids that change.
fn counted(alloc: Global) -> Result<(u64, bool), NoMemory> {
    let mut steps = Counts::new();
    let mut layers = three(alloc, Versions::new(alloc), &mut steps)?;
    let before = steps.applies;
    let told = finish(alloc, &mut layers, "b", "d", 1_000, &mut steps)?;
    Ok((steps.applies.saturating_sub(before), told))
}

#[test]
fn a_layer_that_finishes_applies_the_others_again(rt: HostRuntime) -> Result<(), Fail> {
    let (applies, told) = counted(rt.alloc())?;
    // The entry on the base, and each of the two layers that are left.
    assert!(rt; applies == 3 && told);
    Ok(())
}

/// Writes a copy of layers, those layers when the copy has lost its first one, and the copy when the
/// layer in the middle has finished in those layers.
fn put_copies<S: RecordSource>(
    alloc: Global,
    layers: &mut Layers<S>,
    copy: &mut Layers<S>,
    text: &mut String,
    steps: &mut S::Count,
) -> Result<(), NoMemory> {
    put_layers(copy, text, steps)?;
    revert(alloc, copy, "a", steps)?;
    put_layers(layers, text, steps)?;
    finish(alloc, layers, "b", "d", 1_000, steps)?;
    put_layers(copy, text, steps)
}

/// What is shown of three layers and of a copy of them.
fn copied<S: RecordSource>(
    alloc: Global,
    source: S,
    steps: &mut S::Count,
) -> Result<String, NoMemory>
    requires { S.records source ≡ no_records }
{
    let mut layers = three(alloc, source, steps)?;
    let mut copy = layers.copy()?;
    let mut text = String::new(alloc);
    put_copies(alloc, &mut layers, &mut copy, &mut text, steps)?;
    Ok(text)
}

/// What befalls the copy leaves the layers, and what befalls the layers leaves the copy.
#[test]
fn a_copy_of_layers_stands_alone(rt: HostRuntime) -> Result<(), Fail> {
    let alloc = rt.alloc();
    let mut steps = Counts::new();
    let wanted = "0 none 111 c abc;0 none 111 c abc;0 none 110 c bc;";
    let text = copied(alloc, Flat::new(alloc)?, &mut steps)?;
    assert_eq!(rt; text.as_str(), wanted);
    let text = copied(alloc, Versions::new(alloc), &mut steps)?;
    assert_eq!(rt; text.as_str(), wanted);
    Ok(())
}
