//! How often entries are applied.
use plan_ir::{Command, Commands, Counts, Entry, Facts, Id, NoMemory, Pairs, Words};
use std::alloc::Global;
use std::test::Fail;
use store_layers::{Layers, RecordSource, Versions};

/// Adds 1 to the age of `4`.
fn older(alloc: Global) -> Result<Entry, NoMemory> {
    let mut commands = Commands::new(alloc);
    commands.push(Command::Add {
        id: Id::new(alloc, "4")?,
        field: Words::new(alloc, "age")?,
        args: Pairs::new(alloc),
        by: 1,
    })?;
    Ok(Entry {
        facts: Facts::new(alloc),
        commands,
    })
}

/// Starts a layer, where none of the name is live.
fn begin<S: RecordSource>(
    alloc: Global,
    layers: &mut Layers<S>,
    name: &str,
    steps: &mut S::Count,
) -> Result<(), NoMemory> {
    if !layers.is_live(name) {
        drop(layers.begin(Words::new(alloc, name)?, older(alloc)?, steps)?);
    }
    Ok(())
}

/// Drops a layer, where it is live.
fn revert<S: RecordSource>(
    alloc: Global,
    layers: &mut Layers<S>,
    name: &str,
    steps: &mut S::Count,
) -> Result<(), NoMemory> {
    if layers.is_live(name) {
        drop(layers.revert(&Words::new(alloc, name)?, steps)?);
    }
    Ok(())
}

/// How often entries were applied to begin three layers, then to drop the first one, and then the last.
fn applied(alloc: Global) -> Result<[u64; 3], NoMemory> {
    let mut steps = Counts::new();
    let mut layers = Layers::new(alloc, Versions::new(alloc))?;
    for name in ["a", "b", "c"] {
        begin(alloc, &mut layers, name, &mut steps)?;
    }
    let begun = steps.applies;
    revert(alloc, &mut layers, "a", &mut steps)?;
    let first = steps.applies;
    revert(alloc, &mut layers, "c", &mut steps)?;
    Ok([begun, first, steps.applies])
}

#[test]
fn dropping_a_layer_applies_those_above_it_alone(rt: HostRuntime) -> Result<(), Fail> {
    let alloc = rt.alloc();
    let counts = applied(alloc)?;
    assert!(rt; counts[0] == 3 && counts[1] == 5 && counts[2] == 5);
    Ok(())
}
