//! Sweeps of the base of layers, on each kind of record map.
ghost use Rattle.std.specs.Prelude.{◌≡◌, [], IfOk};
ghost use Rattle.store_layers.specs.store_model.Records.{no_records};

use std::alloc::Global;
use std::test::Fail;
use store_layers::{Command, Commands, Entry, Facts, Flat, Layers, RecordSource, Versions};
use store_tree::gql_plain::{Counts, Id, Ids, NoMemory, Words};

/// The ids of a text, which has a space between two.
fn ids_of(alloc: Global, text: &str) -> Result<Ids, NoMemory> {
    let mut ids = Vec::new(alloc);
    for id in text.split(' ') {
        ids.push(Id::new(alloc, id)?)?;
    }
    Ids::sort(ids)
}

fn create(alloc: Global, id: &str) -> Result<Command, NoMemory> {
    Ok(Command::Create {
        id: Id::new(alloc, id)?,
        of: Words::new(alloc, "T")?,
    })
}

/// `a` and `c` become live, and `b` deleted.
fn three(alloc: Global) -> Result<Entry, NoMemory> {
    let mut commands = Commands::new(alloc);
    for id in ["a", "b", "c"] {
        commands.push(create(alloc, id)?)?;
    }
    let id = Id::new(alloc, "b")?;
    commands.push(Command::Delete { id })?;
    Ok(Entry {
        facts: Facts::new(alloc),
        commands,
    })
}

/// No layer over `a`, `b` and `c`.
fn of_three<S: RecordSource>(
    alloc: Global,
    source: S,
    steps: &mut S::Count,
) -> Result<Layers<S>, NoMemory>
    requires { S.records source ≡ no_records }
    ensures { IfOk result (λ layers. layers.live ≡ []) }
{
    let mut layers = Layers::new(alloc, source)?;
    drop(layers.commit(three(alloc)?, steps)?);
    Ok(layers)
}

/// Puts ids to the end of a text, and a space after them.
fn put_ids(ids: &Ids, text: &mut String) -> Result<(), NoMemory> {
    for id in ids.as_slice() {
        text.push_str(id.as_str())?;
    }
    text.push(' ')?;
    Ok(())
}

/// The ids that a sweep of `a`, `b` and `c` takes out, those that it leaves, and those of a version
/// from before.
fn swept<S: RecordSource>(
    alloc: Global,
    source: S,
    keep: &str,
    steps: &mut S::Count,
) -> Result<String, NoMemory>
    requires { S.records source ≡ no_records }
{
    let keep = ids_of(alloc, keep)?;
    let mut layers = of_three(alloc, source, steps)?;
    let before = layers.base().version()?;
    let gone = layers.sweep_base(&keep, steps)?;
    let mut text = String::new(alloc);
    put_ids(&gone, &mut text)?;
    put_ids(&layers.base().ids()?, &mut text)?;
    put_ids(&before.ids()?, &mut text)?;
    Ok(text)
}

#[test]
fn a_sweep_of_a_flat_map_takes_out_what_is_not_kept(rt: HostRuntime) -> Result<(), Fail> {
    let alloc = rt.alloc();
    let mut steps = Counts::new();
    let dropping = swept(alloc, Flat::new(alloc)?, "b d", &mut steps)?;
    assert_eq!(rt; dropping.as_str(), "ac b abc ");
    let keeping = swept(alloc, Flat::new(alloc)?, "a b c d", &mut steps)?;
    assert_eq!(rt; keeping.as_str(), " abc abc ");
    Ok(())
}

#[test]
fn a_sweep_of_a_version_takes_out_what_is_not_kept(rt: HostRuntime) -> Result<(), Fail> {
    let alloc = rt.alloc();
    let mut steps = Counts::new();
    let dropping = swept(alloc, Versions::new(alloc), "b d", &mut steps)?;
    assert_eq!(rt; dropping.as_str(), "ac b abc ");
    let keeping = swept(alloc, Versions::new(alloc), "a b c d", &mut steps)?;
    assert_eq!(rt; keeping.as_str(), " abc abc ");
    Ok(())
}
