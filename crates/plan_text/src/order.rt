//! Names with values in byte order.
ghost use Rattle.std.specs.Prelude.{◌≡◌, map, IfOk};
ghost use Rattle.plan_ir.specs.OperationText.{by_name};
ghost use Rattle.plan_text.specs.Pairs.{pair_of};

use plan_ir::{Arguments, NoMemory, ValueTree};

/// A name and its value: an argument, or a field of an input object.
#[derive(Clone, Copy)]
pub(crate) struct Pair<'a> {
    pub(crate) name: &'a str,
    pub(crate) value: &'a ValueTree,
}

/// The names with their values in byte order, those of one name in written order.
pub(crate) fn in_order<'a>(arguments: &'a Arguments) -> Result<Vec<Pair<'a>>, NoMemory>
    ensures { IfOk result (λ pairs. map pair_of pairs.items ≡ by_name arguments.now) }
{
    let mut pairs = Vec::with_capacity(*arguments.items.allocator(), arguments.items.len())?;
    'items: for argument in &arguments.items {
        pairs.push(Pair {
            name: argument.name.as_str(),
            value: &argument.value,
        })?;
    }
    pairs.sort_by_key(|pair| pair.name)?;
    Ok(pairs)
}
