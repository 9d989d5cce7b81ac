//! The rows that lines are.
ghost use Rattle.std.specs.Prelude.{◌≡◌, IfOk};
ghost use Rattle.image_rows.specs.Texts as texts;
ghost use Rattle.serde_json.specs.View.{view};
ghost use Rattle.store_model.specs.gql_plain.Shown.{tree_of};

use image_text::gql_plain::{NoMemory, Plain, PlainFault, Plains, plain_of};
use serde_json::Value;
use std::alloc::Global;

/// The items of a list; takes no memory.
fn row_of_plain(plain: Plain) -> Option<Plains>
    ensures { result ≡ texts.row_of_tree (tree_of plain) }
{
    match plain {
        Plain::Null => None,
        Plain::Bool(_) => None,
        Plain::Int(_) => None,
        Plain::Text(_) => None,
        Plain::List(plains) => Some(plains),
        Plain::Tree(_) => None,
    }
}

/// The row that a JSON value is, where its numbers are all whole.
fn row_of_value(alloc: Global, value: &Value) -> Result<Option<Plains>, NoMemory>
    ensures { IfOk result (λ row. row ≡ texts.row_of_data (view value.now)) }
{
    match plain_of(alloc, value) {
        Ok(plain) => Ok(row_of_plain(plain)),
        Err(PlainFault::NotWhole) => Ok(None),
        Err(PlainFault::NoMemory) => Err(NoMemory),
    }
}

/// The row that a line is, blanks and all.
pub fn row_of_line(alloc: Global, line: &str) -> Result<Option<Plains>, NoMemory>
    ensures { IfOk result (λ row. row ≡ texts.row_of_line line.now) }
{
    match Value::from_str(alloc, line) {
        Ok(value) => row_of_value(alloc, &value),
        Err(error) => {
            if error.is_memory() {
                return Err(NoMemory);
            }
            Ok(None)
        }
    }
}
