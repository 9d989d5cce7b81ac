//! Texts for tests, and places as texts.
ghost use Rattle.std.specs.Prelude.{◌<◌, length};

use gql_parse::gql_ast::FilePlaces;
use std::alloc::Global;
use std::test::Fail;

/// The bytes, or none where they are too many for a test.
pub(crate) fn short(bytes: &[u8]) -> &[u8]
    ensures { length result.now < 3000 }
{
    if bytes.len() < 3000 {
        return bytes;
    }
    &[]
}

/// A text, followed by another one so many times.
pub(crate) fn times(alloc: Global, front: &str, text: &str, count: usize) -> Result<String, Fail> {
    let mut all = String::new(alloc);
    all.push_str(front)?;
    for _ in 0..count {
        all.push_str(text)?;
    }
    Ok(all)
}

/// Lines and columns.
pub(crate) fn list_places(alloc: Global, places: &FilePlaces) -> Result<String, Fail> {
    let mut list = String::new(alloc);
    for place in places.as_slice() {
        let shown = format!(in alloc; "{}:{} ", place.line, place.column)?;
        list.push_str(shown.as_str())?;
    }
    Ok(list)
}
