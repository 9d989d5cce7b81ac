//! Copies of what may be there or not.
ghost use Rattle.std.specs.Prelude.{◌≡◌, IfOk};

use store_model::gql_plain::{Conn, Ids, Name, NoMemory};

/// The same name, or none where there is none.
pub(crate) fn copy_of_name(name: &Option<Name>) -> Result<Option<Name>, NoMemory>
    ensures { IfOk result (λ copy. copy ≡ name.now) }
{
    match name {
        Some(name) => Ok(Some(name.copy()?)),
        None => Ok(None),
    }
}

/// The same connection, or none where there is none.
pub fn copy_of_conn(conn: &Option<Conn>) -> Result<Option<Conn>, NoMemory>
    ensures { IfOk result (λ copy. copy ≡ conn.now) }
{
    match conn {
        Some(conn) => Ok(Some(conn.copy()?)),
        None => Ok(None),
    }
}

/// One more owner of the same list, or none where there is none.
pub(crate) fn copy_of_ids(ids: &Option<Ids>) -> Result<Option<Ids>, NoMemory>
    ensures { IfOk result (λ copy. copy ≡ ids.now) }
{
    match ids {
        Some(ids) => Ok(Some(ids.copy()?)),
        None => Ok(None),
    }
}
