//! The type around the selections of an inline fragment.
ghost use Rattle.std.specs.Prelude.{◌≡◌, option_copied};
ghost use Rattle.plan_ir.specs.schema_types.Sites as sites;

use plan_ir::Name;

/// The type around the selections of an inline fragment (GraphQL, October 2021, section 2.8.2).
pub(crate) fn condition_or<'a>(around: Option<&'a str>, on: &'a Option<Name>) -> Option<&'a str>
    ensures { option_copied result ≡ sites.condition_or (option_copied around.entry) on.now }
{
    match on {
        Some(name) => Some(name.as_str()),
        None => around,
    }
}
