//! Fields and inputs by their names.
use crate::located::{FieldAt, InputAt};
use schema_tables::index::Named;

impl Named for InputAt<'_> {
    ghost use Rattle.schema_trees.specs.LocatedView.{input_text};

    ghost name = { input_text };

    fn name(&self) -> &str {
        self.name.name
    }
}

impl Named for FieldAt<'_> {
    ghost use Rattle.schema_trees.specs.LocatedView.{field_text};

    ghost name = { field_text };

    fn name(&self) -> &str {
        self.name.name
    }
}
