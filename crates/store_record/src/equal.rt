//! Equality of fields and records: the same value, whoever shares it.
use crate::field::{Field, Fields, SharedField};
use crate::record::Record;

impl PartialEq for Field {
    ghost use Rattle.std.specs.Cmp.{partial_equiv_from_equiv};
    ghost use Rattle.store_record.specs.Equal.{field_eq, field_eq_equiv};

    ghost eq = { field_eq };

    ghost laws = { partial_equiv_from_equiv field_eq_equiv };

    fn eq(&self, other: &Field) -> bool {
        match (self, other) {
            (Field::Leaf(a), Field::Leaf(b)) => a == b,
            (Field::Link(a), Field::Link(b)) => a == b,
            (Field::Links(a), Field::Links(b)) => a == b,
            _ => false,
        }
    }
}

impl Eq for Field {
    ghost use Rattle.store_record.specs.Equal.{field_eq_equiv};

    ghost laws = { field_eq_equiv };
}

impl PartialEq for SharedField {
    ghost use Rattle.std.specs.Cmp.{partial_equiv_from_equiv};
    ghost use Rattle.store_record.specs.Equal.{entry_eq, entry_eq_equiv};

    ghost eq = { entry_eq };

    ghost laws = { partial_equiv_from_equiv entry_eq_equiv };

    fn eq(&self, other: &SharedField) -> bool {
        self.key() == other.key() && self.field() == other.field()
    }
}

impl Eq for SharedField {
    ghost use Rattle.store_record.specs.Equal.{entry_eq_equiv};

    ghost laws = { entry_eq_equiv };
}

impl PartialEq for Fields {
    ghost use Rattle.std.specs.Cmp.{partial_equiv_from_equiv};
    ghost use Rattle.store_record.specs.Equal.{fields_eq, fields_eq_equiv};

    ghost eq = { fields_eq };

    ghost laws = { partial_equiv_from_equiv fields_eq_equiv };

    fn eq(&self, other: &Fields) -> bool {
        self.as_slice() == other.as_slice()
    }
}

impl Eq for Fields {
    ghost use Rattle.store_record.specs.Equal.{fields_eq_equiv};

    ghost laws = { fields_eq_equiv };
}

impl PartialEq for Record {
    ghost use Rattle.std.specs.Cmp.{partial_equiv_from_equiv};
    ghost use Rattle.store_record.specs.Equal.{record_eq, record_eq_equiv};

    ghost eq = { record_eq };

    ghost laws = { partial_equiv_from_equiv record_eq_equiv };

    fn eq(&self, other: &Record) -> bool {
        self.type_name == other.type_name && self.fields == other.fields
    }
}

impl Eq for Record {
    ghost use Rattle.store_record.specs.Equal.{record_eq_equiv};

    ghost laws = { record_eq_equiv };
}
