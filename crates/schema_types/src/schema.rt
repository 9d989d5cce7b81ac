//! Schemas.
ghost use Rattle.std.specs.Prelude.{◌≡◌, map, true, option_map, option_and_then, option_copied, IfOk, IfErr};
ghost use Rattle.schema_rules.specs.gql_plain.Order.{sorted_texts};
ghost use Rattle.schema_rules.specs.gql_ast.TypeView.{ty_of};
ghost use Rattle.schema_rules.specs.gql_ast.ValueView.{value_of};
ghost use Rattle.schema_rules.specs.schema_tables.BuiltIn as known;
ghost use Rattle.schema_rules.specs.Checked.{IsSound, IsRuleFault};
ghost use Rattle.schema_rules.specs.schema_tables.Fits as fits;
ghost use Rattle.schema_rules.specs.schema_tables.Types as types;

use schema_rules::fault::{NodeFault, RuleFault};
use schema_rules::first::first_fault;
use schema_rules::gql_ast::{Kind, SchemaDefs, TypeTree, ValueTree, VariableDef};
use schema_rules::gql_plain::{Ids, Name, NoMemory};
use schema_rules::schema_tables::definitions::{DirectiveDef, FieldDef, InputDef, InputDefs};
use schema_rules::schema_tables::fits::use_allowed;
use schema_rules::schema_tables::kind::TypeKind;
use schema_rules::schema_tables::tables::Tables;
use std::alloc::Global;
use std::marker::Model;

/// A schema that meets all rules (GraphQL, October 2021, section 3), seen as its definitions. No
/// look-up takes memory.
#[derive(Debug, Drop)]
pub struct Schema {
    tables: Tables,
}

impl Model for Schema {
    ghost use Rattle.std.specs.Prelude.{List};
    ghost use Rattle.std.specs.Coded.{coded_list};
    ghost use Rattle.schema_rules.specs.gql_ast.declared.schema.SchemaDef.{SchemaDef};
    ghost use Rattle.schema_rules.specs.gql_ast.contracts.schema.SchemaDef as definition_row;
    ghost use Rattle.schema_rules.specs.Checked.{IsSound};

    ghost Value = { List SchemaDef };

    ghost coded = { coded_list definition_row.the_row.coded };

    ghost view = { λ s. s.tables };

    ghost invariant = { λ s. IsSound s.tables };
}

impl Schema {
    /// The schema of definitions. They are moved into it, and not copied.
    ///
    /// # Errors
    ///
    /// The first of the rules S1 to S12 that they do not meet, at the least of its nodes; `NoMemory`.
    pub fn build(alloc: Global, definitions: SchemaDefs) -> Result<Schema, RuleFault>
        ensures built { IfOk result (λ schema. schema ≡ definitions) }
        ensures sound { IfOk result (λ schema. IsSound schema) }
        ensures fault { IfErr result (IsRuleFault definitions) }
    {
        let tables = Tables::new(alloc, definitions)?;
        match first_fault(alloc, &tables)? {
            Some((rule, node)) => Err(RuleFault::Rule(NodeFault { rule, node })),
            None => Ok(Schema { tables }),
        }
    }

    /// The field of a name on an object or an interface. `__typename` is none of them.
    pub fn field(&self, of: &str, name: &str) -> Option<FieldDef<'_>>
        ensures { result ≡ option_map types.field_def (types.field_on self.now of.now name.now) }
    {
        self.tables.field(of, name)
    }

    /// The input fields of an input object.
    pub fn inputs(&self, of: &str) -> Option<InputDefs<'_>>
        ensures { result ≡ option_map (map types.input_def) (types.inputs_of self.now of.now) }
    {
        self.tables.inputs(of)
    }

    /// The input field of a name on an input object.
    pub fn input(&self, of: &str, name: &str) -> Option<InputDef<'_>>
        ensures { result ≡ option_map types.input_def (option_and_then (λ is. types.input_named is name.now) (types.inputs_of self.now of.now)) }
    {
        self.tables.input(of, name)
    }

    /// The names of the values of an enum, distinct and in byte order.
    pub fn enum_names(&self, of: &str) -> Option<&Ids>
        ensures { option_copied result ≡ option_map sorted_texts (types.enum_names self.now of.now) }
    {
        self.tables.enum_names(of)
    }

    /// The object types that an object, an interface or a union may be.
    pub fn possible(&self, of: &str) -> &Ids
        requires { types.is_composite self.now of.now ≡ true }
        ensures { result.now ≡ types.possible self.now of.now }
    {
        self.tables.possible(of)
    }

    /// Whether the object type is this type, implements this interface, or is held by this union.
    pub fn applies(&self, object: &str, to: &str) -> bool
        ensures { result ≡ types.applies self.now object.now to.now }
    {
        self.tables.applies(object, to)
    }

    /// Whether the type is a scalar or an enum.
    pub fn is_leaf(&self, of: &str) -> bool
        ensures { result ≡ types.is_leaf self.now of.now }
    {
        self.tables.is_leaf(of)
    }

    /// Whether the type is an object, an interface or a union (section 2.8).
    pub fn is_composite(&self, of: &str) -> bool
        ensures { result ≡ types.is_composite self.now of.now }
    {
        self.tables.is_composite(of)
    }

    /// Whether the type has a field `id` of type `ID!` without arguments.
    pub fn has_id(&self, of: &str) -> bool
        ensures { result ≡ types.has_id self.now of.now }
    {
        self.tables.has_id(of)
    }

    /// The object type of the operations of a kind (section 3.3.1).
    pub fn root(&self, kind: Kind) -> Option<&Name>
        ensures { option_copied result ≡ types.root self.now kind }
    {
        self.tables.root(kind)
    }

    /// The kind of a type that is built in or defined.
    pub fn kind_of(&self, name: &str) -> Option<TypeKind>
        ensures { result ≡ types.kind_of self.now name.now }
    {
        self.tables.kind_of(name)
    }

    /// A directive of the specification, of this project, or of the schema (section 3.13).
    pub fn directive(&self, name: &str) -> Option<DirectiveDef<'_>>
        ensures { result ≡ known.directive self.now name.now }
    {
        self.tables.directive(name)
    }

    /// Whether the literal fits the type. A variable fits everywhere. The memory that it takes is
    /// that of the names of an object's fields.
    pub fn literal_fits(
        &self,
        alloc: Global,
        value: &ValueTree,
        of: &TypeTree,
    ) -> Result<bool, NoMemory>
        ensures { IfOk result (λ b. b ≡ fits.literal_fits self.now (value_of value.now) (ty_of of.now)) }
    {
        let is_good = self.tables.literal_fits(alloc, value, of)?;
        Ok(is_good)
    }

    /// Whether the use of a variable is allowed at a place of a type that has a default or has none
    /// (section 5.8.5).
    pub fn use_allowed(&self, defined: &VariableDef, of: &TypeTree, has_default: bool) -> bool
        ensures { result ≡ fits.use_allowed (ty_of defined.now.of) defined.now.default (ty_of of.now) has_default }
    {
        use_allowed(defined, of, has_default)
    }
}
