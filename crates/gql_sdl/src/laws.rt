//! What holds of every text.
ghost use Rattle.std.specs.Prelude.{◌≡◌, ℕ, List, length};
ghost use Rattle.gql_syntax.specs.gql_ast.declared.schema.SchemaTree.{SchemaTree};
ghost use Rattle.gql_syntax.specs.gql_ast.declared.fault.ParseFault.TheVariants.{Syntax};
ghost use Rattle.gql_syntax.specs.gql_ast.declared.fault.SyntaxFault.{SyntaxFault};
ghost use Rattle.gql_syntax.specs.gql_ast.declared.place.Placed.{Placed};
ghost use Rattle.gql_sdl.specs.Schemas.{schemas};
ghost use Rattle.gql_sdl.specs.Nodes.{schema_nodes};
ghost use Rattle.gql_sdl.specs.Trees.{IsSchema};
ghost use Rattle.gql_syntax.specs.Texts.{IsParseFault};

/// Law: a text is one schema at most, with one list of places.
pub fn one_tree()
    ensures { (file : ℕ) (text : List ℕ) (p q : Placed SchemaTree) → IsSchema file text p → IsSchema file text q → p ≡ q }
{}

/// Law: a text has one first fault at most.
pub fn one_fault()
    ensures { (file : ℕ) (text : List ℕ) (f g : SyntaxFault) → IsParseFault schemas file text (Syntax f) → IsParseFault schemas file text (Syntax g) → f ≡ g }
{}

/// Law: a text that is a schema has no fault.
pub fn tree_or_fault()
    ensures { (file : ℕ) (text : List ℕ) (p : Placed SchemaTree) (f : SyntaxFault) → IsSchema file text p → IsParseFault schemas file text (Syntax f) → ⊥ }
{}

/// Law: a schema has as many places as its tree has nodes, counted on the tree.
pub fn place_count()
    ensures { (file : ℕ) (text : List ℕ) (p : Placed SchemaTree) → IsSchema file text p → length p.places ≡ schema_nodes p.tree }
{}
