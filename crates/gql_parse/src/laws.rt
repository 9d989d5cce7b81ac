//! What holds of every text.
ghost use Rattle.std.specs.Prelude.{◌≡◌, ℕ, List, length};
ghost use Rattle.gql_syntax.specs.gql_ast.declared.document.Document.{Document};
ghost use Rattle.gql_syntax.specs.gql_ast.declared.fault.ParseFault.TheVariants.{Syntax};
ghost use Rattle.gql_syntax.specs.gql_ast.declared.fault.SyntaxFault.{SyntaxFault};
ghost use Rattle.gql_syntax.specs.gql_ast.declared.place.Placed.{Placed};
ghost use Rattle.gql_parse.specs.Documents.{documents};
ghost use Rattle.gql_parse.specs.Nodes.{document_nodes};
ghost use Rattle.gql_parse.specs.Trees.{IsDocument};
ghost use Rattle.gql_syntax.specs.Texts.{IsParseFault};

/// Law: a text is one document at most, with one list of places.
pub fn one_tree()
    ensures { (file : ℕ) (text : List ℕ) (p q : Placed Document) → IsDocument file text p → IsDocument file text q → p ≡ q }
{}

/// Law: a text has one first fault at most.
pub fn one_fault()
    ensures { (file : ℕ) (text : List ℕ) (f g : SyntaxFault) → IsParseFault documents file text (Syntax f) → IsParseFault documents file text (Syntax g) → f ≡ g }
{}

/// Law: a text that is a document has no fault.
pub fn tree_or_fault()
    ensures { (file : ℕ) (text : List ℕ) (p : Placed Document) (f : SyntaxFault) → IsDocument file text p → IsParseFault documents file text (Syntax f) → ⊥ }
{}

/// Law: a document has as many places as its tree has nodes, counted on the tree.
pub fn place_count()
    ensures { (file : ℕ) (text : List ℕ) (p : Placed Document) → IsDocument file text p → length p.places ≡ document_nodes p.tree }
{}
