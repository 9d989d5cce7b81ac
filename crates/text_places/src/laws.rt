//! What holds of every tree that was read.
ghost use Rattle.std.specs.Prelude.{◌≡◌, ℕ, List, length};
ghost use Rattle.gql_parse.specs.gql_ast.declared.document.Document.{Document};
ghost use Rattle.gql_parse.specs.gql_ast.declared.place.Placed.{Placed};
ghost use Rattle.gql_parse.specs.gql_ast.declared.schema.SchemaTree.{SchemaTree};
ghost use Rattle.gql_parse.specs.Documents as documents;
ghost use Rattle.gql_parse.specs.Nodes.{document_nodes};
ghost use Rattle.gql_parse.specs.Trees.{IsDocument};
ghost use Rattle.gql_sdl.specs.Nodes.{schema_nodes};
ghost use Rattle.gql_sdl.specs.Schemas.{nodes_of};
ghost use Rattle.gql_sdl.specs.Trees.{IsSchema};
ghost use Rattle.schema_types.specs.schema_tables.Types.{Defs};
ghost use Rattle.schema_types.specs.schema_trees.Located.{locate};
ghost use Rattle.schema_types.specs.schema_trees.Numbers as rules;
ghost use Rattle.schema_types.specs.DocumentRules.{places_of};
ghost use Rattle.schema_types.specs.Sites as sites;
ghost use Rattle.text_places.specs.DocumentNaming.{AreAllWritten, AreWritten, Reading, placed_of};
ghost use Rattle.text_places.specs.Naming.{AreSpelled};

/// Law: rules count as many nodes in a schema as its text has.
pub fn schema_count()
    ensures { (s : SchemaTree) → rules.schema_nodes s.definitions ≡ schema_nodes s }
{}

/// Law: a schema that was read has a place for each number that a rule can give.
pub fn schema_places()
    ensures { (file : ℕ) (text : List ℕ) (p : Placed SchemaTree) → IsSchema file text p → length p.places ≡ rules.schema_nodes p.tree.definitions }
{}

/// Law: rules count as many nodes in a document as its text has.
pub fn document_count()
    ensures { (d : Document) → sites.document_nodes d ≡ document_nodes d }
{}

/// Law: a document that was read has a place for each node that rules count.
pub fn document_places()
    ensures { (file : ℕ) (text : List ℕ) (p : Placed Document) → IsDocument file text p → length p.places ≡ sites.document_nodes p.tree }
{}

/// Law: in a schema that was read, the node of each name begins at a Name of the text that spells the
/// name, and its place is that of the Name.
pub fn schema_names()
    ensures { (file : ℕ) (text : List ℕ) (p : Placed SchemaTree) (s : IsSchema file text p) → AreSpelled file text (nodes_of s.written) p.places (locate p.tree.definitions) }
{}

/// Law: in a document that was read, the node of each name begins at a Name of the text that spells
/// the name, that of each value at its first token, and its place is that of the token.
pub fn document_names()
    ensures { (defs : Defs) (file : ℕ) (text : List ℕ) (p : Placed Document) (d : IsDocument file text p) → AreWritten file text (documents.nodes_of d.written) 0 p.places (sites.definitions_at defs 1 p.tree.definitions) }
{}

/// Law: in documents that were read, each from its own file and text, the numbers of a later one's
/// nodes go on where those before end, as rules number the nodes of all documents. The node of each
/// name begins at a Name of its own text that spells the name, that of each value at its first
/// token, and its place among those of all documents is that of the token.
pub fn documents_names()
    ensures { (defs : Defs) (rs : List Reading) → AreAllWritten defs 0 (places_of (placed_of rs)) rs }
{}
