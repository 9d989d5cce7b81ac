//! Expanded operations and fragments of short texts, and what `check_merge` answers of them.
//!
//! A tree is written in words: a field as in a document, but without its selection set; `...A` or
//! `...` for an inline fragment; `{` and `}` around what stands in the node before. A node's column
//! is its number in the text. `#7` gives the next node the column 7.
ghost use Rattle.std.specs.Prelude.{◌<◌, length};

use doc_merge::{MergeFault, check_merge};
use gql_parse::parse_document;
use gql_sdl::parse_schema;
use plan_ir::type_forms::base_of;
use plan_ir::{
    Arguments, Definition, Directives, Expanded, FilePlace, Kind, Name, Node, Nodes, Operation,
    Schema, Selection, TypeTree, VariableDefs,
};
use std::alloc::Global;
use std::process::Abort;
use std::test::Fail;

const SCHEMA: &str = "interface I{a(p:Int q:Int o:O):Int b:Int e:String n:Int! l:[Int] c:I d:I}\
    type A implements I{a(p:Int q:Int o:O):Int b:Int e:String n:Int! l:[Int] c:I d:I}\
    type B implements I{a(p:Int q:Int o:O):Int b:Int e:String n:Int! l:[Int] c:I d:I}\
    input O{x:Int y:Int z:[Int!] m:[[Int]] o:O}\
    type Query{i:I a:A b:B f(s:String! t:Int!=1 u:[Int!]):Int}";

/// The bytes, or none where they are too many for a test.
fn shorten(bytes: &[u8]) -> &[u8]
    ensures { length result.now < 2000000 }
{
    if bytes.len() < 2_000_000 {
        return bytes;
    }
    &[]
}

fn schema(alloc: Global) -> Result<Schema, Fail> {
    let tree = parse_schema(alloc, 0, shorten(SCHEMA.as_bytes()))?;
    Ok(Schema::build(alloc, tree.tree.definitions)?)
}

/// The first operation of a text.
fn operation(alloc: Global, text: &str) -> Result<Operation, Fail> {
    let document = parse_document(alloc, 0, shorten(text.as_bytes()))?;
    for definition in document.tree.definitions.as_slice() {
        if let Definition::Operation(operation) = definition {
            return Ok(operation.copy()?);
        }
    }
    Err("no operation")?
}

fn name_or(alloc: Global, name: &Option<Name>, other: &str) -> Result<Name, Fail> {
    match name {
        Some(name) => Ok(name.copy()?),
        None => Ok(Name::new(alloc, other)?),
    }
}

fn copy_name(name: &Option<Name>) -> Result<Option<Name>, Fail> {
    match name {
        Some(name) => Ok(Some(name.copy()?)),
        None => Ok(None),
    }
}

/// The type of a field; that of `__typename` where there is none.
fn type_of(alloc: Global, schema: &Schema, around: &str, name: &str) -> Result<TypeTree, Fail> {
    match schema.field(around, name) {
        Some(field) => Ok(field.of().copy()?),
        None => Ok(TypeTree::Named(Name::new(alloc, "String")?)),
    }
}

/// A node, and the type around what stands in it.
#[derive(Drop)]
struct Head {
    node: Node,
    inside: Name,
}

/// A field of a type without what stands in it.
fn field_node(
    alloc: Global,
    of: TypeTree,
    place: FilePlace,
    alias: &Option<Name>,
    name: &Name,
    arguments: &Arguments,
    directives: &Directives,
) -> Result<Node, Fail> {
    let response = name_or(alloc, alias, name.as_str())?;
    let name = name.copy()?;
    let arguments = arguments.copy()?;
    let directives = directives.copy()?;
    Ok(Node::Field {
        response,
        name,
        arguments,
        directives,
        connection: None,
        of,
        selections: Nodes::new(alloc),
        place,
    })
}

/// An inline fragment without what stands in it.
fn inline_node(
    alloc: Global,
    place: FilePlace,
    on: &Option<Name>,
    directives: &Directives,
) -> Result<Node, Fail> {
    let on = copy_name(on)?;
    let directives = directives.copy()?;
    Ok(Node::Inline {
        on,
        directives,
        selections: Nodes::new(alloc),
        place,
    })
}

/// The node of a selection without what stands in it.
fn head_of(
    alloc: Global,
    schema: &Schema,
    around: &str,
    place: FilePlace,
    selection: &Selection,
) -> Result<Head, Fail> {
    match selection {
        Selection::Field {
            alias,
            name,
            arguments,
            directives,
            ..
        } => {
            let of = type_of(alloc, schema, around, name.as_str())?;
            let inside = Name::new(alloc, base_of(&of))?;
            let node = field_node(alloc, of, place, alias, name, arguments, directives)?;
            Ok(Head { node, inside })
        }
        Selection::Inline { on, directives, .. } => {
            let inside = name_or(alloc, on, around)?;
            let node = inline_node(alloc, place, on, directives)?;
            Ok(Head { node, inside })
        }
        Selection::Spread { .. } => Err("a spread")?,
    }
}

/// The text of an operation that has the selection of a word.
fn text_of_word(alloc: Global, word: &str) -> Result<String, Fail> {
    let Some(rest) = word.strip_prefix("...") else {
        return Ok(format!(in alloc; "{{{word}}}")?);
    };
    if rest.is_empty() {
        return Ok(format!(in alloc; "{{...{{x}}}}")?);
    }
    if rest.starts_with('@') {
        return Ok(format!(in alloc; "{{...{rest}{{x}}}}")?);
    }
    Ok(format!(in alloc; "{{...on {rest}{{x}}}}")?)
}

/// The node of a word.
fn read_head(
    alloc: Global,
    schema: &Schema,
    around: &str,
    column: u32,
    word: &str,
) -> Result<Head, Fail> {
    let text = text_of_word(alloc, word)?;
    let place = FilePlace {
        file: 0,
        line: 1,
        column,
    };
    let operation = operation(alloc, text.as_str())?;
    match operation.selections.as_slice().first() {
        Some(selection) => head_of(alloc, schema, around, place, selection),
        None => Err("no selection")?,
    }
}

/// The node with this inside it.
fn fill(node: Node, inside: Nodes) -> Node {
    match node {
        Node::Field {
            response,
            name,
            arguments,
            directives,
            connection,
            of,
            selections,
            place,
        } => {
            drop(selections);
            Node::Field {
                response,
                name,
                arguments,
                directives,
                connection,
                of,
                selections: inside,
                place,
            }
        }
        Node::Inline {
            on,
            directives,
            selections,
            place,
        } => {
            drop(selections);
            Node::Inline {
                on,
                directives,
                selections: inside,
                place,
            }
        }
    }
}

/// A set that is not closed yet: the node that it stands in, the nodes before that one, and the type
/// around them.
#[derive(Drop)]
struct Level {
    node: Node,
    before: Nodes,
    around: Name,
}

/// How far a text is read.
#[derive(Drop)]
struct Walk {
    levels: Vec<Level>,
    around: Name,
    nodes: Nodes,
    last: Option<Head>,
    count: u32,
}

impl Walk {
    /// Puts the last node with those before it.
    fn close_node(&mut self) -> Result<(), Fail> {
        if let Some(head) = self.last.take() {
            self.nodes.push(head.node)?;
        }
        Ok(())
    }

    /// Goes inside the last node.
    fn enter(&mut self, alloc: Global) -> Result<(), Fail> {
        let Some(head) = self.last.take() else {
            return Err("nothing before a set")?;
        };
        let before = std::mem::replace(&mut self.nodes, Nodes::new(alloc));
        let around = std::mem::replace(&mut self.around, head.inside);
        self.levels.push(Level {
            node: head.node,
            before,
            around,
        })?;
        Ok(())
    }

    /// Goes out of a set.
    fn leave(&mut self) -> Result<(), Fail> {
        self.close_node()?;
        let Some(level) = self.levels.pop() else {
            return Err("no set to close")?;
        };
        let inside = std::mem::replace(&mut self.nodes, level.before);
        let around = std::mem::replace(&mut self.around, level.around);
        self.last = Some(Head {
            node: fill(level.node, inside),
            inside: around,
        });
        Ok(())
    }

    /// Reads a word that is no brace.
    fn read(&mut self, alloc: Global, schema: &Schema, word: &str) -> Result<(), Fail> {
        self.close_node()?;
        if let Some(number) = word.strip_prefix('#') {
            let next = number.parse::<u32>()?;
            self.count = next.saturating_sub(1);
            return Ok(());
        }
        self.count = self.count.saturating_add(1);
        let head = read_head(alloc, schema, self.around.as_str(), self.count, word)?;
        self.last = Some(head);
        Ok(())
    }
}

/// The nodes of a text on a type.
fn nodes(alloc: Global, schema: &Schema, around: &str, text: &str) -> Result<Nodes, Fail> {
    let mut walk = Walk {
        levels: Vec::new(alloc),
        around: Name::new(alloc, around)?,
        nodes: Nodes::new(alloc),
        last: None,
        count: 0,
    };
    for word in text.split(' ') {
        match word {
            "{" => walk.enter(alloc)?,
            "}" => walk.leave()?,
            _ => walk.read(alloc, schema, word)?,
        }
    }
    walk.close_node()?;
    Ok(walk.nodes)
}

/// The variables of a text; none where it is empty.
fn variables(alloc: Global, text: &str) -> Result<VariableDefs, Fail> {
    if text.is_empty() {
        return Ok(VariableDefs::new(alloc));
    }
    let text = format!(in alloc; "query({text}){{x}}")?;
    Ok(operation(alloc, text.as_str())?.variables)
}

/// A fragment on a type, or an operation with variables.
fn expand(alloc: Global, schema: &Schema, head: &str, text: &str) -> Result<Expanded, Fail> {
    let (kind, root, defined) = match head.strip_prefix("on ") {
        Some(root) => (None, root, ""),
        None => (Some(Kind::Query), "Query", head),
    };
    Ok(Expanded {
        kind,
        name: Name::new(alloc, "Q")?,
        root: Name::new(alloc, root)?,
        variables: variables(alloc, defined)?,
        directives: Directives::new(alloc),
        selections: nodes(alloc, schema, root, text)?,
    })
}

/// The rule that a tree does not meet, and the column; `ok` where it meets both.
fn answer(alloc: Global, schema: &Schema, head: &str, text: &str) -> Result<String, Fail> {
    let expanded = expand(alloc, schema, head, text)?;
    match check_merge(alloc, schema, &expanded) {
        Ok(()) => Ok(format!(in alloc; "ok")?),
        Err(MergeFault::Rule(fault)) => {
            Ok(format!(in alloc; "{:?} {}", fault.rule, fault.place.column)?)
        }
        Err(MergeFault::NoMemory) => Ok(format!(in alloc; "no memory")?),
    }
}

/// Compares the answer to each row with what the row says. A row is the answer, a fragment's type as
/// `on I` or an operation's variables, and the tree, between `|`.
pub(crate) fn compare(rt: &impl Abort, alloc: Global, rows: &str) -> Result<(), Fail> {
    let schema = schema(alloc)?;
    for row in rows.lines() {
        if let Some((wanted, rest)) = row.split_once('|') {
            if let Some((head, text)) = rest.split_once('|') {
                let found = answer(alloc, &schema, head, text)?;
                assert_eq!(rt; found.as_str(), wanted, "at {row}");
            }
        }
    }
    Ok(())
}
