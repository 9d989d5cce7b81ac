//! The update commands (this project's own).
ghost use Rattle.std.specs.Prelude.{◌≡◌, ◌==◌, [], ◌∷◌, ◌++◌, length, IfOk, OnOk, OnErr};

use std::alloc::Global;
use std::marker::Model;
use store_record::gql_plain::{Id, Name, NoMemory, OptIds, Pairs, Plain, Words};

/// An edge that is put into a connection, or the node whose edges are taken out of one. `key` and
/// `filters` name the connection under the record `id`; where edges are taken out `edge_type` is empty
/// and `cursor` is null.
#[derive(Drop)]
pub struct EdgeEdit {
    pub id: Id,
    pub key: Name,
    pub filters: Pairs,
    pub node: Id,
    pub edge_type: Words,
    pub cursor: Plain,
}

impl EdgeEdit {
    /// An equal edit.
    pub fn copy(&self) -> Result<EdgeEdit, NoMemory>
        ensures { IfOk result (λ edit. edit ≡ self.now) }
    {
        let id = self.id.copy()?;
        let key = self.key.copy()?;
        let filters = self.filters.copy()?;
        let node = self.node.copy()?;
        let edge_type = self.edge_type.copy()?;
        let cursor = self.cursor.copy()?;
        Ok(EdgeEdit {
            id,
            key,
            filters,
            node,
            edge_type,
            cursor,
        })
    }
}

/// A change of the records.
#[derive(Drop)]
pub enum Command {
    /// The field becomes a value.
    Set {
        id: Id,
        field: Name,
        args: Pairs,
        value: Plain,
    },
    /// A whole number there becomes the sum, where that is within 64 bits.
    Add {
        id: Id,
        field: Name,
        args: Pairs,
        by: i64,
    },
    /// The field becomes a link, or null.
    Link {
        id: Id,
        field: Name,
        args: Pairs,
        to: Option<Id>,
    },
    /// The field becomes a list of links and nulls.
    Links {
        id: Id,
        field: Name,
        args: Pairs,
        to: OptIds,
    },
    /// An absent or deleted record becomes a live one without fields.
    Create {
        id: Id,
        of: Words,
    },
    /// A live record becomes deleted.
    Delete {
        id: Id,
    },
    /// An edge goes last.
    AppendNode(EdgeEdit),
    /// An edge goes first.
    PrependNode(EdgeEdit),
    /// The edges of a node are taken out.
    DeleteEdge(EdgeEdit),
}

impl Command {
    /// An equal command.
    pub fn copy(&self) -> Result<Command, NoMemory>
        ensures { IfOk result (λ command. command ≡ self.now) }
    {
        match self {
            Command::Set {
                id,
                field,
                args,
                value,
            } => Ok(Command::Set {
                id: id.copy()?,
                field: field.copy()?,
                args: args.copy()?,
                value: value.copy()?,
            }),
            Command::Add {
                id,
                field,
                args,
                by,
            } => Ok(Command::Add {
                id: id.copy()?,
                field: field.copy()?,
                args: args.copy()?,
                by: *by,
            }),
            Command::Link {
                id,
                field,
                args,
                to,
            } => Ok(Command::Link {
                id: id.copy()?,
                field: field.copy()?,
                args: args.copy()?,
                to: copy_of(to)?,
            }),
            Command::Links {
                id,
                field,
                args,
                to,
            } => Ok(Command::Links {
                id: id.copy()?,
                field: field.copy()?,
                args: args.copy()?,
                to: to.copy()?,
            }),
            Command::Create { id, of } => Ok(Command::Create {
                id: id.copy()?,
                of: of.copy()?,
            }),
            Command::Delete { id } => Ok(Command::Delete { id: id.copy()? }),
            Command::AppendNode(edit) => Ok(Command::AppendNode(edit.copy()?)),
            Command::PrependNode(edit) => Ok(Command::PrependNode(edit.copy()?)),
            Command::DeleteEdge(edit) => Ok(Command::DeleteEdge(edit.copy()?)),
        }
    }
}

/// An equal id, where there is one.
fn copy_of(id: &Option<Id>) -> Result<Option<Id>, NoMemory>
    ensures { IfOk result (λ copy. copy ≡ id.now) }
{
    match id {
        Some(id) => Ok(Some(id.copy()?)),
        None => Ok(None),
    }
}

/// Commands in their order, seen as a list.
pub struct Commands {
    pub items: Vec<Command>,
}

impl Drop for Commands {
    fn drop(self) {
        let Commands { items } = self;
        drop(items);
    }
}

impl Model for Commands {
    ghost use Rattle.std.specs.Prelude.{List};
    ghost use Rattle.std.specs.Coded.{coded_list};
    ghost use Rattle.store_model.specs.declared.command.Command.{Command};
    ghost use Rattle.store_model.specs.contracts.command.Command as command;

    ghost Value = { List Command };

    ghost coded = { coded_list command.the_row.coded };

    ghost view = { λ a. a.items.items };
}

impl Commands {
    /// No command; takes no memory.
    pub fn new(alloc: Global) -> Commands
        ensures { result ≡ [] }
    {
        Commands {
            items: Vec::new(alloc),
        }
    }

    /// Puts a command to the end.
    pub fn push(&mut self, command: Command) -> Result<(), NoMemory>
        ensures ok { OnOk result (self.new ≡ self.old ++ command ∷ []) }
        ensures err { OnErr result (self.new ≡ self.old) }
    {
        self.items.push(command)?;
        Ok(())
    }

    /// How many commands; takes no memory.
    pub fn len(&self) -> usize
        ensures { result ≡ length self.now }
    {
        self.items.len()
    }

    /// Whether there is none; takes no memory.
    pub fn is_empty(&self) -> bool
        ensures { result ≡ (length self.now == 0) }
    {
        self.items.is_empty()
    }

    /// The commands; takes no memory.
    pub fn as_slice(&self) -> &[Command]
        ensures { result.now ≡ self.now }
    {
        self.items.as_slice()
    }

    /// An equal list.
    pub fn copy(&self) -> Result<Commands, NoMemory>
        ensures { IfOk result (λ copy. copy ≡ self.now) }
    {
        let mut items = Vec::new(*self.items.allocator());
        'items: for command in &self.items {
            items.push(command.copy()?)?;
        }
        Ok(Commands { items })
    }
}
