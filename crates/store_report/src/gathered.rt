//! What is gathered of a response.
ghost use Rattle.std.specs.Prelude.{◌≡◌, ◌<◌, [], ◌∷◌, ◌++◌, length, option_copied, option_map, Some, IfOk, OnOk};
ghost use Rattle.gql_order.specs.gql_plain.declared.plain.Plain.TheVariants.{Text as Words};
ghost use Rattle.store_model.specs.Records.{typename};
ghost use Rattle.store_model.specs.Says.{put_at, fault_at, report_pages};
ghost use Rattle.store_model.specs.Verdicts.{fault_cmp};
ghost use Rattle.store_model.specs.declared.payload_fault.PathStep.TheVariants.{Key};
ghost use Rattle.store_model.specs.store_record.declared.field.Field.TheVariants.{Leaf};
ghost use Rattle.store_report.specs.Gathering.{nothing, gathered_onto, lesser_some, with_value};
ghost use Rattle.store_report.specs.SaidFacts.{fault_of, path_to, put_of};

use crate::path::Path;
use crate::said::{SaidFact, SaidFault};
use gql_order::gql_plain::{Name, NoMemory, Plain, SharedText, Words as Text};
use std::alloc::Global;
use std::marker::Model;
use store_model::store_record::Field;
use store_model::{Cause, HandleFact};

/// What is gathered of a response while it is walked: facts, each with the path where it is said, the
/// pages of connections, and the least fault so far. Texts of the response are borrowed.
#[derive(Drop)]
pub struct Gathered<'r> {
    pub(crate) facts: Vec<SaidFact<'r>>,
    pub(crate) pages: Vec<HandleFact>,
    pub(crate) fault: Option<SaidFault<'r>>,
    /// The key of the name of a type.
    pub(crate) type_key: SharedText,
}

impl<'r> Model for Gathered<'r> {
    ghost use Rattle.std.specs.Prelude.{◌≡◌, map, option_map};
    ghost use Rattle.store_report.specs.Gathering.{Gathering};

    ghost Value = { Gathering };

    ghost use Rattle.store_report.specs.Codes.{gathering_code};
    ghost use Rattle.store_model.specs.contracts.facts.Fact as fact;
    ghost use Rattle.store_model.specs.contracts.facts.HandleFact as handle;
    ghost use Rattle.store_model.specs.contracts.payload_fault.PathStep as step;
    ghost use Rattle.store_model.specs.contracts.payload_fault.PayloadFault as refused;

    ghost coded = { gathering_code fact.the_row.coded step.the_row.coded handle.the_row.coded refused.the_row.coded };

    ghost use Rattle.store_model.specs.Records.{typename};
    ghost use Rattle.store_report.specs.SaidFacts.{put_of, fault_of};

    ghost view = { λ g. record { puts = map put_of g.facts.items; pages = g.pages.items; fault = option_map fault_of g.fault } };

    ghost invariant = { λ g. g.type_key ≡ typename };
}

impl<'r> Gathered<'r> {
    /// Nothing yet.
    pub fn new(alloc: Global) -> Result<Gathered<'r>, NoMemory>
        ensures { IfOk result (λ gathered. gathered ≡ nothing) }
    {
        let type_key = SharedText::new(alloc, Text::new(alloc, "__typename")?)?;
        Ok(Gathered {
            facts: Vec::new(alloc),
            pages: Vec::new(alloc),
            fault: None,
            type_key,
        })
    }

    /// Puts the name of the type of a record, said at a path.
    pub fn name(&mut self, id: &SharedText, name: Name, path: &Path<'r>) -> Result<(), NoMemory>
        ensures { OnOk result (self.new ≡ gathered_onto self.old (put_at id.now typename (Leaf (Words name)) path.now)) }
    {
        let value = Field::Leaf(Plain::Text(name));
        let fact = said(id, &self.type_key, value, path, None)?;
        self.facts.push(fact)?;
        Ok(())
    }

    /// Puts a field of a record, and answers its place among the facts. It is said under a response key
    /// of the object at a path.
    pub fn field(
        &mut self,
        id: &SharedText,
        key: &SharedText,
        value: Field,
        path: &Path<'r>,
        response: &'r str,
    ) -> Result<usize, NoMemory>
        ensures place { IfOk result (λ at. at ≡ length self.old.puts) }
        ensures put { OnOk result (self.new ≡ gathered_onto self.old (put_at id.now key.now value (path.now ++ Key response.now ∷ []))) }
    {
        let fact = said(id, key, value, path, Some(response))?;
        let at = self.facts.len();
        self.facts.push(fact)?;
        Ok(at)
    }

    /// Sets the value of the fact at a place; takes no memory.
    pub fn set(&mut self, at: usize, value: Field)
        requires { at < length self.old.puts }
        ensures { self.new ≡ with_value at value self.old }
    {
        self.facts[at].value = value;
    }

    /// Puts a page of a connection.
    pub fn page(&mut self, page: HandleFact) -> Result<(), NoMemory>
        ensures { OnOk result (self.new ≡ gathered_onto self.old (report_pages (page ∷ []))) }
    {
        self.pages.push(page)?;
        Ok(())
    }

    /// Notes a fault at a path.
    pub fn fault(&mut self, path: &Path<'r>, cause: Cause) -> Result<(), NoMemory>
        ensures { OnOk result (self.new ≡ gathered_onto self.old (fault_at path.now cause)) }
    {
        let fault = SaidFault {
            path: path.copy()?,
            cause,
        };
        let first = self.fault.take();
        self.fault = Some(lesser(first, fault));
        Ok(())
    }
}

/// A fact of an object that stands at a path, said there or under a response key of the object.
fn said<'r>(
    id: &SharedText,
    key: &SharedText,
    value: Field,
    path: &Path<'r>,
    response: Option<&'r str>,
) -> Result<SaidFact<'r>, NoMemory>
    ensures { IfOk result (λ fact. put_of fact ≡ record { fact = record { id = id.now; key = key.now; value = value }; path = path_to path.now (option_copied response.entry) }) }
{
    let id = id.copy()?;
    let key = key.copy()?;
    let path = path.copy()?;
    Ok(SaidFact {
        id,
        key,
        value,
        path,
        response,
    })
}

/// The fault that comes first, the first one of two that tie.
pub(crate) fn lesser<'r>(first: Option<SaidFault<'r>>, fault: SaidFault<'r>) -> SaidFault<'r>
    ensures { Some (fault_of result) ≡ lesser_some fault_cmp (option_map fault_of first.entry) (Some (fault_of fault.entry)) }
{
    match first {
        Some(first) => {
            if fault.is_before(&first) {
                fault
            } else {
                first
            }
        }
        None => fault,
    }
}
