//! The facts of a response by rows.
ghost use Rattle.std.specs.Prelude.{◌≡◌, [], ◌∷◌, ◌++◌, IfErr, IfOk, OnOk};
ghost use Rattle.store_model.specs.Said.{HaveHandleKeys};
ghost use Rattle.store_model.specs.Says.{Report, fault_at, report_pages};
ghost use Rattle.store_model.specs.Verdicts.{content, verdict};
ghost use Rattle.store_report.specs.ObjectRows.{Adds, HaveTypeNames, HoldSame, IsUntaken, nothing_held, object_facts, with_fault, with_page};

use crate::gathered::lesser;
use crate::joining::joined;
use crate::object_row::{BegunRow, ObjectRow, object_row};
use crate::pages::in_order;
use crate::said::SaidFault;
use crate::trail::Trail;
use crate::untaken::Untaken;
use gql_order::gql_plain::{Id, Name, NoMemory};
use std::alloc::Global;
use std::marker::Model;
use store_model::store_record::SharedField;
use store_model::{Cause, FactList, FactRow, Facts, HandleFact};

/// What a response says: a row each time that an object is met, the pages of connections, and the least
/// fault so far. Where facts are said is not kept.
#[derive(Drop)]
pub struct ObjectRows<'r> {
    rows: Vec<FactRow>,
    /// Rows that can be no part of facts.
    torn: Vec<BegunRow>,
    pages: Vec<HandleFact>,
    fault: Option<SaidFault<'r>>,
}

impl<'r> Model for ObjectRows<'r> {
    ghost use Rattle.store_report.specs.ObjectRows.{Held};

    ghost Value = { Held };

    ghost use Rattle.store_report.specs.Codes.{held_code};
    ghost use Rattle.store_model.specs.contracts.facts.Fact as fact;
    ghost use Rattle.store_model.specs.contracts.facts.HandleFact as handle;
    ghost use Rattle.store_model.specs.contracts.payload_fault.PayloadFault as refused;

    ghost coded = { held_code fact.the_row.coded handle.the_row.coded refused.the_row.coded };

    ghost use Rattle.std.specs.Prelude.{◌++◌, option_map};
    ghost use Rattle.store_model.specs.FactRows.{facts_of};
    ghost use Rattle.store_report.specs.Joining.{torn_facts};
    ghost use Rattle.store_report.specs.SaidFacts.{fault_of};

    ghost view = { λ a. record { facts = facts_of a.rows.items ++ torn_facts a.torn.items; handles = a.pages.items; fault = option_map fault_of a.fault } };

    ghost use Rattle.std.specs.List.{AllByRecursion};
    ghost use Rattle.store_report.specs.Joining.{IsTorn};
    ghost use Rattle.store_report.specs.ObjectRows.{IsWhole};

    ghost invariant = { λ a. (AllByRecursion IsWhole a.rows.items) × (AllByRecursion IsTorn a.torn.items) };
}

impl<'r> ObjectRows<'r> {
    /// Nothing yet; takes no memory.
    pub fn new(alloc: Global) -> ObjectRows<'r>
        ensures { result ≡ nothing_held }
    {
        ObjectRows {
            rows: Vec::new(alloc),
            torn: Vec::new(alloc),
            pages: Vec::new(alloc),
            fault: None,
        }
    }

    /// Puts the row of an object: its id, the name of its type, and its fields, in any order of their
    /// keys.
    pub fn push(
        &mut self,
        id: Id,
        type_name: Name,
        fields: Vec<SharedField>,
    ) -> Result<(), NoMemory>
        ensures facts { OnOk result (HoldSame self.new.facts (self.old.facts ++ object_facts id type_name fields.items)) }
        ensures pages { OnOk result (self.new.handles ≡ self.old.handles) }
        ensures fault { OnOk result (self.new.fault ≡ self.old.fault) }
    {
        match object_row(id, type_name, fields)? {
            ObjectRow::Whole(row) => self.rows.push(row)?,
            ObjectRow::Torn(row) => self.torn.push(row)?,
        }
        Ok(())
    }

    /// Puts a page of a connection.
    pub fn page(&mut self, page: HandleFact) -> Result<(), NoMemory>
        ensures held { OnOk result (self.new ≡ with_page page self.old) }
        ensures said { OnOk result (Adds self.old self.new (report_pages (page ∷ []))) }
    {
        self.pages.push(page)?;
        Ok(())
    }

    /// Notes a fault, which is at the end of a trail.
    pub fn fault(
        &mut self,
        alloc: Global,
        trail: &Trail<'_, 'r>,
        cause: Cause,
    ) -> Result<(), NoMemory>
        ensures held { OnOk result (self.new ≡ with_fault (record { path = trail.now; cause = cause }) self.old) }
        ensures said { OnOk result (Adds self.old self.new (fault_at trail.now cause)) }
    {
        let path = trail.path(alloc)?;
        let first = self.fault.take();
        self.fault = Some(lesser(first, SaidFault { path, cause }));
        Ok(())
    }

    /// The facts, which are what is said by each report that is held. Err: the least fault that is held;
    /// where there is none, that an id has two types, or a field of a record two values.
    pub fn into_facts(self, alloc: Global) -> Result<Facts, Untaken>
        requires keys { HaveHandleKeys self.handles }
        requires named { HaveTypeNames self.facts }
        ensures facts { IfOk result (λ facts. (r : Report) → Adds nothing_held self.entry r → verdict r ≡ content facts) }
        ensures untaken { IfErr result (λ refused. (r : Report) → Adds nothing_held self.entry r → IsUntaken r refused) }
    {
        let ObjectRows {
            rows,
            torn,
            pages,
            fault,
        } = self;
        if let Some(fault) = fault {
            return match fault.into_owned(alloc) {
                Ok(fault) => Err(Untaken::Fault(fault)),
                Err(_) => Err(Untaken::NoMemory),
            };
        }
        if !torn.is_empty() {
            return Err(Untaken::Clash);
        }
        let rows = joined(alloc, rows)?;
        let handles = in_order(pages)?;
        Ok(Facts {
            facts: FactList { rows },
            handles,
        })
    }
}
