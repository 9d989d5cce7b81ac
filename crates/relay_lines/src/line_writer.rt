//! The text of one line, written a member at a time.
ghost use Rattle.std.specs.Prelude.{◌≡◌, ◌≤◌, ◌+◌, ◌∷◌, ◌++◌, [], map, IfOk, OnOk};
ghost use Rattle.plan_ir.specs.gql_plain.Shown.{tree_of};
ghost use Rattle.plan_ir.specs.gql_plain.Tree.{truth, text, list, trees_of};
ghost use Rattle.json.specs.Print.{print};
ghost use Rattle.json.specs.Token.{begin_object, end_object};
ghost use Rattle.plan_ir.specs.ReaderMeaning.{plan_reads};
ghost use Rattle.store_show.specs.plan_order.Ordered.{IsOrdered};
ghost use Rattle.relay_lines.specs.Members.{member_tokens};
ghost use Rattle.relay_machine.specs.Printed.{number};
ghost use Rattle.relay_machine.specs.Refusals.{shown_field, shown_step};
ghost use Rattle.plan_ir.specs.store_model.Walks.{reading, standings, type_of_record};
ghost use Rattle.store_show.specs.store_read.Reading.{slots};

use crate::values::{write_borrowed, write_field, write_path, write_texts};
use json::Writer;
use plan_ir::{Env, Field, Id, Ids, NoMemory, PathSteps, Plain, ReaderPlan, Words, write_plain};
use std::alloc::Global;
use std::marker::Model;
use store_show::{RecordSource, Seen, show};

/// The bytes that a line has room for at first: most lines need no more.
const FIRST_ROOM: usize = 128;

/// An object that is being written, seen as its tokens. Members are put in byte order of their keys.
#[derive(Drop)]
pub(crate) struct LineWriter {
    out: Writer,
}

impl Model for LineWriter {
    ghost use Rattle.std.specs.Prelude.{◌≡◌, List, []};
    ghost use Rattle.json.specs.Token.{Token, tokens_code};

    ghost Value = { List Token };

    ghost coded = { tokens_code };

    ghost view = { λ a. a.out.tokens };

    ghost invariant = { λ a. a.out.before ≡ [] };
}

impl LineWriter {
    /// An object without a member so far.
    pub(crate) fn new(alloc: Global) -> Result<LineWriter, NoMemory>
        ensures { IfOk result (λ line. line ≡ begin_object ∷ []) }
    {
        let mut out = Writer::new(Vec::with_capacity(alloc, FIRST_ROOM)?);
        out.begin_object()?;
        Ok(LineWriter { out })
    }

    /// Puts a text.
    pub(crate) fn put_text(&mut self, key: &str, value: &str) -> Result<(), NoMemory>
        ensures { OnOk result (self.new ≡ self.old ++ member_tokens key.now (text value.now)) }
    {
        self.out.key(key)?;
        self.out.string(value)?;
        Ok(())
    }

    /// Puts a number.
    pub(crate) fn put_number(&mut self, key: &str, value: u64) -> Result<(), NoMemory>
        ensures { OnOk result (self.new ≡ self.old ++ member_tokens key.now (number value)) }
    {
        self.out.key(key)?;
        self.out.u64(value)?;
        Ok(())
    }

    /// Puts a truth value.
    pub(crate) fn put_truth(&mut self, key: &str, value: bool) -> Result<(), NoMemory>
        ensures { OnOk result (self.new ≡ self.old ++ member_tokens key.now (truth value)) }
    {
        self.out.key(key)?;
        self.out.boolean(value)?;
        Ok(())
    }

    /// Puts a plain tree.
    pub(crate) fn put_plain(&mut self, key: &str, value: &Plain) -> Result<(), NoMemory>
        ensures { OnOk result (self.new ≡ self.old ++ member_tokens key.now (tree_of value.now)) }
    {
        self.out.key(key)?;
        write_plain(&mut self.out, value)
    }

    /// Puts a list of texts.
    pub(crate) fn put_texts(&mut self, key: &str, texts: &Ids) -> Result<(), NoMemory>
        ensures { OnOk result
            (self.new ≡ self.old ++ member_tokens key.now (list (trees_of (map text texts.now)))) }
    {
        self.out.key(key)?;
        write_texts(&mut self.out, texts.as_slice())
    }

    /// Puts a list of borrowed texts.
    pub(crate) fn put_borrowed(&mut self, key: &str, texts: &[&str]) -> Result<(), NoMemory>
        ensures { OnOk result
            (self.new ≡ self.old ++ member_tokens key.now (list (trees_of (map (λ t. text t.now) texts.now)))) }
    {
        self.out.key(key)?;
        write_borrowed(&mut self.out, texts)
    }

    /// Puts what a plan that is in order shows of the record at an id, as it is read.
    pub(crate) fn put_read<'p, S: RecordSource>(
        &mut self,
        alloc: Global,
        key: &str,
        source: &'p S,
        plan: &'p ReaderPlan,
        types: &Ids,
        env: &'p Env,
        id: &'p Id,
        owner: &'p Words,
        steps: &mut S::Count,
    ) -> Result<Seen<'p>, NoMemory>
        requires { IsOrdered plan.now.steps }
        ensures shown { IfOk result (λ _. self.new ≡ self.old ++ member_tokens key.now (reading (plan_reads (type_of_record env.now.root) owner.now (slots (S.records source.now)) env.now.values plan.now.steps types.now id.now)).value) }
        ensures missing { IfOk result (λ met. met.missing ≡ (reading (plan_reads (type_of_record env.now.root) owner.now (slots (S.records source.now)) env.now.values plan.now.steps types.now id.now)).missing) }
        ensures seen { IfOk result (λ met. map (λ id. id.now) met.ids.items ≡ (reading (plan_reads (type_of_record env.now.root) owner.now (slots (S.records source.now)) env.now.values plan.now.steps types.now id.now)).seen) }
        ensures looks { S.Count.looks steps.new ≤ S.Count.looks steps.old + standings (plan_reads (type_of_record env.now.root) owner.now (slots (S.records source.now)) env.now.values plan.now.steps types.now id.now) }
        ensures applies { S.Count.applies steps.new ≡ S.Count.applies steps.old }
    {
        self.out.key(key)?;
        show(
            alloc,
            source,
            plan,
            types,
            env,
            id,
            owner,
            &mut self.out,
            steps,
        )
    }

    /// Puts the steps of a path.
    pub(crate) fn put_path(&mut self, key: &str, path: &PathSteps) -> Result<(), NoMemory>
        ensures { OnOk result
            (self.new ≡ self.old ++ member_tokens key.now (list (trees_of (map shown_step path.now)))) }
    {
        self.out.key(key)?;
        write_path(&mut self.out, path.as_slice())
    }

    /// Puts a field.
    pub(crate) fn put_field(&mut self, key: &str, field: &Field) -> Result<(), NoMemory>
        ensures { OnOk result (self.new ≡ self.old ++ member_tokens key.now (shown_field field.now)) }
    {
        self.out.key(key)?;
        write_field(&mut self.out, field)
    }

    /// The text of the whole object.
    pub(crate) fn finish(self) -> Result<Words, NoMemory>
        ensures { IfOk result (λ words. words ≡ print (self ++ end_object ∷ [])) }
    {
        let LineWriter { mut out } = self;
        out.end_object()?;
        // Safety: a writer's text is UTF-8, as its contract says.
        let text = unsafe { String::from_utf8_unchecked(out.into_inner()) };
        Ok(Words::from_string(text))
    }
}
