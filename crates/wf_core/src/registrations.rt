//! Registrations of tasks and of workflows.

ghost use Rattle.std.specs.Prelude.{◌≡◌, ◌+◌, ◌∷◌, [], IfOk};
ghost use Rattle.wf_steps.specs.Calls.{drop_flow_def, drop_task_def, put_flow_defs, put_task_defs, register, update_task_def};
ghost use Rattle.wf_machine.specs.Queues.{with_hand};
ghost use Rattle.wf_machine.specs.Records.{IsMoment};
ghost use Rattle.wf_core.specs.Changes.{HasRoomFor, IsPrepared, hand_noted};
ghost use Rattle.wf_core.specs.Store.{Store, book_of};

use crate::change::{Change, Touched};
use crate::no_memory::NoMemory;
use crate::steps::Core;
use std::alloc::Global;
use wf_doc::{Items, Text};
use wf_kept::{flow_def_of, task_def_of};
use wf_machine::{FlowDef, Reply, TaskDef};
use wf_names::Refusal;

impl Core {
    pub(crate) fn prepare_tasks(
        &mut self,
        alloc: Global,
        moment: u64,
        defs: Items<TaskDef>,
    ) -> Result<Change, NoMemory>
        requires moment { IsMoment moment }
        ensures state { self.new.state ≡ self.old.state }
        ensures limits { self.new.limits ≡ self.old.limits }
        ensures entries { self.new.entries ≡ self.old.entries }
        ensures ok { IfOk result (IsPrepared (put_task_defs (self.old.entries + 1) moment defs self.old.state) self.old self.new) }
    {
        if defs.is_empty() {
            return Ok(Change::none(Reply::Accepted));
        }
        let defs = in_vec(alloc, defs)?;
        self.task_defs.reserve(defs.len())?;
        Ok(Change {
            moment,
            touched: Touched::TaskDefs(defs),
            reply: Reply::Accepted,
        })
    }

    #[tactic(auto, unfolding(wf_steps::specs::Calls::update_task_def))]
    pub(crate) fn prepare_task_update(
        &mut self,
        alloc: Global,
        moment: u64,
        def: TaskDef,
    ) -> Result<Change, NoMemory>
        requires moment { IsMoment moment }
        ensures state { self.new.state ≡ self.old.state }
        ensures limits { self.new.limits ≡ self.old.limits }
        ensures entries { self.new.entries ≡ self.old.entries }
        ensures ok { IfOk result (IsPrepared (update_task_def (self.old.entries + 1) moment def self.old.state) self.old self.new) }
    {
        if task_def_of(self.task_defs.as_slice(), def.name.as_str()).is_none() {
            return Ok(Change::none(Reply::Refused(Refusal::NotFound)));
        }
        let defs = alone(alloc, def)?;
        self.task_defs.reserve(1)?;
        Ok(Change {
            moment,
            touched: Touched::TaskDefs(defs),
            reply: Reply::Accepted,
        })
    }

    #[tactic(auto, unfolding(wf_steps::specs::Calls::drop_task_def))]
    pub(crate) fn prepare_task_drop(&mut self, moment: u64, name: Text) -> Change
        requires moment { IsMoment moment }
        ensures state { self.new.state ≡ self.old.state }
        ensures limits { self.new.limits ≡ self.old.limits }
        ensures entries { self.new.entries ≡ self.old.entries }
        ensures change { IsPrepared (drop_task_def (self.old.entries + 1) moment name self.old.state) self.old self.new result }
    {
        if task_def_of(self.task_defs.as_slice(), name.as_str()).is_none() {
            return Change::none(Reply::Refused(Refusal::NotFound));
        }
        Change {
            moment,
            touched: Touched::NoTaskDef(name),
            reply: Reply::Accepted,
        }
    }

    #[tactic(auto, unfolding(wf_steps::specs::Calls::register))]
    pub(crate) fn prepare_register(
        &mut self,
        alloc: Global,
        moment: u64,
        def: FlowDef,
    ) -> Result<Change, NoMemory>
        requires moment { IsMoment moment }
        ensures state { self.new.state ≡ self.old.state }
        ensures limits { self.new.limits ≡ self.old.limits }
        ensures entries { self.new.entries ≡ self.old.entries }
        ensures ok { IfOk result (IsPrepared (register (self.old.entries + 1) moment def self.old.state) self.old self.new) }
    {
        if flow_def_of(self.flow_defs.as_slice(), def.name.as_str(), def.version).is_some() {
            return Ok(Change::none(Reply::Refused(Refusal::Exists)));
        }
        let defs = alone(alloc, def)?;
        self.flow_defs.reserve(1)?;
        Ok(Change {
            moment,
            touched: Touched::FlowDefs(defs),
            reply: Reply::Accepted,
        })
    }

    pub(crate) fn prepare_flow_defs_put(
        &mut self,
        alloc: Global,
        moment: u64,
        defs: Items<FlowDef>,
    ) -> Result<Change, NoMemory>
        requires moment { IsMoment moment }
        ensures state { self.new.state ≡ self.old.state }
        ensures limits { self.new.limits ≡ self.old.limits }
        ensures entries { self.new.entries ≡ self.old.entries }
        ensures ok { IfOk result (IsPrepared (put_flow_defs (self.old.entries + 1) moment defs self.old.state) self.old self.new) }
    {
        if defs.is_empty() {
            return Ok(Change::none(Reply::Accepted));
        }
        let defs = in_vec(alloc, defs)?;
        self.flow_defs.reserve(defs.len())?;
        Ok(Change {
            moment,
            touched: Touched::FlowDefs(defs),
            reply: Reply::Accepted,
        })
    }

    #[tactic(auto, unfolding(wf_steps::specs::Calls::drop_flow_def))]
    pub(crate) fn prepare_flow_drop(&mut self, moment: u64, name: Text, version: u32) -> Change
        requires moment { IsMoment moment }
        ensures state { self.new.state ≡ self.old.state }
        ensures limits { self.new.limits ≡ self.old.limits }
        ensures entries { self.new.entries ≡ self.old.entries }
        ensures change { IsPrepared (drop_flow_def (self.old.entries + 1) moment name version self.old.state) self.old self.new result }
    {
        if flow_def_of(self.flow_defs.as_slice(), name.as_str(), version).is_none() {
            return Change::none(Reply::Refused(Refusal::NotFound));
        }
        Change {
            moment,
            touched: Touched::NoFlowDef(name, version),
            reply: Reply::Accepted,
        }
    }

    /// Notes a hand-out of the name, where one is given.
    pub(crate) fn note_hand(&mut self, hand: Option<Text>, moment: u64)
        requires room { HasRoomFor hand (book_of self.old) }
        ensures state { self.new.state ≡ record self.old.state { hands = hand_noted hand moment self.old.state.hands } }
        ensures limits { self.new.limits ≡ self.old.limits }
        ensures entries { self.new.entries ≡ self.old.entries }
    {
        if let Some(name) = hand {
            self.hands.note(name.as_str(), moment);
        }
    }
}

/// The same definitions in a list that can be taken apart from the front.
fn in_vec<T: Drop>(alloc: Global, mut defs: Items<T>) -> Result<Vec<T>, NoMemory>
    ensures { IfOk result (λ list. list.items ≡ defs) }
{
    let mut list = Vec::with_capacity(alloc, defs.len())?;
    while let Some(def) = defs.pop() {
        list.push(def)?;
    }
    list.reverse();
    Ok(list)
}

/// The definition alone in a list.
fn alone<T: Drop>(alloc: Global, def: T) -> Result<Vec<T>, NoMemory>
    ensures { IfOk result (λ list. list.items ≡ def ∷ []) }
{
    let mut list = Vec::new(alloc);
    list.push(def)?;
    Ok(list)
}
