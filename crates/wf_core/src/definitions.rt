//! Reads of what is registered.

ghost use Rattle.std.specs.Prelude.{◌≡◌, IfOk, map};
ghost use Rattle.wf_steps.specs.Calls.{get_flow_def, get_flow_defs, get_task_def, get_task_defs};
ghost use Rattle.wf_core.specs.Changes.{IsPrepared};

use crate::change::Change;
use crate::no_memory::NoMemory;
use crate::steps::Core;
use std::alloc::Global;
use wf_doc::{Doc, Items, Text, copy};
use wf_kept::{find_flow_def, task_def_of};
use wf_machine::{FlowDef, Reply, TaskDef};
use wf_names::Refusal;

impl Core {
    pub(crate) fn prepare_task_defs(&mut self, alloc: Global) -> Result<Change, NoMemory>
        ensures state { self.new.state ≡ self.old.state }
        ensures limits { self.new.limits ≡ self.old.limits }
        ensures entries { self.new.entries ≡ self.old.entries }
        ensures ok { IfOk result (IsPrepared (get_task_defs self.old.state) self.old self.new) }
    {
        let docs = task_documents(alloc, self.task_defs.as_slice())?;
        Ok(Change::none(Reply::Json(Doc::List(docs))))
    }

    #[tactic(auto, unfolding(wf_steps::specs::Calls::get_task_def))]
    pub(crate) fn prepare_task_def(
        &mut self,
        alloc: Global,
        name: &Text,
    ) -> Result<Change, NoMemory>
        ensures state { self.new.state ≡ self.old.state }
        ensures limits { self.new.limits ≡ self.old.limits }
        ensures entries { self.new.entries ≡ self.old.entries }
        ensures ok { IfOk result (IsPrepared (get_task_def name.now self.old.state) self.old self.new) }
    {
        match task_def_of(self.task_defs.as_slice(), name.as_str()) {
            None => Ok(Change::none(Reply::Refused(Refusal::NotFound))),
            Some(def) => Ok(Change::none(Reply::Json(copy(alloc, &def.document)?))),
        }
    }

    pub(crate) fn prepare_flow_defs(&mut self, alloc: Global) -> Result<Change, NoMemory>
        ensures state { self.new.state ≡ self.old.state }
        ensures limits { self.new.limits ≡ self.old.limits }
        ensures entries { self.new.entries ≡ self.old.entries }
        ensures ok { IfOk result (IsPrepared (get_flow_defs self.old.state) self.old self.new) }
    {
        let docs = flow_documents(alloc, self.flow_defs.as_slice())?;
        Ok(Change::none(Reply::Json(Doc::List(docs))))
    }

    #[tactic(auto, unfolding(wf_steps::specs::Calls::get_flow_def))]
    pub(crate) fn prepare_flow_def(
        &mut self,
        alloc: Global,
        name: &Text,
        version: Option<u32>,
    ) -> Result<Change, NoMemory>
        ensures state { self.new.state ≡ self.old.state }
        ensures limits { self.new.limits ≡ self.old.limits }
        ensures entries { self.new.entries ≡ self.old.entries }
        ensures ok { IfOk result (IsPrepared (get_flow_def name.now version self.old.state) self.old self.new) }
    {
        match find_flow_def(self.flow_defs.as_slice(), name.as_str(), version) {
            None => Ok(Change::none(Reply::Refused(Refusal::NotFound))),
            Some(def) => Ok(Change::none(Reply::Json(copy(alloc, &def.document)?))),
        }
    }
}

fn task_documents(alloc: Global, defs: &[TaskDef]) -> Result<Items<Doc>, NoMemory>
    ensures { IfOk result (λ docs. docs ≡ map (λ def. def.document) defs.now) }
{
    let mut docs = Items::new(alloc);
    for def in defs {
        docs.push(copy(alloc, &def.document)?)?;
    }
    Ok(docs)
}

fn flow_documents(alloc: Global, defs: &[FlowDef]) -> Result<Items<Doc>, NoMemory>
    ensures { IfOk result (λ docs. docs ≡ map (λ def. def.document) defs.now) }
{
    let mut docs = Items::new(alloc);
    for def in defs {
        docs.push(copy(alloc, &def.document)?)?;
    }
    Ok(docs)
}
