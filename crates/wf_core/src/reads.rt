//! Reads of flows and of attempts.

ghost use Rattle.std.specs.Prelude.{◌≡◌, ◌+◌, IfOk};
ghost use Rattle.std.specs.Option.{option_map_or};
ghost use Rattle.wf_steps.specs.Calls.{get_flow, get_task};
ghost use Rattle.wf_machine.specs.Documents.{task_document};
ghost use Rattle.wf_machine.specs.Replies.{IsPrintable};
ghost use Rattle.wf_machine.specs.State.{attempt_numbered};
ghost use Rattle.wf_core.specs.Changes.{IsPrepared};

use crate::change::Change;
use crate::no_memory::NoMemory;
use crate::steps::Core;
use std::alloc::Global;
use wf_calls::{flow_document, task_document};
use wf_flow::Flow;
use wf_machine::Reply;
use wf_names::{FlowNo, Refusal, TaskNo};

impl Core {
    #[tactic(auto, unfolding(wf_steps::specs::Calls::get_flow))]
    pub(crate) fn prepare_read(
        &mut self,
        alloc: Global,
        number: FlowNo,
        tasks: bool,
    ) -> Result<Change, NoMemory>
        ensures state { self.new.state ≡ self.old.state }
        ensures limits { self.new.limits ≡ self.old.limits }
        ensures entries { self.new.entries ≡ self.old.entries }
        ensures ok { IfOk result (IsPrepared (get_flow number tasks self.old.state) self.old self.new) }
    {
        match self.flows.flow(number) {
            None => Ok(Change::none(Reply::Refused(Refusal::NotFound))),
            Some(kept) => {
                let doc = flow_document(alloc, self.mark, &kept.flow, tasks)?;
                Ok(Change::none(Reply::Json(doc)))
            }
        }
    }

    #[tactic(auto, unfolding(wf_steps::specs::Calls::get_task))]
    pub(crate) fn prepare_task_read(
        &mut self,
        alloc: Global,
        task: TaskNo,
    ) -> Result<Change, NoMemory>
        ensures state { self.new.state ≡ self.old.state }
        ensures limits { self.new.limits ≡ self.old.limits }
        ensures entries { self.new.entries ≡ self.old.entries }
        ensures ok { IfOk result (IsPrepared (get_task task self.old.state) self.old self.new) }
    {
        match self.flows.flow_of_task(task) {
            None => Ok(Change::none(Reply::Refused(Refusal::NotFound))),
            Some(kept) => {
                let reply = task_reply(alloc, self.mark, &kept.flow, task)?;
                Ok(Change::none(reply))
            }
        }
    }
}

/// The document of the flow's attempt of that number.
pub(crate) fn task_reply(
    alloc: Global,
    mark: u32,
    flow: &Flow,
    task: TaskNo,
) -> Result<Reply, NoMemory>
    ensures reply { IfOk result (λ reply. reply ≡ option_map_or (λ a. Reply.Json (task_document mark flow.now.flow a)) (attempt_numbered task flow.now.flow.attempts) (Reply.Refused Refusal.NotFound)) }
    ensures printable { IfOk result IsPrintable }
{
    match flow.attempt(task) {
        None => Ok(Reply::Refused(Refusal::NotFound)),
        Some(attempt) => Ok(Reply::Json(task_document(alloc, mark, flow, attempt)?)),
    }
}
