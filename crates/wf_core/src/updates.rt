//! What workers tell of attempts.

ghost use Rattle.std.specs.Prelude.{◌≡◌, ◌+◌, ◌≤◌, true, IfOk, Some};
ghost use Rattle.wf_names.specs.TaskStatus.{task_is_open};
ghost use Rattle.wf_machine.specs.Flows.{flow_numbered, flow_of_task};
ghost use Rattle.wf_steps.specs.Calls.{flow_updated, is_wanted, settled_with, task_updated, update, update_of};
ghost use Rattle.wf_machine.specs.Records.{IsMoment, is_kind_at};
ghost use Rattle.wf_machine.specs.State.{attempt_numbered};
ghost use Rattle.wf_machine.specs.Tasks.{is_result_status, takes_update};
ghost use Rattle.wf_core.specs.Changes.{IsPrepared};
ghost use Rattle.wf_core.specs.Grown.{IsTaken};
ghost use Rattle.wf_kept.specs.Flows.{kept};

use crate::change::Change;
use crate::no_memory::NoMemory;
use crate::steps::Core;
use std::alloc::Global;
use wf_flow::{Attempt, Flow, takes_update_at};
use wf_machine::{Reply, TaskResult};
use wf_names::{FlowNo, IdKind, Refusal, TaskNo};

impl Core {
    #[tactic(auto, unfolding(wf_steps::specs::Calls::update))]
    pub(crate) fn prepare_update(
        &mut self,
        alloc: Global,
        moment: u64,
        wanted: Option<FlowNo>,
        task: TaskNo,
        outcome: TaskResult,
    ) -> Result<Change, NoMemory>
        requires moment { IsMoment moment }
        requires status { is_result_status outcome.status ≡ true }
        requires callback { outcome.callback ≤ 2147483647 }
        ensures state { self.new.state ≡ self.old.state }
        ensures limits { self.new.limits ≡ self.old.limits }
        ensures entries { self.new.entries ≡ self.old.entries }
        ensures ok { IfOk result (IsPrepared (update self.old.limits (self.old.entries + 1) moment wanted task outcome self.old.state) self.old self.new) }
    {
        let kept = match self.flows.flow_of_task(task) {
            None => return Ok(Change::none(Reply::Refused(Refusal::NotFound))),
            Some(kept) => kept,
        };
        if !is_wanted(wanted, kept.flow.number()) {
            return Ok(Change::none(Reply::Refused(Refusal::NotFound)));
        }
        let attempt = match kept.flow.attempt(task) {
            None => return Ok(Change::none(Reply::Refused(Refusal::NotFound))),
            Some(attempt) => attempt,
        };
        if !attempt.status().is_open() {
            attempt.in_range();
            return Ok(Change::none(Reply::Id(IdKind::Task, attempt.number().0)));
        }
        if !takes_update_at(kept.flow.def(), attempt.node()) {
            return Ok(Change::none(Reply::Refused(Refusal::NotUpdatable)));
        }
        let flow = kept.flow.copy(alloc)?;
        self.prepare_result(alloc, moment, flow, task, outcome)
    }

    /// The flow, which is an equal copy of the kept one, takes the result, and is decided.
    fn prepare_result(
        &mut self,
        alloc: Global,
        moment: u64,
        mut flow: Flow,
        task: TaskNo,
        outcome: TaskResult,
    ) -> Result<Change, NoMemory>
        requires moment { IsMoment moment }
        requires status { is_result_status outcome.status ≡ true }
        requires callback { outcome.callback ≤ 2147483647 }
        requires found { IsTaken task flow.flow self.old.state }
        ensures state { self.new.state ≡ self.old.state }
        ensures limits { self.new.limits ≡ self.old.limits }
        ensures entries { self.new.entries ≡ self.old.entries }
        ensures ok { IfOk result (IsPrepared (flow_updated self.old.limits (self.old.entries + 1) moment task outcome flow.flow self.old.state) self.old self.new) }
    {
        let _next_task = self.flows.next_task();
        let _taken = flow.apply_result(task, outcome, moment);
        self.prepare_changed(alloc, moment, flow, Reply::Id(IdKind::Task, task.0))
    }
}

/// The flow is the one that an update names, where it names one.
fn is_wanted(wanted: Option<FlowNo>, number: FlowNo) -> bool
    ensures { result ≡ is_wanted wanted number }
{
    match wanted {
        None => true,
        Some(wanted) => wanted.0 == number.0,
    }
}
