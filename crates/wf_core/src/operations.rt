//! What operators do to flows.

ghost use Rattle.std.specs.Prelude.{◌≡◌, ◌≢◌, ◌+◌, ◌≤◌, ◌^◌, IfErr, IfOk, None, OnOk, Some};
ghost use Rattle.wf_machine.specs.Operators.{first_refusal};
ghost use Rattle.wf_machine.specs.Records.{IsMoment};
ghost use Rattle.wf_machine.specs.State.{RisingTo};
ghost use Rattle.wf_steps.specs.Calls as spec;
ghost use Rattle.wf_core.specs.Changes.{IsPrepared};
ghost use Rattle.wf_core.specs.Grown.{IsCopied};
ghost use Rattle.wf_core.specs.Operations as course;

use crate::change::{Change, Touched};
use crate::no_memory::NoMemory;
use crate::steps::Core;
use std::alloc::Global;
use wf_flow::Flow;
use wf_machine::Reply;
use wf_names::{FlowNo, IdKind, Refusal, TaskNo};
use wf_ops::{Kin, may_remove, pause, rerun, restart, resume, retry, skip, terminate};
use wf_steps::Operation;
use wf_wire::Limits;

impl Core {
    #[tactic(auto, unfolding(wf_steps::specs::Calls::operate))]
    pub(crate) fn prepare_operate(
        &mut self,
        alloc: Global,
        moment: u64,
        number: FlowNo,
        operation: Operation,
    ) -> Result<Change, NoMemory>
        requires moment { IsMoment moment }
        ensures state { self.new.state ≡ self.old.state }
        ensures limits { self.new.limits ≡ self.old.limits }
        ensures entries { self.new.entries ≡ self.old.entries }
        ensures ok { IfOk result (IsPrepared (spec.operate self.old.limits (self.old.entries + 1) moment number operation self.old.state) self.old self.new) }
    {
        let _rising = self.flows.as_slice();
        let kept = match self.flows.flow(number) {
            None => return Ok(Change::none(Reply::Refused(Refusal::NotFound))),
            Some(kept) => kept,
        };
        let flow = kept.flow.copy(alloc)?;
        self.prepare_operation(alloc, moment, flow, operation)
    }

    /// The operation on the flow, which is an equal copy of the kept one.
    fn prepare_operation(
        &mut self,
        alloc: Global,
        moment: u64,
        flow: Flow,
        operation: Operation,
    ) -> Result<Change, NoMemory>
        requires moment { IsMoment moment }
        requires copied { IsCopied flow.flow self.old.state }
        ensures state { self.new.state ≡ self.old.state }
        ensures limits { self.new.limits ≡ self.old.limits }
        ensures entries { self.new.entries ≡ self.old.entries }
        ensures ok { IfOk result (IsPrepared (spec.flow_operated self.old.limits (self.old.entries + 1) moment operation self.old.state flow.flow) self.old self.new) }
    {
        let next_task = self.flows.next_task();
        let after = next_after(&operation, next_task);
        let stops = stops_flow(&operation);
        let anew = begins_anew(&operation);
        let names = answers_id(&operation);
        match operated(alloc, flow, operation, next_task, &self.limits, moment) {
            Err(Refusal::NoMemory) => Err(NoMemory),
            Err(refusal) => Ok(Change::none(Reply::Refused(refusal))),
            Ok(flow) => {
                let reply = reply_of(names, flow.number());
                if stops {
                    Ok(self.prepare_undecided(alloc, moment, flow, reply))
                } else if anew {
                    self.prepare_anew(alloc, moment, flow, reply)
                } else {
                    self.prepare_grown(alloc, moment, flow, after, reply)
                }
            }
        }
    }

    #[tactic(auto, unfolding(wf_steps::specs::Calls::remove))]
    pub(crate) fn prepare_remove(&self, moment: u64, number: FlowNo) -> Change
        requires moment { IsMoment moment }
        ensures { IsPrepared (spec.remove (self.now.entries + 1) moment number self.now.state) self.now self.now result }
    {
        let kept = match self.flows.flow(number) {
            None => return Change::none(Reply::Refused(Refusal::NotFound)),
            Some(kept) => kept,
        };
        let kin = Kin {
            parent_kept: self.is_parent_kept(&kept.flow),
        };
        match may_remove(&kept.flow, &kin) {
            Err(refusal) => Change::none(Reply::Refused(refusal)),
            Ok(()) => Change {
                moment,
                touched: Touched::NoFlow(number),
                reply: Reply::Accepted,
            },
        }
    }

    fn is_parent_kept(&self, flow: &Flow) -> bool
        ensures { result ≡ spec.is_parent_kept self.now.state flow.now.flow }
    {
        match flow.parent() {
            Some(parent) => self.flows.flow(parent.0).is_some(),
            None => false,
        }
    }
}

/// The flow as the operation leaves it. NoMemory means that memory was wanting.
fn operated(
    alloc: Global,
    mut flow: Flow,
    operation: Operation,
    next_task: u64,
    limits: &Limits,
    moment: u64,
) -> Result<Flow, Refusal>
    requires rising { RisingTo 1 next_task flow.flow.attempts }
    requires moment { IsMoment moment }
    ensures allowed { IfOk result (λ now. first_refusal (spec.operation_refusals limits.now next_task operation flow.flow) ≡ None) }
    ensures done { IfOk result (λ now. now.flow ≡ spec.operated moment next_task operation flow.flow) }
    ensures refused { IfErr result (λ refusal. refusal ≢ Refusal.NoMemory → first_refusal (spec.operation_refusals limits.now next_task operation flow.flow) ≡ Some refusal) }
{
    match operate_on(alloc, &mut flow, operation, next_task, limits, moment) {
        Ok(()) => Ok(flow),
        Err(refusal) => {
            drop(flow);
            Err(refusal)
        }
    }
}

/// Does to the flow what the operator asks for. NoMemory means that memory was wanting.
fn operate_on(
    alloc: Global,
    flow: &mut Flow,
    operation: Operation,
    next_task: u64,
    limits: &Limits,
    moment: u64,
) -> Result<(), Refusal>
    requires rising { RisingTo 1 next_task flow.old.flow.attempts }
    requires moment { IsMoment moment }
    ensures allowed { OnOk result (first_refusal (spec.operation_refusals limits.now next_task operation flow.old.flow) ≡ None) }
    ensures done { OnOk result (flow.new.flow ≡ spec.operated moment next_task operation flow.old.flow) }
    ensures refused { IfErr result (λ refusal. refusal ≢ Refusal.NoMemory → first_refusal (spec.operation_refusals limits.now next_task operation flow.old.flow) ≡ Some refusal) }
{
    match operation {
        Operation::Terminate(reason) => terminate(flow, reason, moment),
        Operation::Pause => pause(flow),
        Operation::Resume => resume(flow),
        Operation::Restart => restart(flow, moment),
        Operation::Retry => retry(flow, moment),
        Operation::Rerun(task, input) => rerun(flow, task, input, moment),
        Operation::Skip {
            reference,
            input,
            output,
        } => skip(
            alloc,
            flow,
            reference.as_str(),
            input,
            output,
            TaskNo(next_task),
            limits,
            moment,
        ),
    }
}

/// The number of the next attempt, after the operation.
fn next_after(operation: &Operation, next_task: u64) -> u64
    requires { next_task ≤ 2 ^ 56 }
    ensures { result ≡ spec.next_after operation.now next_task }
{
    match operation {
        Operation::Terminate(_) => next_task,
        Operation::Pause => next_task,
        Operation::Resume => next_task,
        Operation::Restart => next_task,
        Operation::Retry => next_task,
        Operation::Rerun(_, _) => next_task,
        Operation::Skip { .. } => next_task + 1,
    }
}

/// Whether nothing is to be decided of the flow afterwards.
fn stops_flow(operation: &Operation) -> bool
    ensures { result ≡ spec.stops_flow operation.now }
{
    match operation {
        Operation::Terminate(_) => true,
        Operation::Pause => true,
        Operation::Resume => false,
        Operation::Restart => false,
        Operation::Retry => false,
        Operation::Rerun(_, _) => false,
        Operation::Skip { .. } => false,
    }
}

/// Whether the flow has no attempts afterwards.
fn begins_anew(operation: &Operation) -> bool
    ensures { result ≡ course.begins_anew operation.now }
{
    match operation {
        Operation::Restart => true,
        Operation::Terminate(_) => false,
        Operation::Pause => false,
        Operation::Resume => false,
        Operation::Retry => false,
        Operation::Rerun(_, _) => false,
        Operation::Skip { .. } => false,
    }
}

/// Whether the reply is the id of the flow.
fn answers_id(operation: &Operation) -> bool
    ensures { result ≡ course.answers_id operation.now }
{
    match operation {
        Operation::Rerun(_, _) => true,
        Operation::Terminate(_) => false,
        Operation::Pause => false,
        Operation::Resume => false,
        Operation::Restart => false,
        Operation::Retry => false,
        Operation::Skip { .. } => false,
    }
}

/// The reply to an operation that isn't refused: the id of the flow, or that it was accepted.
fn reply_of(names: bool, number: FlowNo) -> Reply
    ensures { result ≡ course.reply_of names number }
{
    if names {
        Reply::Id(IdKind::Flow, number.0)
    } else {
        Reply::Accepted
    }
}
