//! Which flows the change of a flow concerns beside itself.

ghost use Rattle.std.specs.Prelude.{◌≡◌, false};
ghost use Rattle.std.specs.Option.{option_map_or};
ghost use Rattle.wf_machine.specs.Flows as spec;

use wf_flow::Flow;
use wf_names::{FlowNo, TaskNo};

/// The change of a flow from `before` to `now` is a change of the other one: of its parent where it ends, and of a child
/// where the child's attempt ends or goes.
pub fn is_concerned(before: &Flow, now: &Flow, other: &Flow) -> bool
    ensures { result ≡ spec.is_concerned before.now.flow now.now.flow other.now.flow }
{
    (is_parent_of(now, other.number()) && ends_now(before, now)) || is_orphaned(before, now, other)
}

fn is_parent_of(flow: &Flow, number: FlowNo) -> bool
    ensures { result ≡ spec.is_parent_of flow.now.flow number }
{
    match flow.parent() {
        Some(parent) => parent.0.0 == number.0,
        None => false,
    }
}

fn ends_now(before: &Flow, now: &Flow) -> bool
    ensures { result ≡ spec.ends_now before.now.flow now.now.flow }
{
    before.status().is_open() && !now.status().is_open()
}

/// The flow's attempt is one of the changed flow, and ends or goes by the change.
fn is_orphaned(before: &Flow, now: &Flow, flow: &Flow) -> bool
    ensures { result ≡ option_map_or (spec.loses_parent before.now.flow now.now.flow) flow.now.flow.parent false }
{
    match flow.parent() {
        Some(parent) => loses_parent(before, now, parent),
        None => false,
    }
}

fn loses_parent(before: &Flow, now: &Flow, parent: (FlowNo, TaskNo)) -> bool
    ensures { result ≡ spec.loses_parent before.now.flow now.now.flow parent }
{
    parent.0.0 == now.number().0
        && (stops_open(before, now, parent.1) || stops_there(before, now, parent.1))
}

/// The flow's attempt is one of the flow that goes.
pub fn is_orphaned_by(gone: &Flow, other: &Flow) -> bool
    ensures { result ≡ spec.is_concerned gone.now.flow (spec.emptied gone.now.flow) other.now.flow }
{
    match other.parent() {
        Some(parent) => parent.0.0 == gone.number().0 && gone.attempt(parent.1).is_some(),
        None => false,
    }
}

fn stops_open(before: &Flow, now: &Flow, task: TaskNo) -> bool
    ensures { result ≡ spec.stops (spec.has_open task) before.now.flow now.now.flow }
{
    has_open(before, task) && !has_open(now, task)
}

fn stops_there(before: &Flow, now: &Flow, task: TaskNo) -> bool
    ensures { result ≡ spec.stops (spec.has_numbered task) before.now.flow now.now.flow }
{
    before.attempt(task).is_some() && now.attempt(task).is_none()
}

fn has_open(flow: &Flow, task: TaskNo) -> bool
    ensures { result ≡ spec.has_open task flow.now.flow }
{
    match flow.attempt(task) {
        Some(attempt) => attempt.status().is_open(),
        None => false,
    }
}
