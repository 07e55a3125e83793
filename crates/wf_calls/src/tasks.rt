//! Attempts as documents.

ghost use Rattle.std.specs.Prelude.{◌≡◌, ◌<◌, ◌^◌, [], ◌++◌, OnOk, IfOk};
ghost use Rattle.wf_doc.specs.declared.doc.Doc.TheVariants.{Table};
ghost use Rattle.wf_machine.specs.Documents as spec;
ghost use Rattle.wf_machine.specs.Records.{IsInRange};

use crate::entries::{put_document, put_flow_id, put_number, put_task_id, put_text};
use crate::no_memory::NoMemory;
use std::alloc::Global;
use wf_doc::{Doc, Fields, Text};
use wf_flow::{Attempt, Flow, node_at};
use wf_machine::{Node, NodeKind};
use wf_names::FlowNo;

/// The keys of an attempt up to its reference.
fn put_first(
    alloc: Global,
    table: &mut Fields<Doc>,
    attempt: &Attempt,
    reference: &str,
) -> Result<(), NoMemory>
    requires empty { table.old ≡ [] }
    requires range { IsInRange attempt.now }
    ensures ok { OnOk result (table.new ≡ spec.first_task_entries attempt.now reference.now) }
{
    let input = wf_doc::copy(alloc, attempt.input())?;
    let output = wf_doc::copy(alloc, attempt.output())?;
    let reference = reference_text(alloc, reference, attempt.iteration())?;
    put_number(
        alloc,
        table,
        "callbackAfterSeconds",
        attempt.callback() as u64,
    )?;
    put_number(alloc, table, "endTime", attempt.ended().unwrap_or(0))?;
    put_document(alloc, table, "inputData", input)?;
    put_number(alloc, table, "iteration", attempt.iteration() as u64)?;
    put_document(alloc, table, "outputData", output)?;
    put_number(alloc, table, "pollCount", attempt.polls() as u64)?;
    put_text(alloc, table, "reasonForIncompletion", attempt.reason())?;
    put_document(alloc, table, "referenceTaskName", Doc::Text(reference))
}

/// The reference, in a loop with the iteration.
fn reference_text(alloc: Global, reference: &str, iteration: u32) -> Result<Text, NoMemory>
    ensures { IfOk result (λ text. text ≡ spec.reference_text reference.now iteration) }
{
    if iteration == 0 {
        return Ok(Text::new(alloc, reference)?);
    }
    let mut text = String::new(alloc);
    text.push_str(reference)?;
    text.push_str("__")?;
    text.push_str(iteration.to_string(alloc)?.as_str())?;
    Ok(Text::from_string(text))
}

/// The keys between the reference and the status, without that of a retried attempt.
fn put_middle(
    alloc: Global,
    table: &mut Fields<Doc>,
    attempt: &Attempt,
    reference: &str,
) -> Result<(), NoMemory>
    requires first { table.old ≡ spec.first_task_entries attempt.now reference.now }
    requires range { IsInRange attempt.now }
    ensures ok { OnOk result (table.new ≡ spec.first_task_entries attempt.now reference.now ++ spec.middle_task_entries attempt.now) }
{
    put_number(alloc, table, "retryCount", attempt.retry() as u64)?;
    put_number(alloc, table, "scheduledTime", attempt.scheduled())?;
    put_number(alloc, table, "startTime", attempt.first_poll().unwrap_or(0))?;
    put_text(alloc, table, "status", attempt.status().text())
}

/// The keys behind the status, without that of a child.
fn put_last(
    alloc: Global,
    table: &mut Fields<Doc>,
    mark: u32,
    flow: FlowNo,
    attempt: &Attempt,
    node: &Node,
) -> Result<(), NoMemory>
    requires first { table.old ≡ spec.first_task_entries attempt.now node.now.reference ++ spec.middle_task_entries attempt.now }
    requires range { IsInRange attempt.now }
    requires flow { flow.0 < 2 ^ 56 }
    ensures ok { OnOk result (table.new ≡ spec.first_task_entries attempt.now node.now.reference ++ spec.middle_task_entries attempt.now
        ++ spec.last_task_entries mark flow attempt.now node.now.name node.now.kind) }
{
    put_text(alloc, table, "taskDefName", node.name.as_str())?;
    put_task_id(alloc, table, "taskId", mark, attempt.number())?;
    put_text(
        alloc,
        table,
        "taskType",
        type_text(node.name.as_str(), &node.kind),
    )?;
    put_number(alloc, table, "updateTime", attempt.updated())?;
    put_text(alloc, table, "workerId", attempt.worker())?;
    put_flow_id(alloc, table, "workflowInstanceId", mark, flow)
}

/// The type of an attempt at a node of that name and kind: the task's name where it is SIMPLE.
fn type_text<'a>(name: &'a str, kind: &NodeKind) -> &'a str
    ensures { result.now ≡ spec.type_text name.now kind.now }
{
    match kind {
        NodeKind::Simple => name,
        NodeKind::Switch(_) => "SWITCH",
        NodeKind::Fork(_) => "FORK_JOIN",
        NodeKind::Join(_) => "JOIN",
        NodeKind::Loop(_, _) => "DO_WHILE",
        NodeKind::SubFlow(_, _) => "SUB_WORKFLOW",
        NodeKind::SetVariable => "SET_VARIABLE",
        NodeKind::Wait => "WAIT",
        NodeKind::Human => "HUMAN",
        NodeKind::Terminate => "TERMINATE",
    }
}

/// The key of the child that the attempt started, where there is one.
fn put_child(
    alloc: Global,
    table: &mut Fields<Doc>,
    mark: u32,
    flow: FlowNo,
    attempt: &Attempt,
    node: &Node,
) -> Result<(), NoMemory>
    requires others { table.old ≡ spec.first_task_entries attempt.now node.now.reference ++ spec.middle_task_entries attempt.now
        ++ spec.last_task_entries mark flow attempt.now node.now.name node.now.kind }
    requires range { IsInRange attempt.now }
    ensures ok { OnOk result (table.new ≡ spec.first_task_entries attempt.now node.now.reference ++ spec.middle_task_entries attempt.now
        ++ spec.child_entries mark attempt.now.child ++ spec.last_task_entries mark flow attempt.now node.now.name node.now.kind) }
{
    let _flow = flow;
    let _node = node;
    match attempt.child() {
        None => Ok(()),
        Some(child) => put_flow_id(alloc, table, "subWorkflowId", mark, child),
    }
}

/// The key of the attempt that this one retries, where there is one.
fn put_retried(
    alloc: Global,
    table: &mut Fields<Doc>,
    mark: u32,
    flow: FlowNo,
    attempt: &Attempt,
    node: &Node,
) -> Result<(), NoMemory>
    requires others { table.old ≡ spec.first_task_entries attempt.now node.now.reference ++ spec.middle_task_entries attempt.now
        ++ spec.child_entries mark attempt.now.child ++ spec.last_task_entries mark flow attempt.now node.now.name node.now.kind }
    requires range { IsInRange attempt.now }
    ensures ok { OnOk result (table.new ≡ spec.first_task_entries attempt.now node.now.reference ++ spec.retried_entries mark attempt.now.retried
        ++ spec.middle_task_entries attempt.now ++ spec.child_entries mark attempt.now.child
        ++ spec.last_task_entries mark flow attempt.now node.now.name node.now.kind) }
{
    let _flow = flow;
    let _node = node;
    match attempt.retried() {
        None => Ok(()),
        Some(task) => put_task_id(alloc, table, "retriedTaskId", mark, task),
    }
}

/// The attempt at this node as a document.
fn task_table(
    alloc: Global,
    mark: u32,
    flow: FlowNo,
    attempt: &Attempt,
    node: &Node,
) -> Result<Doc, NoMemory>
    requires range { IsInRange attempt.now }
    requires flow { flow.0 < 2 ^ 56 }
    ensures { IfOk result (λ doc. doc ≡ spec.task_table mark flow attempt.now node.now) }
{
    let mut table = Fields::new(alloc);
    put_first(alloc, &mut table, attempt, node.reference.as_str())?;
    put_middle(alloc, &mut table, attempt, node.reference.as_str())?;
    put_last(alloc, &mut table, mark, flow, attempt, node)?;
    put_child(alloc, &mut table, mark, flow, attempt, node)?;
    put_retried(alloc, &mut table, mark, flow, attempt, node)?;
    Ok(Doc::Table(table))
}

/// An attempt of a flow as a document, in the store with that mark. The flow's definition is wanted for the node's name
/// and kind.
#[tactic(auto, unfolding(wf_machine::specs::Documents::task_document))]
pub fn task_document(
    alloc: Global,
    mark: u32,
    flow: &Flow,
    attempt: &Attempt,
) -> Result<Doc, NoMemory>
    ensures { IfOk result (λ doc. doc ≡ spec.task_document mark flow.now.flow attempt.now) }
{
    flow.is_record();
    attempt.in_range();
    match node_at(flow.def().nodes.as_slice(), attempt.node()) {
        Some(node) => task_table(alloc, mark, flow.number(), attempt, node),
        None => Ok(Doc::Table(Fields::new(alloc))),
    }
}
