//! Flows as documents.

ghost use Rattle.std.specs.Prelude.{◌≡◌, ◌<◌, ◌^◌, [], ◌++◌, map, filter, not, OnOk, IfOk};
ghost use Rattle.wf_machine.specs.Documents as spec;

use crate::entries::{put_document, put_flow_id, put_number, put_task_id, put_text};
use crate::no_memory::NoMemory;
use crate::tasks::task_document;
use std::alloc::Global;
use wf_doc::{Doc, Fields, Items};
use wf_flow::Flow;

/// A flow as a document, in the store with that mark, with its attempts where they are asked for.
#[tactic(auto, unfolding(wf_machine::specs::Documents::flow_document))]
pub fn flow_document(alloc: Global, mark: u32, flow: &Flow, tasks: bool) -> Result<Doc, NoMemory>
    ensures { IfOk result (λ doc. doc ≡ spec.flow_document mark tasks flow.now.flow) }
{
    let tasks = listed_tasks(alloc, mark, flow, tasks)?;
    let mut table = Fields::new(alloc);
    put_first(alloc, &mut table, flow)?;
    put_parent(alloc, &mut table, mark, flow)?;
    put_last(alloc, &mut table, mark, tasks, flow)?;
    Ok(Doc::Table(table))
}

/// The keys of a flow up to its output.
fn put_first(alloc: Global, table: &mut Fields<Doc>, flow: &Flow) -> Result<(), NoMemory>
    requires empty { table.old ≡ [] }
    ensures ok { OnOk result (table.new ≡ spec.first_flow_entries flow.now.flow) }
{
    flow.is_record();
    let input = wf_doc::copy(alloc, flow.input())?;
    let output = wf_doc::copy(alloc, flow.output())?;
    put_text(alloc, table, "correlationId", flow.correlation())?;
    put_number(alloc, table, "createTime", flow.created())?;
    put_number(alloc, table, "endTime", flow.ended().unwrap_or(0))?;
    put_document(alloc, table, "input", input)?;
    put_document(alloc, table, "output", output)
}

/// The keys of the flow and the attempt that started it, where there are some.
fn put_parent(
    alloc: Global,
    table: &mut Fields<Doc>,
    mark: u32,
    flow: &Flow,
) -> Result<(), NoMemory>
    requires first { table.old ≡ spec.first_flow_entries flow.now.flow }
    ensures ok { OnOk result (table.new ≡ spec.first_flow_entries flow.now.flow ++ spec.parent_entries mark flow.now.flow.parent) }
{
    flow.is_record();
    match flow.parent() {
        None => Ok(()),
        Some(parent) => {
            put_flow_id(alloc, table, "parentWorkflowId", mark, parent.0)?;
            put_task_id(alloc, table, "parentWorkflowTaskId", mark, parent.1)
        }
    }
}

/// The keys of a flow from the reason on.
fn put_last(
    alloc: Global,
    table: &mut Fields<Doc>,
    mark: u32,
    tasks: Items<Doc>,
    flow: &Flow,
) -> Result<(), NoMemory>
    requires first { table.old ≡ spec.first_flow_entries flow.now.flow ++ spec.parent_entries mark flow.now.flow.parent }
    ensures ok { OnOk result (table.new ≡ spec.first_flow_entries flow.now.flow ++ spec.parent_entries mark flow.now.flow.parent
        ++ spec.last_flow_entries mark tasks flow.now.flow) }
{
    flow.is_record();
    let variables = wf_doc::copy(alloc, flow.variables())?;
    put_text(alloc, table, "reasonForIncompletion", flow.reason())?;
    put_number(alloc, table, "startTime", flow.started())?;
    put_text(alloc, table, "status", flow.status().text())?;
    put_document(alloc, table, "tasks", Doc::List(tasks))?;
    put_document(alloc, table, "variables", variables)?;
    put_flow_id(alloc, table, "workflowId", mark, flow.number())?;
    put_text(alloc, table, "workflowName", flow.def().name.as_str())?;
    put_number(alloc, table, "workflowVersion", flow.def().version as u64)
}

/// The attempts that aren't superseded, where they are asked for.
fn listed_tasks(alloc: Global, mark: u32, flow: &Flow, tasks: bool) -> Result<Items<Doc>, NoMemory>
    ensures { IfOk result (λ docs. docs ≡ spec.listed_tasks mark tasks flow.now.flow) }
{
    if tasks {
        all_tasks(alloc, mark, flow)
    } else {
        Ok(Items::new(alloc))
    }
}

fn all_tasks(alloc: Global, mark: u32, flow: &Flow) -> Result<Items<Doc>, NoMemory>
    ensures { IfOk result (λ docs. docs ≡ map (spec.task_document mark flow.now.flow) (filter (λ a. not a.superseded) flow.now.flow.attempts)) }
{
    let mut docs = Items::new(alloc);
    for attempt in flow.attempts() {
        if !attempt.superseded() {
            docs.push(task_document(alloc, mark, flow, attempt)?)?;
        }
    }
    Ok(docs)
}
