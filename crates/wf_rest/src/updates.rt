//! Updates: what workers tell of their tasks.

ghost use Rattle.std.specs.Prelude.{◌≡◌, ◌≢◌, Err, IfErr, IfOk, Ok, Some, codes, option_and_then};
ghost use Rattle.wf_doc.specs.Doc.{as_text};
ghost use Rattle.wf_fields.specs.Fields.{given as given_in, is_given};
ghost use Rattle.wf_rest.specs.Bodies as spec;

use crate::faulting::HttpFault;
use crate::ids::{flow_named, task_named};
use crate::starts::is_table;
use std::alloc::Global;
use wf_doc::{Doc, NoMemory, Text};
use wf_fields::{
    Form, given, is_absent_or_formed, is_absent_or_number, is_formed, number_or, table_in, text_in,
};
use wf_machine::TaskResult;
use wf_names::{FlowNo, TaskStatus};
use wf_steps::Call;

/// The update that a body describes.
pub fn update_of(alloc: Global, mark: u32, doc: &Doc) -> Result<Call, HttpFault>
    ensures ok { IfOk result (λ call. spec.update_of mark doc.now ≡ Ok call) }
    ensures err { IfErr result (λ fault. fault ≢ HttpFault.NoMemory → spec.update_of mark doc.now ≡ Err fault) }
{
    if !is_update(doc) {
        return Err(HttpFault::BadBody);
    }
    match status_in(doc) {
        Some(status) => Ok(update_with(alloc, mark, doc, status)?),
        None => Err(HttpFault::BadBody),
    }
}

/// The update that tells that status.
fn update_with(alloc: Global, mark: u32, doc: &Doc, status: TaskStatus) -> Result<Call, NoMemory>
    ensures { IfOk result (λ call. spec.update_with mark doc.now (Some status) ≡ Ok call) }
{
    Ok(Call::Update {
        flow: wanted_flow(mark, text_in(doc, "workflowInstanceId")),
        task: task_named(mark, text_in(doc, "taskId")),
        outcome: result_of(alloc, status, doc)?,
    })
}

fn is_update(doc: &Doc) -> bool
    ensures { result ≡ spec.is_update doc.now }
{
    is_table(doc)
        && is_formed(doc, "taskId", Form::AText)
        && is_told(doc)
        && is_absent_or_formed(doc, "workflowInstanceId", Form::AText)
        && is_absent_or_formed(doc, "reasonForIncompletion", Form::AText)
        && is_absent_or_formed(doc, "workerId", Form::AText)
        && is_absent_or_formed(doc, "outputData", Form::ATable)
        && is_absent_or_number(doc, "callbackAfterSeconds", 0, 2_147_483_647)
}

fn is_told(doc: &Doc) -> bool
    ensures { result ≡ is_given spec.is_told_status (codes "status") doc.now }
{
    match given(doc, "status") {
        Some(value) => told_status(value).is_some(),
        None => false,
    }
}

fn status_in(doc: &Doc) -> Option<TaskStatus>
    ensures { result ≡ option_and_then spec.told_status (given_in (codes "status") doc.now) }
{
    told_status(given(doc, "status")?)
}

/// The status that the value names, where a worker may tell it.
fn told_status(value: &Doc) -> Option<TaskStatus>
    ensures { result ≡ spec.told_status value.now }
{
    if_result(TaskStatus::read(value.as_text()?.as_str())?)
}

fn if_result(status: TaskStatus) -> Option<TaskStatus>
    ensures { result ≡ spec.if_result status }
{
    match status {
        TaskStatus::InProgress
        | TaskStatus::Completed
        | TaskStatus::Failed
        | TaskStatus::FailedWithTerminalError => Some(status),
        _ => None,
    }
}

fn result_of(alloc: Global, status: TaskStatus, doc: &Doc) -> Result<TaskResult, NoMemory>
    ensures { IfOk result (λ outcome. outcome ≡ spec.result_of status doc.now) }
{
    Ok(TaskResult {
        status,
        output: table_in(alloc, doc, "outputData")?,
        reason: Text::new(alloc, text_in(doc, "reasonForIncompletion"))?,
        callback: number_or(doc, "callbackAfterSeconds", 0),
        worker: worker_in(alloc, doc)?,
    })
}

fn worker_in(alloc: Global, doc: &Doc) -> Result<Option<Text>, NoMemory>
    ensures { IfOk result (λ worker. worker ≡ option_and_then as_text (given_in (codes "workerId") doc.now)) }
{
    let Some(value) = given(doc, "workerId") else {
        return Ok(None);
    };
    match value.as_text() {
        Some(text) => Ok(Some(text.copy(alloc)?)),
        None => Ok(None),
    }
}

/// The flow that an update names, where it names one.
fn wanted_flow(mark: u32, text: &str) -> Option<FlowNo>
    ensures { result ≡ spec.wanted_flow mark text.now }
{
    if text.is_empty() {
        return None;
    }
    Some(flow_named(mark, text))
}
