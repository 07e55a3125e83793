//! What operators ask for.

ghost use Rattle.std.specs.Prelude.{◌≡◌, ◌≢◌, Err, IfErr, IfOk, Ok, codes};
ghost use Rattle.wf_fields.specs.Fields.{given as given_in};
ghost use Rattle.wf_rest.specs.Bodies as bodies;
ghost use Rattle.wf_rest.specs.Requests as spec;

use crate::bodies::{document_of, input_of};
use crate::faulting::HttpFault;
use crate::ids::{flow_named, task_named};
use crate::starts::{is_absent_or_empty, is_table};
use crate::targets::{is_false_query, parameter, text_query};
use std::alloc::Global;
use wf_doc::{Doc, NoMemory, Text};
use wf_fields::{Form, given, is_absent_or_formed, is_formed, table_in, text_in};
use wf_names::FlowNo;
use wf_routes::Query;
use wf_steps::{Call, Operation};
use wf_wire::Limits;

/// The flow that the path names.
fn flow_at(alloc: Global, mark: u32, path: &str) -> Result<FlowNo, HttpFault>
    ensures ok { IfOk result (λ flow. spec.flow_at mark path.now ≡ Ok flow) }
    ensures err { IfErr result (λ fault. fault ≢ HttpFault.NoMemory → spec.flow_at mark path.now ≡ Err fault) }
{
    let id = parameter(alloc, path, 3)?;
    Ok(flow_named(mark, id.as_str()))
}

/// The operation on the flow that the path names.
pub fn operate(
    alloc: Global,
    mark: u32,
    path: &str,
    operation: Operation,
) -> Result<Call, HttpFault>
    ensures ok { IfOk result (λ call. spec.operate mark path.now operation ≡ Ok call) }
    ensures err { IfErr result (λ fault. fault ≢ HttpFault.NoMemory → spec.operate mark path.now operation ≡ Err fault) }
{
    let flow = flow_at(alloc, mark, path)?;
    Ok(Call::Operate(flow, operation))
}

/// The end of the flow that the path names, for the reason that the query gives.
pub fn terminate(alloc: Global, mark: u32, path: &str, query: &Query) -> Result<Call, HttpFault>
    ensures ok { IfOk result (λ call. spec.terminate mark path.now query.now ≡ Ok call) }
    ensures err { IfErr result (λ fault. fault ≢ HttpFault.NoMemory → spec.terminate mark path.now query.now ≡ Err fault) }
{
    let flow = flow_at(alloc, mark, path)?;
    let reason = text_query(alloc, query, "reason")?;
    Ok(Call::Operate(flow, Operation::Terminate(reason)))
}

pub fn remove(alloc: Global, mark: u32, path: &str) -> Result<Call, HttpFault>
    ensures ok { IfOk result (λ call. spec.remove mark path.now ≡ Ok call) }
    ensures err { IfErr result (λ fault. fault ≢ HttpFault.NoMemory → spec.remove mark path.now ≡ Err fault) }
{
    let flow = flow_at(alloc, mark, path)?;
    Ok(Call::Remove(flow))
}

/// A flow that begins anew keeps its definition: the query can't ask for the latest one.
pub fn restart(alloc: Global, mark: u32, path: &str, query: &Query) -> Result<Call, HttpFault>
    ensures ok { IfOk result (λ call. spec.operate_unless (codes "useLatestDefinitions") mark path.now query.now Operation.Restart ≡ Ok call) }
    ensures err { IfErr result (λ fault. fault ≢ HttpFault.NoMemory
        → spec.operate_unless (codes "useLatestDefinitions") mark path.now query.now Operation.Restart ≡ Err fault) }
{
    let flow = flow_at(alloc, mark, path)?;
    is_false_query(query, "useLatestDefinitions")?;
    Ok(Call::Operate(flow, Operation::Restart))
}

/// A retry makes new children: the query can't ask that the old ones go on.
pub fn retry(alloc: Global, mark: u32, path: &str, query: &Query) -> Result<Call, HttpFault>
    ensures ok { IfOk result (λ call. spec.operate_unless (codes "resumeSubworkflowTasks") mark path.now query.now Operation.Retry ≡ Ok call) }
    ensures err { IfErr result (λ fault. fault ≢ HttpFault.NoMemory
        → spec.operate_unless (codes "resumeSubworkflowTasks") mark path.now query.now Operation.Retry ≡ Err fault) }
{
    let flow = flow_at(alloc, mark, path)?;
    is_false_query(query, "resumeSubworkflowTasks")?;
    Ok(Call::Operate(flow, Operation::Retry))
}

pub fn rerun(
    alloc: Global,
    limits: &Limits,
    mark: u32,
    path: &str,
    body: &[u8],
) -> Result<Call, HttpFault>
    ensures ok { IfOk result (λ call. spec.rerun limits.now mark path.now body.now ≡ Ok call) }
    ensures err { IfErr result (λ fault. fault ≢ HttpFault.NoMemory → spec.rerun limits.now mark path.now body.now ≡ Err fault) }
{
    let flow = flow_at(alloc, mark, path)?;
    let doc = document_of(alloc, limits, body)?;
    rerun_of(alloc, mark, flow, &doc)
}

pub fn skip(
    alloc: Global,
    limits: &Limits,
    mark: u32,
    path: &str,
    body: &[u8],
) -> Result<Call, HttpFault>
    ensures ok { IfOk result (λ call. spec.skip limits.now mark path.now body.now ≡ Ok call) }
    ensures err { IfErr result (λ fault. fault ≢ HttpFault.NoMemory → spec.skip limits.now mark path.now body.now ≡ Err fault) }
{
    let flow = flow_at(alloc, mark, path)?;
    let reference = parameter(alloc, path, 5)?;
    let doc = input_of(alloc, limits, body)?;
    skip_of(alloc, flow, reference, &doc)
}

fn rerun_of(alloc: Global, mark: u32, flow: FlowNo, doc: &Doc) -> Result<Call, HttpFault>
    ensures ok { IfOk result (λ call. bodies.rerun_of mark flow doc.now ≡ Ok call) }
    ensures err { IfErr result (λ fault. fault ≢ HttpFault.NoMemory → bodies.rerun_of mark flow doc.now ≡ Err fault) }
{
    if !is_rerun(doc) {
        return Err(HttpFault::BadBody);
    }
    let task = task_named(mark, text_in(doc, "reRunFromTaskId"));
    let input = input_in(alloc, doc)?;
    Ok(Call::Operate(flow, Operation::Rerun(task, input)))
}

fn is_rerun(doc: &Doc) -> bool
    ensures { result ≡ bodies.is_rerun doc.now }
{
    is_table(doc)
        && is_formed(doc, "reRunFromTaskId", Form::AText)
        && is_absent_or_formed(doc, "workflowInput", Form::ATable)
        && is_absent_or_empty(doc, "taskInput")
}

/// The new input of a flow, where the body gives one.
fn input_in(alloc: Global, doc: &Doc) -> Result<Option<Doc>, NoMemory>
    ensures { IfOk result (λ input. input ≡ given_in (codes "workflowInput") doc.now) }
{
    match given(doc, "workflowInput") {
        Some(input) => Ok(Some(wf_doc::copy(alloc, input)?)),
        None => Ok(None),
    }
}

fn skip_of(alloc: Global, flow: FlowNo, reference: Text, doc: &Doc) -> Result<Call, HttpFault>
    ensures ok { IfOk result (λ call. bodies.skip_of flow reference doc.now ≡ Ok call) }
    ensures err { IfErr result (λ fault. fault ≢ HttpFault.NoMemory → bodies.skip_of flow reference doc.now ≡ Err fault) }
{
    if !is_skip(doc) {
        return Err(HttpFault::BadBody);
    }
    let input = table_in(alloc, doc, "taskInput")?;
    let output = table_in(alloc, doc, "taskOutput")?;
    Ok(Call::Operate(
        flow,
        Operation::Skip {
            reference,
            input,
            output,
        },
    ))
}

fn is_skip(doc: &Doc) -> bool
    ensures { result ≡ bodies.is_skip doc.now }
{
    is_absent_or_formed(doc, "taskInput", Form::ATable)
        && is_absent_or_formed(doc, "taskOutput", Form::ATable)
}
