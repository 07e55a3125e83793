//! Definitions that requests register or change.

ghost use Rattle.std.specs.Prelude.{◌≡◌, ◌≢◌, Err, IfErr, IfOk, Ok};
ghost use Rattle.wf_rest.specs.Bodies as spec;

use crate::faulting::HttpFault;
use std::alloc::Global;
use wf_defs::{DefFault, read_flowdef, read_flowdefs, read_taskdef, read_taskdefs};
use wf_doc::Doc;
use wf_steps::Call;
use wf_wire::Limits;

/// Tasks that are registered, each in place of one of its name.
pub fn task_defs_of(alloc: Global, docs: &[Doc]) -> Result<Call, HttpFault>
    ensures ok { IfOk result (λ call. spec.task_defs_of docs.now ≡ Ok call) }
    ensures err { IfErr result (λ fault. fault ≢ HttpFault.NoMemory → spec.task_defs_of docs.now ≡ Err fault) }
{
    match read_taskdefs(alloc, docs) {
        Ok(defs) => Ok(Call::PutTaskDefs(defs)),
        Err(fault) => Err(definition_fault(fault)),
    }
}

/// A task that is registered in place of the one of its name.
pub fn task_def_of(alloc: Global, doc: Doc) -> Result<Call, HttpFault>
    ensures ok { IfOk result (λ call. spec.task_def_of doc ≡ Ok call) }
    ensures err { IfErr result (λ fault. fault ≢ HttpFault.NoMemory → spec.task_def_of doc ≡ Err fault) }
{
    match read_taskdef(alloc, doc) {
        Ok(def) => Ok(Call::UpdateTaskDef(def)),
        Err(fault) => Err(definition_fault(fault)),
    }
}

/// A workflow that is registered under its name and version.
pub fn flow_def_of(alloc: Global, doc: Doc, limits: &Limits) -> Result<Call, HttpFault>
    ensures ok { IfOk result (λ call. spec.flow_def_of limits.now.nodes doc ≡ Ok call) }
    ensures err { IfErr result (λ fault. fault ≢ HttpFault.NoMemory → spec.flow_def_of limits.now.nodes doc ≡ Err fault) }
{
    match read_flowdef(alloc, doc, limits) {
        Ok(def) => Ok(Call::AddFlowDef(def)),
        Err(fault) => Err(definition_fault(fault)),
    }
}

/// Workflows that are registered, each in place of one of its name and version.
pub fn flow_defs_of(alloc: Global, docs: &[Doc], limits: &Limits) -> Result<Call, HttpFault>
    ensures ok { IfOk result (λ call. spec.flow_defs_of limits.now.nodes docs.now ≡ Ok call) }
    ensures err { IfErr result (λ fault. fault ≢ HttpFault.NoMemory → spec.flow_defs_of limits.now.nodes docs.now ≡ Err fault) }
{
    match read_flowdefs(alloc, docs, limits) {
        Ok(defs) => Ok(Call::PutFlowDefs(defs)),
        Err(fault) => Err(definition_fault(fault)),
    }
}

fn definition_fault(fault: DefFault) -> HttpFault
    ensures { result ≡ spec.definition_fault fault }
{
    match fault {
        DefFault::Rule { rule, place } => HttpFault::BadDefinition(rule, place),
        DefFault::NoMemory => HttpFault::NoMemory,
    }
}
