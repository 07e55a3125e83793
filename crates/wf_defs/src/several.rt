//! Lists of definitions.

ghost use Rattle.std.specs.Prelude.{◌≡◌, ◌≢◌, IfErr, IfOk, OnOk, None, Some, map, option_map};
ghost use Rattle.wf_defs.specs.FlowReading.{flow_definition};
ghost use Rattle.wf_defs.specs.FlowRules.{flow_rule};
ghost use Rattle.wf_defs.specs.TaskReading.{task_definition};
ghost use Rattle.wf_defs.specs.TaskRules.{task_rule};
ghost use Rattle.wf_defs.specs.Several as spec;

use crate::faults::DefFault;
use crate::flow_reading::read_flowdef;
use crate::task_reading::read_taskdef;
use std::alloc::Global;
use wf_doc::{Doc, Items, NoMemory, Text, copy};
use wf_machine::{FlowDef, FlowDefs, TaskDef, TaskDefs};
use wf_wire::Limits;

/// The task definitions that the documents are, or the first rule that one of them breaks: the first document that
/// breaks any, and in it the first rule. The place begins with the document's, as `[2].name`.
pub fn read_taskdefs(alloc: Global, docs: &[Doc]) -> Result<TaskDefs, DefFault>
    ensures valid { OnOk result (spec.first_fault_in task_rule 0 docs.now ≡ None) }
    ensures value { IfOk result (λ defs. defs ≡ map task_definition docs.now) }
    ensures err { IfErr result (λ fault. fault ≢ DefFault.NoMemory
        → spec.first_fault_in task_rule 0 docs.now ≡ Some fault) }
{
    let mut defs = Items::new(alloc);
    for (n, doc) in docs.iter().enumerate() {
        defs.push(task_item(alloc, n, doc)?)?;
    }
    Ok(defs)
}

/// The workflow definitions that the documents are, or the first rule that one of them breaks, likewise.
pub fn read_flowdefs(alloc: Global, docs: &[Doc], limits: &Limits) -> Result<FlowDefs, DefFault>
    ensures valid { OnOk result (spec.first_fault_in (flow_rule limits.now.nodes) 0 docs.now ≡ None) }
    ensures value { IfOk result (λ defs. defs ≡ map (flow_definition limits.now.nodes) docs.now) }
    ensures err { IfErr result (λ fault. fault ≢ DefFault.NoMemory
        → spec.first_fault_in (flow_rule limits.now.nodes) 0 docs.now ≡ Some fault) }
{
    let mut defs = Items::new(alloc);
    for (n, doc) in docs.iter().enumerate() {
        defs.push(flow_item(alloc, n, doc, limits)?)?;
    }
    Ok(defs)
}

/// The definition that the n-th document is.
fn task_item(alloc: Global, n: usize, doc: &Doc) -> Result<TaskDef, DefFault>
    ensures valid { OnOk result (task_rule doc.now ≡ None) }
    ensures value { IfOk result (λ def. def ≡ task_definition doc.now) }
    ensures err { IfErr result (λ fault. fault ≢ DefFault.NoMemory
        → option_map (spec.in_item n) (task_rule doc.now) ≡ Some fault) }
{
    match read_taskdef(alloc, copy(alloc, doc)?) {
        Ok(def) => Ok(def),
        Err(fault) => Err(in_item(alloc, n, fault)?),
    }
}

fn flow_item(alloc: Global, n: usize, doc: &Doc, limits: &Limits) -> Result<FlowDef, DefFault>
    ensures valid { OnOk result (flow_rule limits.now.nodes doc.now ≡ None) }
    ensures value { IfOk result (λ def. def ≡ flow_definition limits.now.nodes doc.now) }
    ensures err { IfErr result (λ fault. fault ≢ DefFault.NoMemory
        → option_map (spec.in_item n) (flow_rule limits.now.nodes doc.now) ≡ Some fault) }
{
    match read_flowdef(alloc, copy(alloc, doc)?, limits) {
        Ok(def) => Ok(def),
        Err(fault) => Err(in_item(alloc, n, fault)?),
    }
}

/// The fault of the n-th document as one of the list.
fn in_item(alloc: Global, n: usize, fault: DefFault) -> Result<DefFault, NoMemory>
    ensures { IfOk result (λ told. told ≡ spec.in_item n fault) }
{
    match fault {
        DefFault::Rule { rule, place } => {
            let place = place_in_item(alloc, n, place.as_str())?;
            Ok(DefFault::Rule { rule, place })
        }
        DefFault::NoMemory => Ok(DefFault::NoMemory),
    }
}

/// A place in the n-th document, or the document itself.
fn place_in_item(alloc: Global, n: usize, place: &str) -> Result<Text, NoMemory>
    ensures { IfOk result (λ made. made ≡ spec.place_in_item n place.now) }
{
    let made = if place.is_empty() {
        format!(in alloc; "[{n}]")?
    } else {
        format!(in alloc; "[{n}].{place}")?
    };
    Ok(Text::from_string(made))
}
