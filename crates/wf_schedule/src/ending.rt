//! A TERMINATE is scheduled.

ghost use Rattle.std.specs.Prelude.{◌≡◌, [], ◌∷◌, IfOk, None};
ghost use Rattle.std.specs.Option.{option_map_or};
ghost use Rattle.wf_doc.specs.Doc.{as_table, as_text};
ghost use Rattle.wf_doc.specs.declared.doc.Doc.TheVariants.{Table};
ghost use Rattle.wf_rules.specs.Scheduling as spec;
ghost use Rattle.wf_setting.specs.Setting.{sight_in};

use crate::adding::add_before;
use crate::starts::Start;
use crate::texts::{empty_table, text_at};
use std::alloc::Global;
use wf_doc::{Doc, Text};
use wf_flow::Flow;
use wf_names::FlowStatus;
use wf_rules::{Act, Begin, Outcome};
use wf_setting::{Children, NoMemory, Setting};

/// An attempt is added that is over as it is made, and the flow ends as the input says.
pub fn terminate<C: Children>(
    alloc: Global,
    at: &Setting<C>,
    flow: &Flow,
    start: Start,
) -> Result<Vec<Act>, NoMemory>
    ensures { IfOk result (λ acts. acts.items
        ≡ spec.terminate at.now.limits (sight_in at.now flow.now.flow) start.entry.node.now start.entry.iteration start.entry.input) }
{
    let end = end_told(alloc, &start.input)?;
    let attempt = start.begin(alloc, Begin::Over(Outcome::Completed));
    add_before(alloc, at, flow, attempt, end)
}

/// The end that the input tells, a failure where it names no status that ends a flow.
fn end_told(alloc: Global, input: &Doc) -> Result<Act, NoMemory>
    ensures { IfOk result (λ act. act ∷ [] ≡ spec.end_by input.now (spec.named_end input.now)) }
{
    match named_end(input) {
        Some(status) => {
            let reason = text_at(alloc, "terminationReason", input)?;
            let output = table_at(alloc, "workflowOutput", input)?;
            Ok(Act::End(status, Some(reason), Some(output)))
        }
        None => {
            let reason = Text::new(alloc, "bad terminationStatus")?;
            Ok(Act::End(FlowStatus::Failed, Some(reason), None))
        }
    }
}

/// The status that the input names.
fn named_end(input: &Doc) -> Option<FlowStatus>
    ensures { result ≡ spec.named_end input.now }
{
    match input.field("terminationStatus") {
        Some(status) => end_in(status),
        None => None,
    }
}

fn end_in(status: &Doc) -> Option<FlowStatus>
    ensures { result ≡ option_map_or spec.end_named (as_text status.now) None }
{
    match status.as_text() {
        Some(text) => end_named(text.as_str()),
        None => None,
    }
}

fn end_named(text: &str) -> Option<FlowStatus>
    ensures { result ≡ spec.end_named text.now }
{
    if text == "COMPLETED" {
        return Some(FlowStatus::Completed);
    }
    if text == "FAILED" {
        return Some(FlowStatus::Failed);
    }
    if text == "TERMINATED" {
        return Some(FlowStatus::Terminated);
    }
    None
}

/// The table behind the key, or an empty one.
fn table_at(alloc: Global, key: &str, doc: &Doc) -> Result<Doc, NoMemory>
    ensures { IfOk result (λ table. table ≡ spec.table_at key.now doc.now) }
{
    match doc.field(key) {
        Some(value) => copy_table(alloc, value),
        None => Ok(empty_table(alloc)),
    }
}

fn copy_table(alloc: Global, value: &Doc) -> Result<Doc, NoMemory>
    ensures { IfOk result (λ table. table ≡ option_map_or (λ _. value.now) (as_table value.now) (Table [])) }
{
    match value.as_table() {
        Some(_) => Ok(wf_doc::copy(alloc, value)?),
        None => Ok(empty_table(alloc)),
    }
}
