//! Starts that bodies describe.

ghost use Rattle.std.specs.Prelude.{◌≡◌, ◌≢◌, Err, IfErr, IfOk, Ok};
ghost use Rattle.wf_doc.specs.Doc.{as_list, as_table, as_text};
ghost use Rattle.wf_fields.specs.Fields.{is_absent_or};
ghost use Rattle.wf_rest.specs.Bodies as spec;

use crate::faulting::HttpFault;
use std::alloc::Global;
use wf_doc::{Doc, Text};
use wf_fields::{
    Form, as_count, given, is_absent, is_absent_or_formed, is_absent_or_number, is_formed,
    table_in, text_in,
};
use wf_steps::Call;

/// The start that a body describes.
pub fn start_of(alloc: Global, doc: &Doc) -> Result<Call, HttpFault>
    ensures ok { IfOk result (λ call. spec.start_of doc.now ≡ Ok call) }
    ensures err { IfErr result (λ fault. fault ≢ HttpFault.NoMemory → spec.start_of doc.now ≡ Err fault) }
{
    if !is_start(doc) {
        return Err(HttpFault::BadBody);
    }
    Ok(Call::Start {
        name: Text::new(alloc, text_in(doc, "name"))?,
        version: version_in(doc),
        input: table_in(alloc, doc, "input")?,
        correlation: Text::new(alloc, text_in(doc, "correlationId"))?,
    })
}

fn is_start(doc: &Doc) -> bool
    ensures { result ≡ spec.is_start doc.now }
{
    is_table(doc)
        && is_formed(doc, "name", Form::AText)
        && is_absent_or_number(doc, "version", 1, 2_147_483_647)
        && is_absent_or_formed(doc, "correlationId", Form::AText)
        && is_absent_or_formed(doc, "input", Form::ATable)
        && is_absent_or_empty(doc, "taskToDomain")
        && is_absent(doc, "workflowDef")
        && is_absent_or_empty(doc, "externalInputPayloadStoragePath")
}

pub fn is_table(doc: &Doc) -> bool
    ensures { result ≡ spec.is_table doc.now }
{
    doc.as_table().is_some()
}

fn version_in(doc: &Doc) -> Option<u32>
    ensures { result ≡ spec.version_in doc.now }
{
    as_count(given(doc, "version")?)
}

pub fn is_absent_or_empty(doc: &Doc, key: &str) -> bool
    ensures { result ≡ is_absent_or spec.is_empty_value key.now doc.now }
{
    match given(doc, key) {
        Some(value) => is_empty_value(value),
        None => true,
    }
}

/// An empty text, list or table.
fn is_empty_value(value: &Doc) -> bool
    ensures { result ≡ spec.is_empty_value value.now }
{
    is_empty_text(value) || is_empty_list(value) || is_empty_table(value)
}

fn is_empty_text(value: &Doc) -> bool
    ensures { result ≡ spec.is_empty (as_text value.now) }
{
    match value.as_text() {
        Some(text) => text.as_str().is_empty(),
        None => false,
    }
}

fn is_empty_list(value: &Doc) -> bool
    ensures { result ≡ spec.is_empty (as_list value.now) }
{
    match value.as_list() {
        Some(items) => items.as_slice().is_empty(),
        None => false,
    }
}

fn is_empty_table(value: &Doc) -> bool
    ensures { result ≡ spec.is_empty (as_table value.now) }
{
    match value.as_table() {
        Some(fields) => fields.entries().is_empty(),
        None => false,
    }
}
