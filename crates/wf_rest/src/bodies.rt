//! The documents of bodies.

ghost use Rattle.std.specs.Prelude.{◌≡◌, ◌≢◌, Err, IfErr, IfOk, Ok};
ghost use Rattle.wf_rest.specs.Bodies.{items_of_body};
ghost use Rattle.wf_rest.specs.Requests as spec;

use crate::faulting::HttpFault;
use std::alloc::Global;
use wf_doc::{Doc, DocFault, Fields, read};
use wf_wire::Limits;

/// The document that a body is. An empty body is none, which is `Syntax`.
pub fn document_of(alloc: Global, limits: &Limits, body: &[u8]) -> Result<Doc, HttpFault>
    ensures ok { IfOk result (λ doc. spec.document_of limits.now body.now ≡ Ok doc) }
    ensures err { IfErr result (λ fault. fault ≢ HttpFault.NoMemory → spec.document_of limits.now body.now ≡ Err fault) }
{
    match read(alloc, body, limits.depth) {
        Ok(doc) => Ok(doc),
        Err(fault) => Err(document_fault(fault)),
    }
}

fn document_fault(fault: DocFault) -> HttpFault
    ensures { result ≡ spec.document_fault fault }
{
    match fault {
        DocFault::Syntax => HttpFault::Syntax,
        DocFault::Fraction => HttpFault::Fraction,
        DocFault::Range => HttpFault::Range,
        DocFault::TooDeep => HttpFault::TooDeep,
        DocFault::NoMemory => HttpFault::NoMemory,
    }
}

/// The items of the list that the body is.
pub fn items_of_body(doc: &Doc) -> Result<&[Doc], HttpFault>
    ensures ok { IfOk result (λ items. items_of_body doc.now ≡ Ok items.now) }
    ensures err { IfErr result (λ fault. items_of_body doc.now ≡ Err fault) }
{
    match doc.as_list() {
        Some(items) => Ok(items.as_slice()),
        None => Err(HttpFault::BadBody),
    }
}

/// The input that a body is, where it is a table: an empty body is the empty table.
pub fn input_of(alloc: Global, limits: &Limits, body: &[u8]) -> Result<Doc, HttpFault>
    ensures ok { IfOk result (λ doc. spec.input_of limits.now body.now ≡ Ok doc) }
    ensures err { IfErr result (λ fault. fault ≢ HttpFault.NoMemory → spec.input_of limits.now body.now ≡ Err fault) }
{
    if body.is_empty() {
        return Ok(Doc::Table(Fields::new(alloc)));
    }
    table_of(document_of(alloc, limits, body)?)
}

fn table_of(doc: Doc) -> Result<Doc, HttpFault>
    ensures ok { IfOk result (λ table. spec.table_of doc ≡ Ok table) }
    ensures err { IfErr result (λ fault. spec.table_of doc ≡ Err fault) }
{
    if doc.as_table().is_some() {
        Ok(doc)
    } else {
        Err(HttpFault::BadBody)
    }
}
