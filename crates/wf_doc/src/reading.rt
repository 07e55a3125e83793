//! Bytes to documents.

ghost use Rattle.std.specs.Prelude.{◌≡◌, ◌≢◌, ◌≤◌, ◌⊎◌, Some, None, Ok, Err, IfOk, IfErr};
ghost use Rattle.serde_json.specs.View.{view};
ghost use Rattle.wf_doc.specs.Read as spec;
ghost use Rattle.wf_doc.specs.Scan.{first_fault, outside};

use crate::doc;
use crate::doc::Doc;
use crate::from_json::{Unread, from_value};
use crate::scan::{DocFault, first_fault};
use serde_json::{Category, Value};
use std::alloc::Global;

/// The document that the bytes are, its lists and tables nested at most so deep: 0 for a scalar, 1 for an empty list.
/// The grammar is that of RFC 8259, and a repeated key keeps its last value.
pub fn read(alloc: Global, bytes: &[u8], depth: u32) -> Result<Doc, DocFault>
    requires { depth ≤ 127 }
    ensures ok { IfOk result (λ made. spec.read bytes.now depth ≡ Ok made) }
    ensures err { IfErr result (λ fault. fault ≢ DocFault.NoMemory → spec.read bytes.now depth ≡ Err fault) }

    // Each JSON text without a bad number token is a document.
    ensures syntax { result ≡ Err DocFault.Syntax → spec.json_of bytes.now ≡ None }
{
    if let Some(fault) = first_fault(bytes) {
        return Err(fault);
    }
    let made = read_document(alloc, bytes)?;
    if doc::depth(&made) > depth {
        return Err(DocFault::TooDeep);
    }
    Ok(made)
}

fn read_document(alloc: Global, bytes: &[u8]) -> Result<Doc, DocFault>
    requires { first_fault outside bytes.now ≡ None }
    ensures ok { IfOk result (λ made. spec.document bytes.now ≡ Some made) }
    ensures err { IfErr result (λ fault. fault ≢ DocFault.NoMemory
        → (fault ≡ DocFault.Syntax) × (spec.json_of bytes.now ≡ None)) }
{
    let value = read_json(alloc, bytes)?;
    match from_value(alloc, &value) {
        Ok(made) => Ok(made),
        Err(Unread::Memory) => Err(DocFault::NoMemory),
        // It never comes: the scan has found no such number.
        Err(Unread::Numbers) => Err(DocFault::Syntax),
    }
}

fn read_json(alloc: Global, bytes: &[u8]) -> Result<Value, DocFault>
    ensures ok { IfOk result (λ value. spec.json_of bytes.now ≡ Some (view value)) }
    ensures err { IfErr result (λ fault. fault ≢ DocFault.NoMemory
        → (fault ≡ DocFault.Syntax) × (spec.json_of bytes.now ≡ None)) }
{
    match Value::from_slice(alloc, bytes) {
        Ok(value) => Ok(value),
        Err(e) => match e.classify() {
            Category::Memory => Err(DocFault::NoMemory),
            _ => Err(DocFault::Syntax),
        },
    }
}
