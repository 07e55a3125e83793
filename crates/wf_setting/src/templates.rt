//! What templates add to a document.

ghost use Rattle.std.specs.Prelude.{◌≡◌, if◌then◌else◌, is_some, IfOk};
ghost use Rattle.wf_doc.specs.Fields.{get, put};
ghost use Rattle.wf_machine.specs.Naming as spec;

use crate::no_memory::NoMemory;
use std::alloc::Global;
use wf_doc::{Doc, Fields, SharedEntry};

/// The table with the keys of a template that it lacks, unfilled. What isn't a table stays as it is.
pub fn with_template(alloc: Global, template: &Doc, doc: Doc) -> Result<Doc, NoMemory>
    ensures { IfOk result (λ made. made ≡ spec.with_template template.now doc) }
{
    match doc {
        Doc::Table(fields) => Ok(Doc::Table(with_keys(alloc, template, fields)?)),
        other => Ok(other),
    }
}

/// The entries with those of the template whose keys they lack, where the template is a table.
fn with_keys(alloc: Global, template: &Doc, fields: Fields<Doc>) -> Result<Fields<Doc>, NoMemory>
    ensures { IfOk result (λ made. Doc.Table made ≡ spec.with_template template.now (Doc.Table fields)) }
{
    match template.as_table() {
        Some(missing) => with_missing(alloc, missing.entries(), fields),
        None => Ok(fields),
    }
}

fn with_missing(
    alloc: Global,
    missing: &[SharedEntry<Doc>],
    fields: Fields<Doc>,
) -> Result<Fields<Doc>, NoMemory>
    ensures { IfOk result (λ made. made ≡ spec.with_missing missing.now fields) }
{
    let mut made = fields;
    for entry in missing {
        made = with_entry(alloc, entry, made)?;
    }
    Ok(made)
}

/// The entries with this one, where they lack its key.
fn with_entry(
    alloc: Global,
    entry: &SharedEntry<Doc>,
    fields: Fields<Doc>,
) -> Result<Fields<Doc>, NoMemory>
    ensures { IfOk result (λ made. made
        ≡ (if is_some (get entry.now.key fields) then fields else put entry.now.key entry.now.value fields)) }
{
    let mut made = fields;
    if made.get(entry.key().as_str()).is_some() {
        return Ok(made);
    }
    made.set(
        entry.key().copy(alloc)?,
        wf_doc::copy(alloc, entry.value())?,
    )?;
    Ok(made)
}
