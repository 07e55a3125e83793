//! Nodes as they are written.

ghost use Rattle.std.specs.Prelude.{◌≡◌, IfOk};
ghost use Rattle.std.specs.Option.{option_copied};
ghost use Rattle.wf_defs.specs.Nodes as spec;

use std::alloc::Global;
use wf_doc::{Doc, NoMemory, SharedEntry, Text};
use wf_fields::{given, items_in, text_in};

/// The type: a node that names none is SIMPLE, and one whose type is no text has the empty type.
pub(crate) fn type_of(node: &Doc) -> &str
    ensures { result.now ≡ spec.type_of node.now }
{
    match given(node, "type") {
        Some(value) => match value.as_text() {
            Some(text) => text.as_str(),
            None => "",
        },
        None => "SIMPLE",
    }
}

pub(crate) fn is_type(node: &Doc, name: &str) -> bool
    ensures { result ≡ spec.is_type name.now node.now }
{
    type_of(node) == name
}

pub(crate) fn reference_of(node: &Doc) -> &str
    ensures { result.now ≡ spec.reference_of node.now }
{
    text_in(node, "taskReferenceName")
}

/// The entries of the table in the field, none where there is no table.
pub(crate) fn entries_in<'a>(doc: &'a Doc, key: &str) -> &'a [SharedEntry<Doc>]
    ensures { result.now ≡ spec.entries_in key.now doc.now }
{
    match given(doc, key) {
        Some(value) => entries_of(value),
        None => &[],
    }
}

fn entries_of(doc: &Doc) -> &[SharedEntry<Doc>]
    ensures { result.now ≡ spec.entries_of doc.now }
{
    match doc.as_table() {
        Some(fields) => fields.entries(),
        None => &[],
    }
}

pub(crate) fn cases(node: &Doc) -> &[SharedEntry<Doc>]
    ensures { result.now ≡ spec.cases node.now }
{
    entries_in(node, "decisionCases")
}

pub(crate) fn branches(node: &Doc) -> &[Doc]
    ensures { result.now ≡ spec.branches node.now }
{
    items_in(node, "forkTasks")
}

pub(crate) fn body(node: &Doc) -> &[Doc]
    ensures { result.now ≡ spec.body node.now }
{
    items_in(node, "loopOver")
}

/// The place of a field.
pub(crate) fn field_place(alloc: Global, place: &str, key: &str) -> Result<Text, NoMemory>
    ensures { IfOk result (λ made. made ≡ spec.field_place place.now key.now) }
{
    let mut made = String::from_str(alloc, place)?;
    made.push_str(".")?;
    made.push_str(key)?;
    Ok(Text::from_string(made))
}

/// The place of an item, counted from 0.
pub(crate) fn item_place(alloc: Global, place: &str, n: usize) -> Result<Text, NoMemory>
    ensures { IfOk result (λ made. made ≡ spec.item_place place.now n) }
{
    Ok(Text::from_string(format!(in alloc; "{place}[{n}]")?))
}

/// The item before the n-th.
pub(crate) fn previous(items: &[Doc], n: usize) -> Option<&Doc>
    ensures { option_copied result ≡ spec.previous items.now n }
{
    if n == 0 { None } else { items.get(n - 1) }
}
