//! Documents.

ghost use Rattle.std.specs.Prelude.{◌≡◌, ◌+◌, ◌-◌, ◌≤◌, ◌^◌, ◌↔◌, min, length, IfOk, IsTrue, MatchOption};
ghost use Rattle.std.specs.Option.{option_copied};
ghost use Rattle.wf_doc.specs.Doc as spec;

use crate::fields::Fields;
use crate::no_memory::NoMemory;
use crate::text::Text;
use sqlite_items::Items;
use std::alloc::Global;

/// A JSON value whose numbers are whole and fit 64 signed bits. A table has each key once, its keys in the order of
/// their bytes.
#[derive(Drop)]
pub enum Doc {
    Null,
    Bool(bool),
    Int(i64),
    Text(Text),
    List(Items<Doc>),
    Table(Fields<Doc>),
}

impl Doc {
    pub fn is_null(&self) -> bool
        ensures { IsTrue result ↔ (self.now ≡ Doc.Null) }
    {
        matches!(self, Doc::Null)
    }

    pub fn as_bool(&self) -> Option<bool>
        ensures { result ≡ spec.as_bool self.now }
    {
        match self {
            Doc::Bool(b) => Some(*b),
            _ => None,
        }
    }

    pub fn as_int(&self) -> Option<i64>
        ensures { result ≡ spec.as_int self.now }
    {
        match self {
            Doc::Int(n) => Some(*n),
            _ => None,
        }
    }

    pub fn as_text(&self) -> Option<&Text>
        ensures { option_copied result ≡ spec.as_text self.now }
    {
        match self {
            Doc::Text(text) => Some(text),
            _ => None,
        }
    }

    pub fn as_list(&self) -> Option<&Items<Doc>>
        ensures { option_copied result ≡ spec.as_list self.now }
    {
        match self {
            Doc::List(items) => Some(items),
            _ => None,
        }
    }

    pub fn as_table(&self) -> Option<&Fields<Doc>>
        ensures { option_copied result ≡ spec.as_table self.now }
    {
        match self {
            Doc::Table(fields) => Some(fields),
            _ => None,
        }
    }

    /// The value at the key of a table.
    pub fn field(&self, key: &str) -> Option<&Doc>
        ensures { option_copied result ≡ spec.field key.now self.now }
    {
        self.as_table()?.get(key)
    }
}

/// How deep lists and tables nest, at most the type's last value. Takes no memory.
pub fn depth(doc: &Doc) -> u32
    ensures { result ≡ min (spec.depth doc.now) (2 ^ 32 - 1) }
{
    match doc {
        Doc::Null | Doc::Bool(_) | Doc::Int(_) | Doc::Text(_) => 0,
        Doc::List(items) => {
            let mut most = 0u32;
            for item in items.as_slice() {
                most = most.max(depth(item));
            }
            most.saturating_add(1)
        }
        Doc::Table(fields) => {
            let mut most = 0u32;
            for entry in fields.entries() {
                most = most.max(depth(entry.value()));
            }
            most.saturating_add(1)
        }
    }
}

/// An equal document, whose tables hold the same entries.
#[cycle(copy)]
pub fn copy(alloc: Global, doc: &Doc) -> Result<Doc, NoMemory>
    ensures { IfOk result (λ made. made ≡ doc.now) }
{
    match doc {
        Doc::Null => Ok(Doc::Null),
        Doc::Bool(b) => Ok(Doc::Bool(*b)),
        Doc::Int(n) => Ok(Doc::Int(*n)),
        Doc::Text(text) => Ok(Doc::Text(text.copy(alloc)?)),
        Doc::List(items) => Ok(Doc::List(copy_items(alloc, items)?)),
        Doc::Table(fields) => Ok(Doc::Table(fields.share(alloc)?)),
    }
}

#[cycle(copy)]
fn copy_items(alloc: Global, items: &Items<Doc>) -> Result<Items<Doc>, NoMemory>
    ensures { IfOk result (λ made. made ≡ items.now) }
{
    let mut made = Items::new(alloc);
    for item in items.as_slice() {
        made.push(copy(alloc, item)?)?;
    }
    Ok(made)
}
