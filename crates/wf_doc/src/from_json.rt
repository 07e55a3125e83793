//! JSON values as documents.

ghost use Rattle.std.specs.Prelude.{◌≡◌, Some, None, IfOk, IfErr};
ghost use Rattle.serde_json.specs.View.{view, items_view, members_view};
ghost use Rattle.wf_doc.specs.Json.{doc_of, docs_of, entries_of};
ghost use Rattle.wf_doc.specs.declared.from_json.Unread.TheVariants.{Numbers};

use crate::doc::Doc;
use crate::fields::Fields;
use crate::no_memory::NoMemory;
use crate::text::Text;
use serde_json::{Map, Value};
use sqlite_items::Items;
use std::alloc::{AllocError, Global};

/// Why a JSON value is no document.
#[derive(Drop)]
pub enum Unread {
    Numbers,
    Memory,
}

impl From<NoMemory> for Unread {
    ghost use Rattle.std.specs.Prelude.{◌≡◌};
    ghost use Rattle.wf_doc.specs.declared.from_json.Unread.TheVariants.{Memory};

    ghost from_gives = { λ _ e. e ≡ Memory };

    fn from(_refused: NoMemory) -> Unread {
        Unread::Memory
    }
}

impl From<AllocError> for Unread {
    ghost use Rattle.std.specs.Prelude.{◌≡◌};
    ghost use Rattle.wf_doc.specs.declared.from_json.Unread.TheVariants.{Memory};

    ghost from_gives = { λ _ e. e ≡ Memory };

    fn from(_refused: AllocError) -> Unread {
        Unread::Memory
    }
}

/// The document that a JSON value is, where its numbers are whole and of 64 signed bits.
#[cycle(from)]
pub fn from_value(alloc: Global, value: &Value) -> Result<Doc, Unread>
    ensures ok { IfOk result (λ d. doc_of (view value.now) ≡ Some d) }
    ensures err { IfErr result (λ e. e ≡ Numbers → doc_of (view value.now) ≡ None) }
{
    match value {
        Value::Null => Ok(Doc::Null),
        Value::Bool(b) => Ok(Doc::Bool(*b)),
        Value::Number(n) => match n.as_i64() {
            Some(n) => Ok(Doc::Int(n)),
            None => Err(Unread::Numbers),
        },
        Value::String(text) => Ok(Doc::Text(Text::new(alloc, text.as_str())?)),
        Value::Array(items) => Ok(Doc::List(from_values(alloc, items.as_slice())?)),
        Value::Object(map) => Ok(Doc::Table(from_map(alloc, map)?)),
    }
}

#[cycle(from)]
fn from_values(alloc: Global, values: &[Value]) -> Result<Items<Doc>, Unread>
    ensures ok { IfOk result (λ ds. docs_of (items_view values.now) ≡ Some ds) }
    ensures err { IfErr result (λ e. e ≡ Numbers → docs_of (items_view values.now) ≡ None) }
{
    let mut made = Items::new(alloc);
    for value in values {
        made.push(from_value(alloc, value)?)?;
    }
    Ok(made)
}

#[cycle(from)]
fn from_map(alloc: Global, map: &Map<String, Value>) -> Result<Fields<Doc>, Unread>
    ensures ok { IfOk result (λ es. entries_of (members_view map.now.entries) ≡ Some es) }
    ensures err { IfErr result (λ e. e ≡ Numbers → entries_of (members_view map.now.entries) ≡ None) }
{
    let mut made = Fields::new(alloc);
    for (key, value) in map.iter() {
        let key = Text::new(alloc, key.as_str())?;
        made.add_last(key, from_value(alloc, value)?)?;
    }
    Ok(made)
}
