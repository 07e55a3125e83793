//! Documents as text.

ghost use Rattle.std.specs.Prelude.{◌≡◌, IfOk};
ghost use Rattle.serde_json.specs.View.{view};
ghost use Rattle.wf_doc.specs.Json.{data_of, printed};

use crate::doc::Doc;
use crate::no_memory::NoMemory;
use crate::text::Text;
use serde_json::{Map, Value};
use std::alloc::Global;

/// The JSON value that a document is.
fn to_value(alloc: Global, doc: &Doc) -> Result<Value, NoMemory>
    ensures { IfOk result (λ v. view v ≡ data_of doc.now) }
{
    match doc {
        Doc::Null => Ok(Value::Null),
        Doc::Bool(b) => Ok(Value::Bool(*b)),
        Doc::Int(n) => Ok(Value::from(*n)),
        Doc::Text(text) => Ok(Value::String(String::from_str(alloc, text.as_str())?)),
        Doc::List(items) => {
            let mut made = Vec::new(alloc);
            for item in items.as_slice() {
                made.push(to_value(alloc, item)?)?;
            }
            Ok(Value::Array(made))
        }
        Doc::Table(fields) => {
            let mut made = Map::new(alloc);
            for entry in fields.entries() {
                let key = String::from_str(alloc, entry.key().as_str())?;
                let member = to_value(alloc, entry.value())?;
                drop(made.insert(key, member)?);
            }
            Ok(Value::Object(made))
        }
    }
}

/// The compact text of a document: no spaces, the keys of a table in the order of their bytes, and in texts the
/// short escapes of RFC 8259, else `\u00` and two lower-case digits for a character below U+0020.
pub fn print(alloc: Global, doc: &Doc) -> Result<Text, NoMemory>
    ensures { IfOk result (λ text. text ≡ printed doc.now) }
{
    let value = to_value(alloc, doc)?;
    let text = value.to_string(alloc)?;
    Ok(Text::from_string(text))
}
