//! Keys that are set in tables.

ghost use Rattle.std.specs.Prelude.{◌≡◌, IfOk};
ghost use Rattle.wf_doc.specs.Fields.{put};
ghost use Rattle.wf_rules.specs.Outputs as spec;

use std::alloc::Global;
use wf_doc::{Doc, Fields, Text};
use wf_setting::NoMemory;

/// The table with that key, in place of one that it had. What isn't a table counts as an empty one.
pub fn with_key(alloc: Global, key: &str, value: Doc, table: Doc) -> Result<Doc, NoMemory>
    ensures { IfOk result (λ made. made ≡ spec.with_key key.now value table) }
{
    let entries = with_entry(alloc, key, value, entries_of(alloc, table))?;
    Ok(Doc::Table(entries))
}

fn entries_of(alloc: Global, table: Doc) -> Fields<Doc>
    ensures { result ≡ spec.entries_of table }
{
    match table {
        Doc::Table(fields) => fields,
        Doc::Null => Fields::new(alloc),
        Doc::Bool(_) => Fields::new(alloc),
        Doc::Int(_) => Fields::new(alloc),
        Doc::Text(_) => Fields::new(alloc),
        Doc::List(_) => Fields::new(alloc),
    }
}

/// The entries with that key, in place of one that they had.
pub fn with_entry(
    alloc: Global,
    key: &str,
    value: Doc,
    entries: Fields<Doc>,
) -> Result<Fields<Doc>, NoMemory>
    ensures { IfOk result (λ made. made ≡ put key.now value entries) }
{
    let mut made = entries;
    made.set(Text::new(alloc, key)?, value)?;
    Ok(made)
}
