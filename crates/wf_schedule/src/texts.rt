//! Small documents, and the texts of values in a table.

ghost use Rattle.std.specs.Prelude.{◌≡◌, ◌++◌, [], IfOk};
ghost use Rattle.wf_doc.specs.Doc.{field};
ghost use Rattle.wf_doc.specs.declared.doc.Doc.TheVariants.{Table};
ghost use Rattle.wf_expr.specs.Filling.{text_of_any};
ghost use Rattle.wf_rules.specs.Outputs.{with_key};

use std::alloc::Global;
use wf_doc::{Doc, Fields, Text};
use wf_expr::text_of;
use wf_setting::NoMemory;

pub fn empty_table(alloc: Global) -> Doc
    ensures { result ≡ Table [] }
{
    Doc::Table(Fields::new(alloc))
}

/// The table with that key alone.
pub fn table_of(alloc: Global, key: &str, value: Doc) -> Result<Doc, NoMemory>
    ensures { IfOk result (λ table. table ≡ with_key key.now value (Table [])) }
{
    let mut fields = Fields::new(alloc);
    fields.set(Text::new(alloc, key)?, value)?;
    Ok(Doc::Table(fields))
}

pub fn empty_text(alloc: Global) -> Text
    ensures { result ≡ [] }
{
    Text::from_string(String::new(alloc))
}

/// One text after the other.
pub fn joined(alloc: Global, first: &str, second: &str) -> Result<Text, NoMemory>
    ensures { IfOk result (λ text. text ≡ first.now ++ second.now) }
{
    let mut text = String::new(alloc);
    text.push_str(first)?;
    text.push_str(second)?;
    Ok(Text::from_string(text))
}

/// The text of the value behind the key: empty where there is none.
pub fn text_at(alloc: Global, key: &str, doc: &Doc) -> Result<Text, NoMemory>
    ensures { IfOk result (λ text. text ≡ text_of_any (field key.now doc.now)) }
{
    match doc.field(key) {
        Some(value) => Ok(text_of(alloc, value)?),
        None => Ok(empty_text(alloc)),
    }
}
