//! Values as texts.

ghost use Rattle.std.specs.Prelude.{◌≡◌, IfOk};
ghost use Rattle.wf_expr.specs.Filling as spec;

use std::alloc::Global;
use wf_doc::{Doc, NoMemory, Text, print};

/// The text of a value: empty for null, `true` or `false`, the decimal digits of a number, a text itself, and what is
/// printed for a list or a table.
pub fn text_of(alloc: Global, doc: &Doc) -> Result<Text, NoMemory>
    ensures { IfOk result (λ text. text ≡ spec.text_of doc.now) }
{
    match doc {
        Doc::Null => Text::new(alloc, ""),
        Doc::Text(text) => text.copy(alloc),
        _ => print(alloc, doc),
    }
}
