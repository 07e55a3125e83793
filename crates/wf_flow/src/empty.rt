//! Empty documents and texts, which take no memory.

ghost use Rattle.std.specs.Prelude.{◌≡◌, []};
ghost use Rattle.wf_machine.specs.State.{empty_table as table};

use std::alloc::Global;
use wf_doc::{Doc, Fields, Text};

/// The table without keys.
pub fn empty_table(alloc: Global) -> Doc
    ensures { result ≡ table }
{
    Doc::Table(Fields::new(alloc))
}

/// The text without bytes.
pub fn empty_text(alloc: Global) -> Text
    ensures { result ≡ [] }
{
    Text::from_string(String::new(alloc))
}
