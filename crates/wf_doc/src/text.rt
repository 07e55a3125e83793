//! Texts.

ghost use Rattle.std.specs.Prelude.{◌≡◌, ◌↔◌, IfOk, IsTrue, IsUtf8, string_bytes};

use crate::no_memory::NoMemory;
use std::alloc::Global;
use std::marker::Model;
use std::sync::Arc;

/// A text in UTF-8, seen as the list of its bytes.
#[derive(Drop)]
pub struct Text {
    held: Held,
}

#[derive(Drop)]
enum Held {
    /// By this text alone.
    Own(String),
    /// By equal texts together.
    Shared(Arc<String, Global>),
}

impl Model for Text {
    ghost use Rattle.std.specs.Prelude.{List, ℕ};
    ghost use Rattle.wf_doc.specs.Text.{held_bytes};

    ghost Value = { List ℕ };

    ghost view = { λ t. held_bytes t.held };
}

impl Text {
    pub fn new(alloc: Global, text: &str) -> Result<Text, NoMemory>
        ensures { IfOk result (λ made. made ≡ text.now) }
    {
        Ok(Text::from_string(String::from_str(alloc, text)?))
    }

    /// Takes no memory.
    pub fn from_string(inner: String) -> Text
        ensures { result ≡ string_bytes inner }
    {
        Text {
            held: Held::Own(inner),
        }
    }

    pub fn as_str(&self) -> &str
        ensures bytes { result.now ≡ self.now }
        ensures utf8 { IsUtf8 self.now }
    {
        match &self.held {
            Held::Own(text) => text.as_str(),
            Held::Shared(text) => text.as_str(),
        }
    }

    /// An equal text. The copies of a copy share its bytes.
    pub fn copy(&self, alloc: Global) -> Result<Text, NoMemory>
        ensures { IfOk result (λ made. made ≡ self.now) }
    {
        match &self.held {
            Held::Own(text) => copied(alloc, text.as_str()),
            Held::Shared(text) => Ok(Text {
                held: Held::Shared(Arc::try_clone(text)?),
            }),
        }
    }

    /// Whether these are its bytes.
    pub fn is(&self, other: &str) -> bool
        ensures { IsTrue result ↔ (self.now ≡ other.now) }
    {
        self.as_str() == other
    }
}

/// A text that its copies share. An empty one takes no memory.
fn copied(alloc: Global, text: &str) -> Result<Text, NoMemory>
    ensures { IfOk result (λ made. made ≡ text.now) }
{
    let copy = String::from_str(alloc, text)?;
    if copy.is_empty() {
        return Ok(Text::from_string(copy));
    }
    Ok(Text {
        held: Held::Shared(Arc::new(alloc, copy)?),
    })
}
