//! The keys of rows.

ghost use Rattle.std.specs.Prelude.{◌≡◌, IfOk, IsUtf8};
ghost use Rattle.std.specs.Char.{IsAsciiAlphabetic};
ghost use Rattle.wf_keeper.specs.Keys.{key_cmp};

use crate::no_memory::NoMemory;
use std::alloc::{AllocError, Global};
use std::cmp::Ordering;
use std::marker::Model;

/// The key of a row: its kind, which is an ASCII letter, and a text. Keys are ordered by kind, and then by the bytes of
/// their texts.
#[derive(Debug, Drop)]
pub struct RowKey {
    kind: u8,
    text: String,
}

impl Model for RowKey {
    ghost use Rattle.std.specs.Prelude.{string_bytes};
    ghost use Rattle.std.specs.Char.{IsAsciiAlphabetic};
    ghost use Rattle.wf_keeper.specs.Keys.{Key};

    ghost Value = { Key };

    ghost view = { λ k. record { kind = k.kind; text = string_bytes k.text } };

    ghost invariant = { λ k. IsAsciiAlphabetic k.kind };
}

impl Clone for RowKey {
    ghost is_clone = { λ key copy. copy ≡ key };

    fn clone(&self) -> Result<RowKey, AllocError> {
        Ok(RowKey {
            kind: self.kind,
            text: self.text.clone()?,
        })
    }
}

impl RowKey {
    /// Whether a byte is a letter is what `is_ascii_alphabetic` tells.
    pub fn new(alloc: Global, kind: u8, key: &str) -> Result<RowKey, NoMemory>
        requires { IsAsciiAlphabetic kind }
        ensures { IfOk result (λ made. made ≡ record { kind = kind; text = key.now }) }
    {
        Ok(RowKey {
            kind,
            text: String::from_str(alloc, key)?,
        })
    }

    /// The kind.
    pub fn kind(&self) -> u8
        ensures kind { result ≡ self.now.kind }
        ensures letter { IsAsciiAlphabetic self.now.kind }
    {
        self.kind
    }

    /// The text.
    pub fn key(&self) -> &str
        ensures text { result.now ≡ self.now.text }
        ensures utf8 { IsUtf8 self.now.text }
    {
        self.text.as_str()
    }

    /// How this key stands to the other one.
    pub fn compare(&self, other: &RowKey) -> Ordering
        ensures { result ≡ key_cmp self.now other.now }
    {
        match self.kind.cmp(&other.kind) {
            Ordering::Equal => self.text.as_str().cmp(other.text.as_str()),
            unequal => unequal,
        }
    }
}
