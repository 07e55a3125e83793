//! Messages.

ghost use Rattle.std.specs.Prelude.{◌≡◌, IsUtf8};
ghost use Rattle.wf_wire.specs.Request.{field_of, found as found_in, closes as closes_of};
ghost use Rattle.wf_wire.specs.MessageReading.{request_of};

use crate::close::closing;
use crate::fields::{Field, FieldLook, find_field};
use std::marker::Model;

/// The parts of a request's head.
#[derive(Drop)]
pub struct Head {
    pub method: Vec<u8>,
    pub target: Vec<u8>,
    pub minor: u8,
    pub fields: Vec<Field>,
}

/// A request with its body, and where in the input it began.
#[derive(Drop)]
pub struct Message {
    offset: u64,
    head: Head,
    body: Vec<u8>,
}

impl Model for Message {
    ghost use Rattle.std.specs.Prelude.{IsUtf8};
    ghost use Rattle.wf_wire.specs.Request.{Request};
    ghost use Rattle.wf_wire.specs.Reading.{pairs};

    ghost Value = { Request };

    ghost view = { λ m. record {
      offset = m.offset;
      method = m.head.method.items;
      target = m.head.target.items;
      minor = m.head.minor;
      fields = pairs m.head.fields.items;
      body = m.body.items;
    } };

    ghost invariant = { λ m. IsUtf8 m.head.target.items };
}

impl Message {
    pub(crate) fn new(offset: u64, head: Head, body: Vec<u8>) -> Message
        requires { IsUtf8 head.target.items }
        ensures { result ≡ request_of offset head body.items }
    {
        Message { offset, head, body }
    }

    /// How many bytes of the input stood before the head.
    pub fn offset(&self) -> u64
        ensures { result ≡ self.now.offset }
    {
        self.offset
    }

    pub fn method(&self) -> &[u8]
        ensures { result.now ≡ self.now.method }
    {
        self.head.method.as_slice()
    }

    /// The request's target as it came: no escape is resolved.
    pub fn target(&self) -> &[u8]
        ensures target { result.now ≡ self.now.target }
        ensures text { IsUtf8 result.now }
    {
        self.head.target.as_slice()
    }

    /// The field of this name, in any case of its letters.
    pub fn field(&self, name: &str) -> FieldLook<'_>
        ensures { found_in result ≡ field_of name.now self.now }
    {
        find_field(&self.head.fields, name.as_bytes())
    }

    pub fn body(&self) -> &[u8]
        ensures { result.now ≡ self.now.body }
    {
        self.body.as_slice()
    }

    /// Whether the connection ends after this message: it is HTTP/1.0, or a Connection field holds the token `close`.
    pub fn closes(&self) -> bool
        ensures { result ≡ closes_of self.now }
    {
        closing(self.head.minor, &self.head.fields)
    }
}
