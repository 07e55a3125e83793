//! The messages of a source, one by one.

ghost use Rattle.std.specs.Prelude.{◌≡◌, ◌+◌, ◌≤◌, ◌<◌, ℕ, List, IfOk, length};
ghost use Rattle.wf_wire.specs.Stream.{Rose};
ghost use Rattle.wf_wire.specs.Inbox.{empty_inbox};
ghost use Rattle.wf_wire.specs.Items.{IsNext, Coming, OnMessage};
ghost use Rattle.wf_wire.specs.MessageReading.{IsEnded};
ghost use Rattle.wf_wire.specs.declared.inbox.Next.TheVariants.{ReadFault};

use crate::errors::NoMemory;
use crate::limits::Limits;
use crate::message::Message;
use crate::receive::{Received, receive};
use crate::source::Source;
use httparse::spans::{EMPTY_HEADER_SPAN, HeaderSpan};
use std::alloc::Global;
use std::marker::Model;

/// A field takes at least three bytes of a head, so that the longest head has no more fields than this.
const SPANS: usize = 5462;

/// Bytes that came and weren't given yet, with the place where heads are parsed.
#[derive(Drop)]
pub struct Inbox {
    held: Vec<u8>,
    offset: u64,
    spans: Vec<HeaderSpan>,
}

impl Model for Inbox {
    ghost use Rattle.std.specs.Prelude.{◌≤◌, length};
    ghost use Rattle.wf_wire.specs.Inbox.{InboxState};

    ghost Value = { InboxState };

    ghost view = { λ i. record { offset = i.offset; held = i.held.items } };

    ghost invariant = { λ i. 5462 ≤ length i.spans.items };
}

impl Inbox {
    /// An inbox for an input of which nothing was read.
    pub fn new(alloc: Global) -> Result<Inbox, NoMemory>
        ensures { IfOk result (λ inbox. inbox ≡ empty_inbox) }
    {
        let spans = vec![in alloc; EMPTY_HEADER_SPAN; SPANS]?;
        Ok(Inbox {
            held: Vec::new(alloc),
            offset: 0,
            spans,
        })
    }
}

/// The next message of an input, or why there is none. A number is the offset in the input at which the message began.
#[derive(Drop)]
pub enum Next {
    Message(Message),
    /// The input ends after a whole message, or has no byte.
    End,
    /// The input ends inside a message.
    Cut(u64),
    /// No head can come of these bytes, or one whose fields don't tell where the body ends.
    BadFrame(u64),
    /// The body has a transfer coding, and none is read.
    BadCoding(u64),
    /// The head has more bytes or more fields than the limits let it have.
    LargeHead(u64),
    /// The body has more bytes than the limits let it have.
    LargeBody(u64),
    /// The input reached its limit before another whole message.
    LongInput,
    /// A read failed before the message was whole.
    ReadFault,
    NoMemory,
}

fn end_of(held: &[u8], cap: u64, offset: u64) -> Next
    ensures { IsEnded held.now cap offset result }
{
    if cap == 0 {
        Next::LongInput
    } else if held.is_empty() {
        Next::End
    } else {
        Next::Cut(offset)
    }
}

/// Reads the next message, and no more of the source than that takes.
///
/// Where the answer is no message, the inbox isn't used again.
pub fn next_message<S: Source>(
    alloc: Global,
    inbox: &mut Inbox,
    source: &mut S,
    limits: &Limits,
) -> Next
    requires within { inbox.old.offset + length inbox.old.held ≤ limits.now.input }
    ensures next { Coming inbox.old.held (S.left source.old) inbox.new.held (S.left source.new)
        (λ p left p'. IsNext limits.now inbox.old.offset p left result inbox.new.offset p') }
    ensures within { OnMessage result (inbox.new.offset + length inbox.new.held ≤ limits.now.input) }
    ensures count { S.faults source.old ≤ S.faults source.new }
    ensures cause { result ≡ ReadFault → Rose (S.faults source.old) (S.faults source.new) }
{
    let offset = inbox.offset;
    let mut cap = limits.input - offset - inbox.held.len() as u64;
    match receive(
        alloc,
        &mut inbox.held,
        source,
        &mut cap,
        inbox.spans.as_mut_slice(),
        limits,
    ) {
        Received::Whole(head, body) => {
            inbox.offset = limits.input - cap - inbox.held.len() as u64;
            Next::Message(Message::new(offset, head, body))
        }
        Received::Ended => end_of(inbox.held.as_slice(), cap, offset),
        Received::BadFrame => Next::BadFrame(offset),
        Received::BadCoding => Next::BadCoding(offset),
        Received::LargeHead => Next::LargeHead(offset),
        Received::LargeBody => Next::LargeBody(offset),
        Received::Failed => Next::ReadFault,
        Received::NoMemory => Next::NoMemory,
    }
}
