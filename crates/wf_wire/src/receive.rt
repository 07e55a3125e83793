//! Reading one message.

ghost use Rattle.std.specs.Prelude.{◌≡◌, ◌+◌, ◌*◌, ◌≤◌, ◌<◌, IfOk, length, map};
ghost use Rattle.std.specs.List.{All};
ghost use Rattle.httparse.specs.Spans.{IsWithin, IsHeaderWithin, IsRequestWithin, header_bytes, span_bytes};
ghost use Rattle.wf_wire.specs.Stream.{Rose};
ghost use Rattle.wf_wire.specs.Reading.{pair, pairs};
ghost use Rattle.wf_wire.specs.MessageReading.{IsCopy, IsTaken, IsReceived};
ghost use Rattle.wf_wire.specs.declared.receive.Received.TheVariants.{Failed as ReceiveFailed};

use crate::fields::Field;
use crate::framing::{Frame, framing};
use crate::limits::Limits;
use crate::message::Head;
use crate::reader::{Got, HeadWatch, get_bytes, watch_head, window};
use crate::source::Source;
use httparse::spans::{HeaderSpan, RequestSpans, Span};
use std::alloc::{AllocError, Global};

/// What reading a message comes to.
#[derive(Drop)]
pub enum Received {
    Whole(Head, Vec<u8>),
    Ended,
    BadFrame,
    BadCoding,
    LargeHead,
    LargeBody,
    Failed,
    NoMemory,
}

fn copy_span(alloc: Global, buf: &[u8], span: Span) -> Result<Vec<u8>, AllocError>
    requires { IsWithin (length buf.now) span }
    ensures { IfOk result (λ v. v.items ≡ span_bytes buf.now span) }
{
    Vec::from_slice(alloc, span.of(buf))
}

fn read_field(alloc: Global, buf: &[u8], span: HeaderSpan) -> Result<Field, AllocError>
    requires { IsHeaderWithin (length buf.now) span }
    ensures { IfOk result (λ f. pair f ≡ header_bytes buf.now span) }
{
    let name = copy_span(alloc, buf, span.name)?;
    let value = copy_span(alloc, buf, span.value)?;
    Ok(Field { name, value })
}

fn read_fields(alloc: Global, buf: &[u8], spans: &[HeaderSpan]) -> Result<Vec<Field>, AllocError>
    requires { All (IsHeaderWithin (length buf.now)) spans.now }
    ensures { IfOk result (λ fs. pairs fs.items ≡ map (header_bytes buf.now) spans.now) }
{
    let mut fields = Vec::new(alloc);
    for span in spans {
        let field = read_field(alloc, buf, *span)?;
        if fields.push(field).is_err() {
            return Err(AllocError);
        }
    }
    Ok(fields)
}

fn read_head(
    alloc: Global,
    buf: &[u8],
    spans: RequestSpans,
    room: &[HeaderSpan],
) -> Result<Head, AllocError>
    requires { IsRequestWithin buf.now room.now spans }
    ensures { IfOk result (λ head. IsCopy buf.now room.now spans head) }
{
    let method = copy_span(alloc, buf, spans.method)?;
    let target = copy_span(alloc, buf, spans.path)?;
    let fields = read_fields(alloc, buf, &room[..spans.headers])?;
    Ok(Head {
        method,
        target,
        minor: spans.version,
        fields,
    })
}

fn take_body(
    alloc: Global,
    held: &mut Vec<u8>,
    len: usize,
    size: usize,
) -> Result<Vec<u8>, AllocError>
    requires { len + size ≤ length held.old.items }
    ensures { IfOk result (λ body. IsTaken held.old.items len size body.items held.new.items) }
{
    let body = Vec::from_slice(alloc, &held[len..len + size])?;
    held.drain(..len + size);
    Ok(body)
}

/// Reads the message at the front of the held bytes and those that come, at most `cap`.
///
/// Its bytes stay held until all of them are there, so that after a failed read all that was taken stands in `held`.
pub fn receive<S: Source>(
    alloc: Global,
    held: &mut Vec<u8>,
    source: &mut S,
    cap: &mut u64,
    spans: &mut [HeaderSpan],
    limits: &Limits,
) -> Received
    requires { limits.now.head < 3 * length spans.old }
    ensures read { IsReceived limits.now held.old.items (S.left source.old) cap.old held.new.items (S.left source.new) cap.new result }
    ensures count { S.faults source.old ≤ S.faults source.new }
    ensures cause { result ≡ ReceiveFailed → Rose (S.faults source.old) (S.faults source.new) }
{
    let found = match watch_head(held, source, cap, spans, limits) {
        HeadWatch::Head(found) => found,
        HeadWatch::Bad => return Received::BadFrame,
        HeadWatch::Large => return Received::LargeHead,
        HeadWatch::Ended => return Received::Ended,
        HeadWatch::Failed => return Received::Failed,
        HeadWatch::NoMemory => return Received::NoMemory,
    };
    let head = match read_head(alloc, window(held.as_slice(), limits.head), found, spans) {
        Ok(head) => head,
        Err(_) => return Received::NoMemory,
    };
    let size = match framing(&head.fields, head.minor, limits.body) {
        Frame::Sized(size) => size,
        Frame::BadFrame => return Received::BadFrame,
        Frame::BadCoding => return Received::BadCoding,
        Frame::LargeBody => return Received::LargeBody,
    };
    match get_bytes(held, source, cap, found.len as u64 + size as u64) {
        Got::All => match take_body(alloc, held, found.len, size as usize) {
            Ok(body) => Received::Whole(head, body),
            Err(_) => Received::NoMemory,
        },
        Got::Ended => Received::Ended,
        Got::Failed => Received::Failed,
        Got::NoMemory => Received::NoMemory,
    }
}
