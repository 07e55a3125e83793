//! Heads at the front of bytes.

ghost use Rattle.std.specs.Prelude.{◌<◌, ◌*◌, length};
ghost use Rattle.wf_wire.specs.Reading.{IsLook};

use crate::target::ends_in_target;
use httparse::Status;
use httparse::spans::{HeaderSpan, RequestSpans, parse_request};

/// What the bytes so far begin with.
#[derive(Clone, Copy)]
pub enum HeadLook {
    Head(RequestSpans),
    Open,
    Bad,
    Large,
}

/// Looks at the first bytes for a head of at most `most` fields.
///
/// There is room for all the fields that so many bytes can hold, so that the parser judges the bytes behind the last allowed field too.
pub fn find_head(buf: &[u8], room: &mut [HeaderSpan], most: u32) -> HeadLook
    requires { length buf.now < 3 * length room.old }
    ensures { IsLook most buf.now room.new result }
{
    match parse_request(buf, room) {
        Ok(Status::Complete(head)) => if head.headers > most as usize {
            HeadLook::Large
        } else {
            HeadLook::Head(head)
        },
        Ok(Status::Partial) => HeadLook::Open,
        Err(_) => if ends_in_target(buf) {
            HeadLook::Open
        } else {
            HeadLook::Bad
        },
    }
}
