//! Bytes in, bytes out, and the time of day: sources, sinks and clocks as traits with a written meaning, and the messages of an
//! input of HTTP/1.0 and 1.1 (RFC 9112).
//!
//! [`next_message`] reads a source piece by piece, however it cuts its bytes, and answers the next message or how the input ends.
//! What these are is said of the whole input, in `specs/Items.antt`. [`write_all`] gives bytes to a sink.
#![tactic(auto)]

mod adapters;
mod calls;
mod clock;
mod close;
mod errors;
mod fields;
mod framing;
mod head;
mod inbox;
mod items;
pub mod laws;
mod limits;
mod memory;
mod message;
mod reader;
mod receive;
mod sink;
mod source;
mod target;

pub use adapters::{ReadSource, SystemClock, WriteSink};
pub use clock::{Clock, FixedClock};
pub use errors::{Failed, NoMemory};
pub use fields::FieldLook;
pub use inbox::{Inbox, Next, next_message};
pub use items::{Items, all_messages};
pub use limits::Limits;
pub use memory::{MemorySink, MemorySource};
pub use message::Message;
pub use sink::{Sink, write_all};
pub use source::Source;
