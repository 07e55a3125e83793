//! All messages of an input.

ghost use Rattle.std.specs.Prelude.{◌≡◌, ◌≤◌};
ghost use Rattle.wf_wire.specs.Stream.{Rose};
ghost use Rattle.wf_wire.specs.Items.{AllRead};
ghost use Rattle.wf_wire.specs.declared.inbox.Next.TheVariants.{ReadFault};

use crate::inbox::{Inbox, Next, next_message};
use crate::limits::Limits;
use crate::message::Message;
use crate::source::Source;
use std::alloc::Global;

/// The messages of an input, in their order, and the answer after the last.
#[derive(Drop)]
pub struct Items {
    pub messages: Vec<Message>,
    pub end: Next,
}

/// Reads the whole input at once, for tests and for small inputs.
pub fn all_messages<S: Source>(alloc: Global, source: &mut S, limits: &Limits) -> Items
    ensures items { AllRead limits.now (S.left source.old) (S.left source.new) result.messages.items result.end }
    ensures count { S.faults source.old ≤ S.faults source.new }
    ensures cause { result.end ≡ ReadFault → Rose (S.faults source.old) (S.faults source.new) }
{
    let mut messages = Vec::new(alloc);
    let mut inbox = match Inbox::new(alloc) {
        Ok(inbox) => inbox,
        Err(_) => return Items {
            messages,
            end: Next::NoMemory,
        },
    };
    for _ in 0..u64::MAX {
        match next_message(alloc, &mut inbox, source, limits) {
            Next::Message(message) => if messages.push(message).is_err() {
                return Items {
                    messages,
                    end: Next::NoMemory,
                };
            }
            end => return Items { messages, end },
        }
    }
    Items {
        messages,
        end: Next::NoMemory,
    }
}
