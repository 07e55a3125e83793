//! New attempts, by how they begin.

ghost use Rattle.std.specs.Prelude.{◌≡◌, IfOk};
ghost use Rattle.wf_rules.specs.Scheduling as spec;

use crate::texts::{empty_table, empty_text};
use std::alloc::Global;
use wf_doc::{Doc, Text};
use wf_machine::Node;
use wf_rules::{Begin, Child, NewAttempt, Outcome};
use wf_setting::NoMemory;

/// A node in an iteration, with its filled input.
#[derive(Drop)]
pub struct Start<'n> {
    pub node: &'n Node,
    pub iteration: u32,
    pub input: Doc,
}

impl<'n> Start<'n> {
    /// An attempt that begins so.
    pub fn begin(self, alloc: Global, begin: Begin) -> NewAttempt
        ensures { result ≡ spec.attempt_at self.entry.node.now self.entry.iteration begin self.entry.input }
    {
        NewAttempt {
            node: self.node.index,
            iteration: self.iteration,
            begin,
            input: self.input,
            output: empty_table(alloc),
            reason: empty_text(alloc),
            retry: 0,
            retried: None,
            turn: 0,
            child: Child::Nothing,
        }
    }

    /// An attempt that has failed for good as it is made.
    pub fn fail(self, alloc: Global, reason: &str) -> Result<NewAttempt, NoMemory>
        ensures { IfOk result (λ made. made ≡ spec.failed_at self.entry.node.now self.entry.iteration reason.now self.entry.input) }
    {
        let reason = Text::new(alloc, reason)?;
        Ok(self.fail_with(alloc, reason))
    }

    /// The same for a reason that is a text already.
    pub fn fail_with(self, alloc: Global, reason: Text) -> NewAttempt
        ensures { result ≡ spec.failed_at self.entry.node.now self.entry.iteration reason self.entry.input }
    {
        let begun = self.begin(alloc, Begin::Over(Outcome::FailedWithTerminalError));
        NewAttempt { reason, ..begun }
    }
}
