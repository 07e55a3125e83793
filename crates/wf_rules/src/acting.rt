//! What the decider wants done: plain data in which numbers and moments are left open.

use wf_doc::{Doc, Text};
use wf_machine::{FlowDef, Timing};
use wf_names::FlowStatus;

/// How an attempt ends by a rule.
#[derive(Clone, Copy, Debug, PartialEq, Eq)]
pub enum Outcome {
    Completed,
    Failed,
    FailedWithTerminalError,
    TimedOut,
}

/// A deadline that an attempt may pass and stay open.
#[derive(Clone, Copy, Debug, PartialEq, Eq)]
pub enum Alert {
    Poll,
    Total,
}

/// How a new attempt begins. Delays are seconds.
#[derive(Clone, Copy, Debug, PartialEq, Eq)]
pub enum Begin {
    /// SCHEDULED with this timing, ready after the delay.
    Queued(Timing, u32),
    /// IN_PROGRESS, with a deadline after the delay where there is one.
    Held(Option<u32>),
    /// Over as it is made.
    Over(Outcome),
}

/// The flow that a new attempt starts.
#[derive(Drop)]
pub enum Child {
    /// The node starts none.
    Nothing,
    /// A flow of the definition with this input.
    Flow(FlowDef, Doc),
    /// Its input would be too large.
    TooLarge,
    /// The node starts flows, and this attempt none.
    Refused,
}

/// A new attempt.
#[derive(Drop)]
pub struct NewAttempt {
    /// The index of its node.
    pub node: u32,
    pub iteration: u32,
    pub begin: Begin,
    pub input: Doc,
    pub output: Doc,
    pub reason: Text,
    pub retry: u32,
    /// The place in the list of attempts of the one that it retries.
    pub retried: Option<u64>,
    /// Of a DO_WHILE.
    pub turn: u32,
    pub child: Child,
}

/// A part of what a rule does. Attempts are named by their places in the list.
#[derive(Drop)]
pub enum Act {
    /// The attempt is added, under the next number.
    Add(NewAttempt),
    /// The attempt ends, with a new reason and a new output where there are some.
    Close(u64, Outcome, Option<Text>, Option<Doc>),
    /// The attempt stays open with this reason, and the deadline is noted.
    Note(u64, Alert, Text),
    /// The attempt becomes COMPLETED_WITH_ERRORS.
    Forgive(u64),
    /// The DO_WHILE attempt goes on with this output, in this turn.
    Turn(u64, Doc, u32),
    /// The flow has these variables.
    Variables(Doc),
    /// The flow's timeout is noted, with this reason.
    NoteFlow(Text),
    /// The flow ends, with a new reason and a new output where there are some. Its open attempts are canceled.
    End(FlowStatus, Option<Text>, Option<Doc>),
}
