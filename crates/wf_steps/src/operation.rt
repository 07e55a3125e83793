//! What operators do to a flow.

use wf_doc::{Doc, Text};
use wf_names::TaskNo;

/// What an operator does to a flow.
#[derive(Drop)]
pub enum Operation {
    /// Ends it for that reason. Its open attempts are canceled.
    Terminate(Text),
    /// Nothing of it is decided until it is resumed.
    Pause,
    /// Lets a paused flow go on.
    Resume,
    /// Lets a flow that has ended begin anew, without its attempts.
    Restart,
    /// Lets a flow that has failed do again what wasn't successful.
    Retry,
    /// Lets a flow that has ended go on from the node of that attempt, with a new input where one is given.
    Rerun(TaskNo, Option<Doc>),
    /// Passes over the node of that reference, as if it had had this input and output.
    Skip {
        reference: Text,
        input: Doc,
        output: Doc,
    },
}
