//! What workers tell, and the replies to calls.

use wf_doc::{Doc, Text};
use wf_names::{IdKind, Refusal, TaskStatus};

/// What a worker tells of an attempt. The status is IN_PROGRESS, COMPLETED, FAILED or FAILED_WITH_TERMINAL_ERROR.
#[derive(Drop)]
pub struct TaskResult {
    pub status: TaskStatus,
    pub output: Doc,
    /// Empty where nothing is said.
    pub reason: Text,
    /// Seconds until an attempt that goes on is handed out again.
    pub callback: u32,
    /// Who worked on it, where that is told.
    pub worker: Option<Text>,
}

#[derive(Drop)]
pub enum Reply {
    Accepted,
    Id(IdKind, u64),
    Json(Doc),
    /// There is nothing to hand out or to do.
    Nothing,
    Refused(Refusal),
}
