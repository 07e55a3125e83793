//! The statuses of tasks and of workflows, and the words that print them.

ghost use Rattle.std.specs.Prelude.{◌≡◌, ◌↔◌, Some};
ghost use Rattle.wf_names.specs.FlowStatus.{flow_is_open, flow_is_terminal, flow_status_named, flow_status_text};
ghost use Rattle.wf_names.specs.TaskStatus.{task_is_open, task_is_successful, task_is_terminal, task_status_named, task_status_text};

/// The status of one attempt at a task.
#[derive(Clone, Copy, Debug, PartialEq, Eq)]
pub enum TaskStatus {
    /// Waiting to be handed out to a worker.
    Scheduled,
    /// Handed out to a worker, or held open by the server itself.
    InProgress,
    Completed,
    /// Failed at an optional node, where the workflow goes on.
    CompletedWithErrors,
    /// Left out on an operator's word.
    Skipped,
    Failed,
    /// Failed, and not to be retried.
    FailedWithTerminalError,
    TimedOut,
    /// Open when its workflow ended.
    Canceled,
}

impl TaskStatus {
    const ALL: [TaskStatus; 9] = [
        TaskStatus::Scheduled,
        TaskStatus::InProgress,
        TaskStatus::Completed,
        TaskStatus::CompletedWithErrors,
        TaskStatus::Skipped,
        TaskStatus::Failed,
        TaskStatus::FailedWithTerminalError,
        TaskStatus::TimedOut,
        TaskStatus::Canceled,
    ];

    /// The word that prints the status, as `IN_PROGRESS`.
    pub fn text(&self) -> &'static str
        ensures { result.now ≡ task_status_text self.now }
    {
        match self {
            TaskStatus::Scheduled => "SCHEDULED",
            TaskStatus::InProgress => "IN_PROGRESS",
            TaskStatus::Completed => "COMPLETED",
            TaskStatus::CompletedWithErrors => "COMPLETED_WITH_ERRORS",
            TaskStatus::Skipped => "SKIPPED",
            TaskStatus::Failed => "FAILED",
            TaskStatus::FailedWithTerminalError => "FAILED_WITH_TERMINAL_ERROR",
            TaskStatus::TimedOut => "TIMED_OUT",
            TaskStatus::Canceled => "CANCELED",
        }
    }

    /// The status that a word names, in capitals as `text` prints it; `None` for any other text.
    pub fn read(text: &str) -> Option<TaskStatus>
        ensures value { result ≡ task_status_named text.now }
        ensures exact { (status : TaskStatus) →
            (result ≡ Some status) ↔ (text.now ≡ task_status_text status) }
    {
        for status in TaskStatus::ALL.into_iter() {
            if status.text() == text {
                return Some(status);
            }
        }
        None
    }

    /// Whether the attempt goes on.
    pub fn is_open(&self) -> bool
        ensures { result ≡ task_is_open self.now }
    {
        matches!(self, TaskStatus::Scheduled | TaskStatus::InProgress)
    }

    /// Whether the attempt has ended, in whatever way.
    pub fn is_terminal(&self) -> bool
        ensures { result ≡ task_is_terminal self.now }
    {
        !self.is_open()
    }

    /// Whether the attempt has ended and lets the workflow go on.
    pub fn is_successful(&self) -> bool
        ensures { result ≡ task_is_successful self.now }
    {
        matches!(
            self,
            TaskStatus::Completed | TaskStatus::CompletedWithErrors | TaskStatus::Skipped
        )
    }
}

/// The status of a workflow.
#[derive(Clone, Copy, Debug, PartialEq, Eq)]
pub enum FlowStatus {
    Running,
    /// Held by an operator: what is handed out is finished, and nothing new begins.
    Paused,
    Completed,
    Failed,
    TimedOut,
    /// Ended by an operator, by its parent's end or by a node that says so.
    Terminated,
}

impl FlowStatus {
    const ALL: [FlowStatus; 6] = [
        FlowStatus::Running,
        FlowStatus::Paused,
        FlowStatus::Completed,
        FlowStatus::Failed,
        FlowStatus::TimedOut,
        FlowStatus::Terminated,
    ];

    /// The word that prints the status, as `TIMED_OUT`.
    pub fn text(&self) -> &'static str
        ensures { result.now ≡ flow_status_text self.now }
    {
        match self {
            FlowStatus::Running => "RUNNING",
            FlowStatus::Paused => "PAUSED",
            FlowStatus::Completed => "COMPLETED",
            FlowStatus::Failed => "FAILED",
            FlowStatus::TimedOut => "TIMED_OUT",
            FlowStatus::Terminated => "TERMINATED",
        }
    }

    /// The status that a word names, in capitals as `text` prints it; `None` for any other text.
    pub fn read(text: &str) -> Option<FlowStatus>
        ensures value { result ≡ flow_status_named text.now }
        ensures exact { (status : FlowStatus) →
            (result ≡ Some status) ↔ (text.now ≡ flow_status_text status) }
    {
        for status in FlowStatus::ALL.into_iter() {
            if status.text() == text {
                return Some(status);
            }
        }
        None
    }

    /// Whether the workflow goes on.
    pub fn is_open(&self) -> bool
        ensures { result ≡ flow_is_open self.now }
    {
        matches!(self, FlowStatus::Running | FlowStatus::Paused)
    }

    /// Whether the workflow has ended, in whatever way.
    pub fn is_terminal(&self) -> bool
        ensures { result ≡ flow_is_terminal self.now }
    {
        !self.is_open()
    }
}
