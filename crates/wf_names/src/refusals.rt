//! Why a call is refused: a code for programs, an HTTP status and a message for people.

ghost use Rattle.std.specs.Prelude.{◌≡◌};
ghost use Rattle.wf_names.specs.Refusal.{refusal_code, refusal_message, refusal_status};

/// Why a call is refused. A refused call has changed nothing.
#[derive(Clone, Copy, Debug, PartialEq, Eq)]
pub enum Refusal {
    /// The name, number or reference names nothing.
    NotFound,
    /// That name and version is registered already.
    Exists,
    NotRunning,
    NotPaused,
    /// The workflow is still open.
    NotTerminal,
    /// The workflow ended well, so that nothing is to be retried.
    WasCompleted,
    /// The workflow ended well and its definition forbids a restart.
    NotRestartable,
    /// The workflow was started by another, which decides over it.
    IsChild,
    /// No rerun may begin at this task.
    NotRerunnable,
    /// The task to be skipped was scheduled already.
    AlreadyScheduled,
    /// The server alone ends a task of this type.
    NotUpdatable,
    /// The store holds its limit of workflows, or the numbers are used up.
    StoreFull,
    /// The workflow holds its limit of attempts, or the numbers are used up.
    AttemptLimit,
    /// A document is longer than its limit.
    DocumentLimit,
    NoMemory,
}

// What is answered for a refusal.
#[derive(Drop)]
struct Row {
    code: &'static str,
    status: u16,
    message: &'static str,
}

impl Row {
    fn new(code: &'static str, status: u16, message: &'static str) -> Row
        ensures code { result.code.now ≡ code.now }
        ensures status { result.status ≡ status }
        ensures message { result.message.now ≡ message.now }
    {
        Row {
            code,
            status,
            message,
        }
    }
}

impl Refusal {
    /// The code that names the refusal to a program, as `NOT_FOUND`.
    pub fn code(&self) -> &'static str
        ensures { result.now ≡ refusal_code self.now }
    {
        self.row().code
    }

    /// The status code of the HTTP reply (RFC 9110).
    pub fn status(&self) -> u16
        ensures { result ≡ refusal_status self.now }
    {
        self.row().status
    }

    /// The message for people, in English and without a full stop.
    pub fn message(&self) -> &'static str
        ensures { result.now ≡ refusal_message self.now }
    {
        self.row().message
    }

    fn row(&self) -> Row
        ensures code { result.code.now ≡ refusal_code self.now }
        ensures status { result.status ≡ refusal_status self.now }
        ensures message { result.message.now ≡ refusal_message self.now }
    {
        match self {
            Refusal::NotFound => Row::new("NOT_FOUND", 404, "no such thing"),
            Refusal::Exists => Row::new("EXISTS", 409, "already registered"),
            Refusal::NotRunning => Row::new("NOT_RUNNING", 409, "the workflow is not running"),
            Refusal::NotPaused => Row::new("NOT_PAUSED", 409, "the workflow is not paused"),
            Refusal::NotTerminal => Row::new("NOT_TERMINAL", 409, "the workflow has not ended"),
            Refusal::WasCompleted => Row::new("WAS_COMPLETED", 409, "the workflow was completed"),
            Refusal::NotRestartable => Row::new(
                "NOT_RESTARTABLE",
                409,
                "the workflow is not restartable",
            ),
            Refusal::IsChild => Row::new("IS_CHILD", 409, "the workflow is a child"),
            Refusal::NotRerunnable => Row::new("NOT_RERUNNABLE", 409, "no rerun from this task"),
            Refusal::AlreadyScheduled => Row::new(
                "ALREADY_SCHEDULED",
                409,
                "the task was scheduled",
            ),
            Refusal::NotUpdatable => Row::new("NOT_UPDATABLE", 409, "the task takes no update"),
            Refusal::StoreFull => Row::new("STORE_FULL", 409, "the store is full"),
            Refusal::AttemptLimit => Row::new("ATTEMPT_LIMIT", 409, "too many attempts"),
            Refusal::DocumentLimit => Row::new("DOCUMENT_LIMIT", 409, "the document is too large"),
            Refusal::NoMemory => Row::new("NO_MEMORY", 500, "no memory"),
        }
    }
}
