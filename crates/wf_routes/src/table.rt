//! The table of paths and methods.

ghost use Rattle.std.specs.Prelude.{◌≡◌};
ghost use Rattle.wf_routes.specs.Asked.{allow_text, called};
ghost use Rattle.wf_routes.specs.Table.{method_text, path_row, row_shown};

/// What a request asks for.
#[derive(Clone, Copy, Debug, PartialEq, Eq)]
pub enum Route {
    PutTaskDefs,
    UpdateTaskDef,
    TaskDefs,
    TaskDefNamed,
    DropTaskDef,
    AddFlowDef,
    PutFlowDefs,
    FlowDefs,
    FlowDefNamed,
    DropFlowDef,
    /// A start that its body describes.
    Start,
    /// A start of the workflow that the path names; the body is its input.
    StartNamed,
    GetFlow,
    Terminate,
    Remove,
    Pause,
    Resume,
    Restart,
    Retry,
    Rerun,
    Decide,
    Skip,
    /// The numbers of a workflow's running flows.
    Running,
    Poll,
    PollBatch,
    GetTask,
    Update,
    Sweep,
    Shutdown,
}

/// A method that some path has.
#[derive(Clone, Copy, Debug, PartialEq, Eq)]
pub enum Method {
    Delete,
    Get,
    Post,
    Put,
}

impl Method {
    /// The name of the method in a request (RFC 9110).
    pub fn text(&self) -> &'static str
        ensures { result.now ≡ method_text self.now }
    {
        match self {
            Method::Delete => "DELETE",
            Method::Get => "GET",
            Method::Post => "POST",
            Method::Put => "PUT",
        }
    }
}

/// A method of a path, and what it asks for there.
#[derive(Clone, Copy, Debug, PartialEq, Eq)]
pub struct Call(pub Method, pub Route);

/// A path of the table.
#[derive(Clone, Copy, Debug, PartialEq, Eq)]
pub enum Path {
    AdminShutdown,
    AdminSweep,
    TaskDefName,
    TaskDefList,
    FlowDefVersion,
    FlowDefName,
    FlowDefList,
    TaskPollBatch,
    TaskPoll,
    Task,
    Tasks,
    FlowDecide,
    FlowRunning,
    FlowPause,
    FlowRemove,
    FlowRerun,
    FlowRestart,
    FlowResume,
    FlowRetry,
    FlowSkipTask,
    Flow,
    Flows,
}

/// What the table says of a path.
#[derive(Drop)]
pub struct Row {
    /// The path, in which `{name}` stands for any segment that is not empty.
    pub pattern: &'static str,
    /// The methods of the path as the field `Allow` lists them.
    pub allow: &'static str,
    /// What each method asks for, in alphabetical order of the methods.
    pub calls: &'static [Call],
}

impl Row {
    fn new(pattern: &'static str, allow: &'static str, calls: &'static [Call]) -> Row
        ensures pattern { result.pattern.now ≡ pattern.now }
        ensures allow { result.allow.now ≡ allow.now }
        ensures calls { result.calls.now ≡ calls.now }
    {
        Row {
            pattern,
            allow,
            calls,
        }
    }
}

impl Path {
    /// Each path once. Of two paths, the earlier has no parameter at the first segment where their
    /// patterns differ.
    pub const ALL: [Path; 22] = [
        Path::AdminShutdown,
        Path::AdminSweep,
        Path::TaskDefName,
        Path::TaskDefList,
        Path::FlowDefVersion,
        Path::FlowDefName,
        Path::FlowDefList,
        Path::TaskPollBatch,
        Path::TaskPoll,
        Path::Task,
        Path::Tasks,
        Path::FlowDecide,
        Path::FlowRunning,
        Path::FlowPause,
        Path::FlowRemove,
        Path::FlowRerun,
        Path::FlowRestart,
        Path::FlowResume,
        Path::FlowRetry,
        Path::FlowSkipTask,
        Path::Flow,
        Path::Flows,
    ];

    /// What the table says of the path.
    pub fn row(&self) -> Row
        ensures { row_shown result ≡ path_row self.now }
    {
        match self {
            Path::AdminShutdown => Row::new(
                "/api/admin/shutdown",
                "POST",
                &[Call(Method::Post, Route::Shutdown)],
            ),
            Path::AdminSweep => Row::new(
                "/api/admin/sweep",
                "POST",
                &[Call(Method::Post, Route::Sweep)],
            ),
            Path::TaskDefName => Row::new(
                "/api/metadata/taskdefs/{name}",
                "DELETE, GET",
                &[
                    Call(Method::Delete, Route::DropTaskDef),
                    Call(Method::Get, Route::TaskDefNamed),
                ],
            ),
            Path::TaskDefList => Row::new(
                "/api/metadata/taskdefs",
                "GET, POST, PUT",
                &[
                    Call(Method::Get, Route::TaskDefs),
                    Call(Method::Post, Route::PutTaskDefs),
                    Call(Method::Put, Route::UpdateTaskDef),
                ],
            ),
            Path::FlowDefVersion => Row::new(
                "/api/metadata/workflow/{name}/{version}",
                "DELETE",
                &[Call(Method::Delete, Route::DropFlowDef)],
            ),
            Path::FlowDefName => Row::new(
                "/api/metadata/workflow/{name}",
                "GET",
                &[Call(Method::Get, Route::FlowDefNamed)],
            ),
            Path::FlowDefList => Row::new(
                "/api/metadata/workflow",
                "GET, POST, PUT",
                &[
                    Call(Method::Get, Route::FlowDefs),
                    Call(Method::Post, Route::AddFlowDef),
                    Call(Method::Put, Route::PutFlowDefs),
                ],
            ),
            Path::TaskPollBatch => Row::new(
                "/api/tasks/poll/batch/{type}",
                "GET",
                &[Call(Method::Get, Route::PollBatch)],
            ),
            Path::TaskPoll => Row::new(
                "/api/tasks/poll/{type}",
                "GET",
                &[Call(Method::Get, Route::Poll)],
            ),
            Path::Task => Row::new(
                "/api/tasks/{task}",
                "GET",
                &[Call(Method::Get, Route::GetTask)],
            ),
            Path::Tasks => Row::new("/api/tasks", "POST", &[Call(Method::Post, Route::Update)]),
            Path::FlowDecide => Row::new(
                "/api/workflow/decide/{key}",
                "PUT",
                &[Call(Method::Put, Route::Decide)],
            ),
            Path::FlowRunning => Row::new(
                "/api/workflow/running/{key}",
                "GET",
                &[Call(Method::Get, Route::Running)],
            ),
            Path::FlowPause => Row::new(
                "/api/workflow/{key}/pause",
                "PUT",
                &[Call(Method::Put, Route::Pause)],
            ),
            Path::FlowRemove => Row::new(
                "/api/workflow/{key}/remove",
                "DELETE",
                &[Call(Method::Delete, Route::Remove)],
            ),
            Path::FlowRerun => Row::new(
                "/api/workflow/{key}/rerun",
                "POST",
                &[Call(Method::Post, Route::Rerun)],
            ),
            Path::FlowRestart => Row::new(
                "/api/workflow/{key}/restart",
                "POST",
                &[Call(Method::Post, Route::Restart)],
            ),
            Path::FlowResume => Row::new(
                "/api/workflow/{key}/resume",
                "PUT",
                &[Call(Method::Put, Route::Resume)],
            ),
            Path::FlowRetry => Row::new(
                "/api/workflow/{key}/retry",
                "POST",
                &[Call(Method::Post, Route::Retry)],
            ),
            Path::FlowSkipTask => Row::new(
                "/api/workflow/{key}/skiptask/{ref}",
                "PUT",
                &[Call(Method::Put, Route::Skip)],
            ),
            Path::Flow => Row::new(
                "/api/workflow/{key}",
                "DELETE, GET, POST",
                &[
                    Call(Method::Delete, Route::Terminate),
                    Call(Method::Get, Route::GetFlow),
                    Call(Method::Post, Route::StartNamed),
                ],
            ),
            Path::Flows => Row::new("/api/workflow", "POST", &[Call(Method::Post, Route::Start)]),
        }
    }

    /// The methods of the path, as the field `Allow` lists them.
    pub fn allow(&self) -> &'static str
        ensures { result.now ≡ allow_text (path_row self.now).calls }
    {
        self.row().allow
    }

    /// What a method asks for at the path. Methods are compared byte for byte.
    pub fn route(&self, method: &[u8]) -> Option<Route>
        ensures { result ≡ called (path_row self.now).calls method.now }
    {
        called(self.row().calls, method)
    }
}

fn called(calls: &[Call], method: &[u8]) -> Option<Route>
    ensures { result ≡ called calls.now method.now }
{
    for call in calls {
        if call.0.text().as_bytes() == method {
            return Some(call.1);
        }
    }
    None
}
