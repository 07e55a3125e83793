//! What a call changes, made ready before it is done.

ghost use Rattle.std.specs.Prelude.{◌≡◌};

use wf_doc::Text;
use wf_flow::Flow as FlowRecord;
use wf_machine::{FlowDef as Definition, Reply, TaskDef};
use wf_names::FlowNo;

/// What a change touches.
#[derive(Drop)]
pub enum Touched {
    Nothing,
    /// The tasks are registered, one after another.
    TaskDefs(Vec<TaskDef>),
    /// The task of that name is forgotten.
    NoTaskDef(Text),
    /// The workflows are registered, one after another.
    FlowDefs(Vec<Definition>),
    /// The workflow of that name and version is forgotten.
    NoFlowDef(Text, u32),
    /// The flow is kept, under the next number, and then those that it started.
    NewFlow(Decided),
    /// The kept flow of its number becomes this one, and those that it started are kept. Where a name is given, a hand-out
    /// of that name is noted.
    Flow(Decided, Option<Text>),
    /// The same of a flow that begins anew: the attempts that it had are gone.
    FlowAnew(Decided),
    /// The flow of that number is taken out, with its attempts.
    NoFlow(FlowNo),
}

/// A flow as it is from now on.
#[derive(Drop)]
pub struct Decided {
    pub flow: FlowRecord,
    /// The flows that it started, by rising number.
    pub started: Vec<FlowRecord>,
    /// The number of the next attempt from now on.
    pub next_task: u64,
}

/// A change that is ready to be made: what it touches, at which moment, and the reply to the call.
#[derive(Drop)]
pub struct Change {
    pub moment: u64,
    pub touched: Touched,
    pub reply: Reply,
}

impl Change {
    /// The change of a call that changes nothing.
    pub(crate) fn none(reply: Reply) -> Change
        ensures touched { result.touched ≡ Touched.Nothing }
        ensures moment { result.moment ≡ 0 }
        ensures reply { result.reply ≡ reply }
    {
        Change {
            moment: 0,
            touched: Touched::Nothing,
            reply,
        }
    }
}
