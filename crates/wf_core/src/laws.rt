//! Laws of every history: what clients see over time. The functions do nothing: their contracts are the laws.

ghost use Rattle.std.specs.Prelude.{◌≡◌, ◌+◌, ℕ, false, true, Option, Some};
ghost use Rattle.wf_names.specs.declared.ids.FlowNo.{FlowNo};
ghost use Rattle.wf_names.specs.declared.ids.IdKind.TheVariants as kind;
ghost use Rattle.wf_names.specs.declared.ids.TaskNo.{TaskNo};
ghost use Rattle.wf_names.specs.TaskStatus.{task_is_open};
ghost use Rattle.wf_wire.specs.declared.limits.Limits.{Limits};
ghost use Rattle.wf_machine.specs.Flows.{flow_of_task};
ghost use Rattle.wf_steps.specs.Calls.{is_wanted, step, stepped};
ghost use Rattle.wf_machine.specs.State.{Attempt, Kept, State, attempt_numbered};
ghost use Rattle.wf_steps.specs.declared.calling.Call.{Call};
ghost use Rattle.wf_steps.specs.declared.calling.Entry.{Entry};
ghost use Rattle.wf_machine.specs.declared.calling.Reply.{Reply};
ghost use Rattle.wf_machine.specs.declared.calling.TaskResult.{TaskResult};

pub use wf_laws::{
    decided_once, handed_once, loops_stay_fit, numbers_are_given_once, sound_stays, valid_loops_fit,
};

/// An update of an attempt that has ended leaves the state, and is accepted.
pub fn ended_stays()
    ensures { (limits : Limits) (place caller moment : ℕ) (wanted : Option FlowNo) (task : TaskNo) (outcome : TaskResult) (s : State) (k : Kept) (a : Attempt)
        → flow_of_task task s.flows ≡ Some k → attempt_numbered task k.flow.attempts ≡ Some a → task_is_open a.status ≡ false
        → is_wanted wanted k.flow.number ≡ true
        → step limits place s (record { caller = caller; moment = moment; call = Call.Update wanted task outcome; starved = false })
        ≡ stepped s (Reply.Id kind.Task a.number.0) }
{}
