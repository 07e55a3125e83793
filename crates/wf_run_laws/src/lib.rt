//! Laws of what requests ask. The functions do nothing: their contracts are the laws.
#![tactic(auto)]

ghost use Rattle.std.specs.Prelude.{◌≡◌, ℕ, All, List, Ok};
ghost use Rattle.wf_laws.specs.Sound.{BringsFitLoops, HasFitLoops};
ghost use Rattle.wf_machine.specs.State.{new_state};
ghost use Rattle.wf_steps.specs.declared.calling.Call.{Call};
ghost use Rattle.wf_steps.specs.declared.calling.Entry.{Entry};
ghost use Rattle.wf_rest.specs.Requests.{request_call};
ghost use Rattle.wf_run_laws.specs.Asking.{IsAsked};
ghost use Rattle.wf_steps.specs.History.{state_after};
ghost use Rattle.wf_wire.specs.Request.{Request};
ghost use Rattle.wf_wire.specs.declared.limits.Limits.{Limits};

/// What a request registers has loops that fit. So the loops of all that is kept fit, after every history of requests from a new
/// store.
pub fn requests_bring_fit_loops()
    ensures one { (limits : Limits) (mark : ℕ) (m : Request) (call : Call) → request_call limits mark m ≡ Ok call → BringsFitLoops call }
    ensures always { (limits : Limits) (mark : ℕ) (history : List Entry) → All (λ (x : Entry). IsAsked limits mark x.call) history →
        HasFitLoops (state_after limits (new_state mark) history) }
{}
