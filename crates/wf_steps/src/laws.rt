//! Laws of steps, over every state. The functions do nothing: their contracts are the laws.

ghost use Rattle.std.specs.Prelude.{◌≡◌, ℕ, false};
ghost use Rattle.wf_machine.specs.State.{State};
ghost use Rattle.wf_steps.specs.declared.calling.Call.{Call};
ghost use Rattle.wf_steps.specs.declared.calling.Entry.{Entry};
ghost use Rattle.wf_steps.specs.Calls.{call_made, is_starved, step, stepped};
ghost use Rattle.wf_steps.specs.History.{stored};
ghost use Rattle.wf_wire.specs.declared.limits.Limits.{Limits};

/// Where an entry stands in its history changes revisions alone: from states that are stored alike a step leaves states
/// that are stored alike, with the same reply.
pub fn places_change_revisions_alone()
    ensures { (limits : Limits) (p q : ℕ) (s t : State) (entry : Entry) → stored s ≡ stored t
        → stepped (stored (step limits p s entry).state) (step limits p s entry).reply
        ≡ stepped (stored (step limits q t entry).state) (step limits q t entry).reply }
{}

/// No call of the machine itself answers that memory is wanting.
pub fn calls_are_answered()
    ensures { (limits : Limits) (place e : ℕ) (call : Call) (s : State) → is_starved (call_made limits place e call s).reply ≡ false }
{}
