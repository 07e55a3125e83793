//! Laws of whole histories. The functions do nothing: their contracts are the laws.
#![tactic(auto)]

ghost use Rattle.std.specs.Prelude.{◌≡◌, ◌+◌, ℕ, All, List, ◌∷◌, None, Some, true};
ghost use Rattle.wf_defs.specs.FlowReading.{flow_definition};
ghost use Rattle.wf_defs.specs.FlowRules.{flow_rule};
ghost use Rattle.wf_doc.specs.declared.doc.Doc.{Doc};
ghost use Rattle.wf_laws.specs.HandOuts.{HandsOut, is_told_on};
ghost use Rattle.wf_laws.specs.Sound.{BringsFitLoops, HasFitLoops, IsLater, IsSound};
ghost use Rattle.wf_machine.specs.Flows.{flow_numbered};
ghost use Rattle.wf_machine.specs.State.{Kept, State, new_state};
ghost use Rattle.wf_steps.specs.declared.calling.Entry.{Entry};
ghost use Rattle.wf_names.specs.declared.ids.FlowNo.{FlowNo};
ghost use Rattle.wf_names.specs.declared.ids.TaskNo.{TaskNo};
ghost use Rattle.wf_rules.specs.Loops.{LoopsFit};
ghost use Rattle.wf_steps.specs.Calls.{IsProper, settle, step};
ghost use Rattle.wf_steps.specs.History.{state_from};
ghost use Rattle.wf_wire.specs.declared.limits.Limits.{Limits};

/// A new store is sound, each step leaves a sound state sound, and so does every history.
pub fn sound_stays()
    ensures first { (mark : ℕ) → IsSound (new_state mark) }
    ensures later { (limits : Limits) (place : ℕ) (s : State) (entry : Entry) → IsSound s → IsSound (step limits place s entry).state }
    ensures always { (limits : Limits) (before : ℕ) (s : State) (history : List Entry) → IsSound s →
        IsSound (state_from limits before s history) }
{}

/// Numbers are given once: no history gives one that was given before, and what was removed or left behind doesn't come back.
pub fn numbers_are_given_once()
    ensures { (limits : Limits) (before : ℕ) (s : State) (history : List Entry) → IsSound s → IsLater s (state_from limits before s history) }
{}

/// The loops of a new store fit, as it has none, and a step whose call registers workflows with fit loops alone leaves them so:
/// so does every history of such calls.
pub fn loops_stay_fit()
    ensures first { (mark : ℕ) → HasFitLoops (new_state mark) }
    ensures later { (limits : Limits) (place : ℕ) (s : State) (entry : Entry) → HasFitLoops s → BringsFitLoops entry.call →
        HasFitLoops (step limits place s entry).state }
    ensures always { (limits : Limits) (before : ℕ) (s : State) (history : List Entry) → HasFitLoops s →
        All (λ (x : Entry). BringsFitLoops x.call) history → HasFitLoops (state_from limits before s history) }
{}

/// Between two hand-outs of one attempt stands an accepted update that tells that it goes on.
pub fn handed_once()
    ensures { (limits : Limits) (before : ℕ) (s : State) (first second : Entry) (between : List Entry) (task : TaskNo) →
        IsSound s → All (λ (x : Entry). IsProper x.call) between →
        HandsOut s first task → HandsOut (state_from limits before s (first ∷ between)) second task →
        is_told_on limits (before + 1) (step limits (before + 1) s first).state between task ≡ true }
{}

/// A flow that was decided has nothing more to be decided at that moment: a second decision leaves the state.
pub fn decided_once()
    ensures { (limits : Limits) (place again e : ℕ) (number : FlowNo) (s : State) (k l : Kept) → IsSound s →
        flow_numbered number s.flows ≡ Some k → LoopsFit k.flow.def.nodes →
        flow_numbered number (settle limits place e k.flow s).flows ≡ Some l →
        settle limits again e l.flow (settle limits place e k.flow s) ≡ settle limits place e k.flow s }
{}

/// The loops of a valid definition fit: each has a body, none stands in another, and no two begin with one node.
pub fn valid_loops_fit()
    ensures { (most : ℕ) (d : Doc) → flow_rule most d ≡ None → LoopsFit (flow_definition most d).nodes }
{}
