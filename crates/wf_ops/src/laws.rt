//! Laws of what operators do, each the contract of a function that does nothing.

ghost use Rattle.std.specs.Prelude.{◌≡◌, ◌≢◌, ◌≤◌, ◌+◌, ◌∷◌, ◌++◌, ◌↔◌, ℕ, true, false, length, slice_get, List, None, Option, Some};
ghost use Rattle.wf_doc.specs.declared.doc.Doc.{Doc};
ghost use Rattle.wf_names.specs.declared.ids.TaskNo.{TaskNo};
ghost use Rattle.wf_wire.specs.declared.limits.Limits.{Limits};
ghost use Rattle.wf_machine.specs.Operators.{first_refusal, is_last, pause_refusals, paused, rerun, rerun_refusals, restarted, resume_refusals, resumed, retried, retry_refusals, skip_refusals, skipped, superseded, terminated};
ghost use Rattle.wf_machine.specs.Records.{IsMoment, IsRecord};
ghost use Rattle.wf_machine.specs.State.{Attempt, Flow, RisingFrom, RisingTo};
ghost use Rattle.wf_flow.specs.Last.{greatest};
ghost use Rattle.wf_ops.specs.Laws.{is_to_redo};

/// Where numbers rise, the last attempt of its node and iteration is the one of the greatest number, of those that
/// aren't superseded.
pub fn the_last_has_the_greatest_number()
    ensures { (low : ℕ) (before : List Attempt) (a : Attempt) (rest : List Attempt) → RisingFrom low (before ++ a ∷ rest)
        → (is_last a rest ≡ true) ↔ (greatest a.node a.iteration (before ++ a ∷ rest) ≡ Some a) }
{}

/// A retry takes away the last attempts that weren't successful, and those that ended the flow; it leaves all others as
/// they are, also those that were successful in other branches.
pub fn a_retry_takes_away_what_failed()
    ensures taken { (e : ℕ) (f : Flow) (before : List Attempt) (a : Attempt) (rest : List Attempt) → f.attempts ≡ before ++ a ∷ rest
        → RisingFrom 1 f.attempts → greatest a.node a.iteration f.attempts ≡ Some a → is_to_redo f.def a ≡ true
        → slice_get (retried e f).attempts (length before) ≡ Some (superseded a) }
    ensures successful { (e : ℕ) (f : Flow) (before : List Attempt) (a : Attempt) (rest : List Attempt) → f.attempts ≡ before ++ a ∷ rest
        → is_to_redo f.def a ≡ false → slice_get (retried e f).attempts (length before) ≡ Some a }
    ensures earlier { (e : ℕ) (f : Flow) (before : List Attempt) (a : Attempt) (rest : List Attempt) → f.attempts ≡ before ++ a ∷ rest
        → RisingFrom 1 f.attempts → greatest a.node a.iteration f.attempts ≢ Some a
        → slice_get (retried e f).attempts (length before) ≡ Some a }
{}

/// A call that isn't refused leaves a flow that can be kept.
pub fn what_is_left_can_be_kept()
    ensures pause { (f : Flow) → first_refusal (pause_refusals f) ≡ None → IsRecord f → IsRecord (paused f) }
    ensures resume { (f : Flow) → first_refusal (resume_refusals f) ≡ None → IsRecord f → IsRecord (resumed f) }
    ensures terminate { (e : ℕ) (reason : List ℕ) (f : Flow) → IsMoment e → IsRecord f → IsRecord (terminated e reason f) }
    ensures restart { (e : ℕ) (f : Flow) → IsMoment e → IsRecord f → IsRecord (restarted e f) }
    ensures retry { (e : ℕ) (f : Flow) → first_refusal (retry_refusals f) ≡ None → IsMoment e → IsRecord f → IsRecord (retried e f) }
    ensures rerun { (e : ℕ) (task : TaskNo) (input : Option Doc) (f : Flow) → first_refusal (rerun_refusals task f) ≡ None → IsMoment e → IsRecord f
        → IsRecord (rerun e task input f) }
    ensures skip { (limits : Limits) (e : ℕ) (reference : List ℕ) (input output : Doc) (number : TaskNo) (f : Flow)
        → first_refusal (skip_refusals limits reference number.0 f) ≡ None → IsRecord f → IsRecord (skipped e reference input output number f) }
{}

/// Numbers go on rising, and stay below those that are left.
pub fn numbers_go_on_rising()
    ensures terminate { (low high e : ℕ) (reason : List ℕ) (f : Flow) → RisingTo low high f.attempts → RisingTo low high (terminated e reason f).attempts }
    ensures retry { (low high e : ℕ) (f : Flow) → RisingTo low high f.attempts → RisingTo low high (retried e f).attempts }
    ensures rerun { (low high e : ℕ) (task : TaskNo) (input : Option Doc) (f : Flow) → RisingTo low high f.attempts
        → RisingTo low high (rerun e task input f).attempts }
    ensures skip { (low high e : ℕ) (reference : List ℕ) (input output : Doc) (number : TaskNo) (f : Flow)
        → RisingTo low high f.attempts → high ≤ number.0 → RisingTo low (number.0 + 1) (skipped e reference input output number f).attempts }
{}
