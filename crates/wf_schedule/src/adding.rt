//! What a rule does that adds an attempt, within the limits.

ghost use Rattle.std.specs.Prelude.{◌≡◌, [], ◌∷◌, codes, length, nat_le, if◌then◌else◌, IfOk, None, Some};
ghost use Rattle.std.specs.List.{list_any};
ghost use Rattle.wf_doc.specs.declared.doc.Doc.TheVariants.{Table};
ghost use Rattle.wf_rules.specs.declared.acting.Act.TheVariants.{Variables as SetTo};
ghost use Rattle.wf_rules.specs.Outputs as documents;
ghost use Rattle.wf_rules.specs.Scheduling as spec;
ghost use Rattle.wf_schedule.specs.Starting.{no_room};
ghost use Rattle.wf_setting.specs.Setting.{sight_in};

use std::alloc::Global;
use wf_doc::Doc;
use wf_flow::Flow;
use wf_rules::{Act, NewAttempt};
use wf_setting::{Children, NoMemory, Setting, fails, is_too_large, one, two, unless_large};
use wf_wire::Limits;

/// The flow has as many attempts as it may.
#[tactic(auto, unfolding(wf_rules::specs::Sight::sight))]
fn is_full<C: Children>(at: &Setting<C>, flow: &Flow) -> bool
    ensures { result ≡ nat_le at.now.limits.attempts (length (sight_in at.now flow.now.flow).attempts) }
{
    at.limits.attempts as u64 <= flow.len()
}

/// These acts, or the flow fails for want of a place or because a document that they make is too large.
fn unless_full<C: Children>(
    alloc: Global,
    at: &Setting<C>,
    flow: &Flow,
    large: bool,
    acts: Vec<Act>,
) -> Result<Vec<Act>, NoMemory>
    ensures { IfOk result (λ made. made.items
        ≡ (if nat_le at.now.limits.attempts (length (sight_in at.now flow.now.flow).attempts)
        then spec.fails (codes "attempt limit") None
        else (if large then spec.fails (codes "document limit") (Some (Table [])) else acts.items))) }
{
    if is_full(at, flow) {
        return fails(alloc, "attempt limit", None);
    }
    unless_large(alloc, large, acts)
}

/// A document of the attempt is too large.
fn is_attempt_large(limits: &Limits, attempt: &NewAttempt) -> bool
    ensures { result ≡ list_any (documents.is_too_large limits.now) (attempt.now.input ∷ attempt.now.output ∷ []) }
{
    is_too_large(limits, &attempt.input) || is_too_large(limits, &attempt.output)
}

/// A document of the attempt, or these variables, are too large.
fn are_large_with(limits: &Limits, attempt: &NewAttempt, variables: &Doc) -> bool
    ensures { result
        ≡ list_any (documents.is_too_large limits.now) (attempt.now.input ∷ attempt.now.output ∷ variables.now ∷ []) }
{
    is_too_large(limits, &attempt.input)
        || is_too_large(limits, &attempt.output)
        || is_too_large(limits, variables)
}

/// The flow fails because the input is too large, or before that for want of a place.
pub fn refuse_large<C: Children>(
    alloc: Global,
    at: &Setting<C>,
    flow: &Flow,
) -> Result<Vec<Act>, NoMemory>
    ensures { IfOk result (λ acts. acts.items ≡ no_room at.now.limits (sight_in at.now flow.now.flow)) }
{
    unless_full(alloc, at, flow, true, Vec::new(alloc))
}

/// The attempt is added.
pub fn add<C: Children>(
    alloc: Global,
    at: &Setting<C>,
    flow: &Flow,
    attempt: NewAttempt,
) -> Result<Vec<Act>, NoMemory>
    ensures { IfOk result (λ acts. acts.items ≡ spec.adding_one at.now.limits (sight_in at.now flow.now.flow) attempt) }
{
    let large = is_attempt_large(at.limits, &attempt);
    let acts = one(alloc, Act::Add(attempt))?;
    unless_full(alloc, at, flow, large, acts)
}

/// The variables are set, and the attempt is added.
pub fn add_after_variables<C: Children>(
    alloc: Global,
    at: &Setting<C>,
    flow: &Flow,
    variables: Doc,
    attempt: NewAttempt,
) -> Result<Vec<Act>, NoMemory>
    ensures { IfOk result (λ acts. acts.items
        ≡ spec.adding at.now.limits (sight_in at.now flow.now.flow) (variables ∷ []) (SetTo variables ∷ []) attempt []) }
{
    let large = are_large_with(at.limits, &attempt, &variables);
    let acts = two(alloc, Act::Variables(variables), Act::Add(attempt))?;
    unless_full(alloc, at, flow, large, acts)
}

/// The attempt is added, and then that is done.
pub fn add_before<C: Children>(
    alloc: Global,
    at: &Setting<C>,
    flow: &Flow,
    attempt: NewAttempt,
    act: Act,
) -> Result<Vec<Act>, NoMemory>
    ensures { IfOk result (λ acts. acts.items
        ≡ spec.adding at.now.limits (sight_in at.now flow.now.flow) [] [] attempt (act ∷ [])) }
{
    let large = is_attempt_large(at.limits, &attempt);
    let acts = two(alloc, Act::Add(attempt), act)?;
    unless_full(alloc, at, flow, large, acts)
}
