//! What is left of a rule's wish where numbers or places are spent.

ghost use Rattle.std.specs.Prelude.{◌≡◌, ◌||◌, map, IfOk, OnOk};
ghost use Rattle.std.specs.List.{list_any};
ghost use Rattle.wf_rules.specs.Rules as spec;
ghost use Rattle.wf_decide.specs.Allowing.{is_refused};

use crate::room::Room;
use std::alloc::Global;
use wf_doc::Text;
use wf_rules::{Act, Begin, Child, NewAttempt, Outcome};
use wf_setting::{NoMemory, fails};

/// The acts, without a flow for which there is no room. Where no number is left for an attempt the flow fails instead.
pub fn allowed(alloc: Global, room: &Room, acts: Vec<Act>) -> Result<Vec<Act>, NoMemory>
    ensures { IfOk result (λ made. made.items ≡ spec.allowed room.now acts.items) }
{
    if room.spent && adds(acts.as_slice()) {
        return fails(alloc, "numbers spent", None);
    }
    let mut fitted = acts;
    fit_all(alloc, room, fitted.as_mut_slice())?;
    Ok(fitted)
}

fn adds(acts: &[Act]) -> bool
    ensures { result ≡ list_any spec.is_add acts.now }
{
    acts.iter().any(|act| is_add(act))
}

fn is_add(act: &Act) -> bool
    ensures { result ≡ spec.is_add act.now }
{
    match act {
        Act::Add(_) => true,
        Act::Close(_, _, _, _) => false,
        Act::Note(_, _, _) => false,
        Act::Forgive(_) => false,
        Act::Turn(_, _, _) => false,
        Act::Variables(_) => false,
        Act::NoteFlow(_) => false,
        Act::End(_, _, _) => false,
    }
}

fn fit_all(alloc: Global, room: &Room, acts: &mut [Act]) -> Result<(), NoMemory>
    ensures { OnOk result (acts.new ≡ map (spec.fitted room.now) acts.old) }
{
    for act in acts.iter_mut() {
        fit(alloc, room, act)?;
    }
    Ok(())
}

fn fit(alloc: Global, room: &Room, act: &mut Act) -> Result<(), NoMemory>
    ensures { OnOk result (act.new ≡ spec.fitted room.now act.old) }
{
    match act {
        Act::Add(attempt) => fit_child(alloc, room, attempt),
        Act::Close(_, _, _, _) => Ok(()),
        Act::Note(_, _, _) => Ok(()),
        Act::Forgive(_) => Ok(()),
        Act::Turn(_, _, _) => Ok(()),
        Act::Variables(_) => Ok(()),
        Act::NoteFlow(_) => Ok(()),
        Act::End(_, _, _) => Ok(()),
    }
}

#[tactic(auto, using(crate::proofs::AllowLemmas::child_refused, crate::proofs::AllowLemmas::child_left))]
fn fit_child(alloc: Global, room: &Room, attempt: &mut NewAttempt) -> Result<(), NoMemory>
    ensures { OnOk result (attempt.new ≡ spec.fitted_child room.now attempt.old attempt.old.child) }
{
    if is_refused(room, &attempt.child) {
        refuse(alloc, attempt)
    } else {
        Ok(())
    }
}

/// Whether the attempt can't start the flow that its node wants.
fn is_refused(room: &Room, child: &Child) -> bool
    ensures { result ≡ is_refused room.now child.now }
{
    match child {
        Child::Nothing => false,
        Child::Flow(_, _) => room.full || room.unnumbered,
        Child::TooLarge => room.full,
        Child::Refused => false,
    }
}

/// The attempt starts no flow, and has failed for good as it is made.
fn refuse(alloc: Global, attempt: &mut NewAttempt) -> Result<(), NoMemory>
    ensures { OnOk result (attempt.new ≡ spec.store_full attempt.old) }
{
    attempt.reason = Text::new(alloc, "store full")?;
    attempt.begin = Begin::Over(Outcome::FailedWithTerminalError);
    attempt.child = Child::Refused;
    Ok(())
}
