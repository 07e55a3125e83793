//! Copies of acts.

ghost use Rattle.std.specs.Prelude.{◌≡◌, IfOk};

use std::alloc::Global;
use wf_doc::{Doc, Text};
use wf_rules::{Act, Child, NewAttempt};
use wf_setting::NoMemory;

/// Equal acts.
pub fn copy_acts(alloc: Global, acts: &[Act]) -> Result<Vec<Act>, NoMemory>
    ensures { IfOk result (λ made. made.items ≡ acts.now) }
{
    let mut made = Vec::new(alloc);
    for act in acts {
        made.push(copy_act(alloc, act)?)?;
    }
    Ok(made)
}

fn copy_act(alloc: Global, act: &Act) -> Result<Act, NoMemory>
    ensures { IfOk result (λ made. made ≡ act.now) }
{
    Ok(match act {
        Act::Add(attempt) => Act::Add(copy_attempt(alloc, attempt)?),
        Act::Close(place, outcome, reason, output) => {
            let reason = copy_reason(alloc, reason)?;
            Act::Close(*place, *outcome, reason, copy_output(alloc, output)?)
        }
        Act::Note(place, alert, reason) => Act::Note(*place, *alert, reason.copy(alloc)?),
        Act::Forgive(place) => Act::Forgive(*place),
        Act::Turn(place, output, turn) => { Act::Turn(*place, wf_doc::copy(alloc, output)?, *turn) }
        Act::Variables(variables) => Act::Variables(wf_doc::copy(alloc, variables)?),
        Act::NoteFlow(reason) => Act::NoteFlow(reason.copy(alloc)?),
        Act::End(status, reason, output) => {
            let reason = copy_reason(alloc, reason)?;
            Act::End(*status, reason, copy_output(alloc, output)?)
        }
    })
}

fn copy_attempt(alloc: Global, attempt: &NewAttempt) -> Result<NewAttempt, NoMemory>
    ensures { IfOk result (λ made. made ≡ attempt.now) }
{
    Ok(NewAttempt {
        node: attempt.node,
        iteration: attempt.iteration,
        begin: attempt.begin,
        input: wf_doc::copy(alloc, &attempt.input)?,
        output: wf_doc::copy(alloc, &attempt.output)?,
        reason: attempt.reason.copy(alloc)?,
        retry: attempt.retry,
        retried: attempt.retried,
        turn: attempt.turn,
        child: copy_child(alloc, &attempt.child)?,
    })
}

fn copy_child(alloc: Global, child: &Child) -> Result<Child, NoMemory>
    ensures { IfOk result (λ made. made ≡ child.now) }
{
    match child {
        Child::Nothing => Ok(Child::Nothing),
        Child::Flow(def, input) => {
            let def = def.copy(alloc)?;
            Ok(Child::Flow(def, wf_doc::copy(alloc, input)?))
        }
        Child::TooLarge => Ok(Child::TooLarge),
        Child::Refused => Ok(Child::Refused),
    }
}

fn copy_reason(alloc: Global, reason: &Option<Text>) -> Result<Option<Text>, NoMemory>
    ensures { IfOk result (λ made. made ≡ reason.now) }
{
    match reason {
        Some(reason) => Ok(Some(reason.copy(alloc)?)),
        None => Ok(None),
    }
}

fn copy_output(alloc: Global, output: &Option<Doc>) -> Result<Option<Doc>, NoMemory>
    ensures { IfOk result (λ made. made ≡ output.now) }
{
    match output {
        Some(output) => Ok(Some(wf_doc::copy(alloc, output)?)),
        None => Ok(None),
    }
}
