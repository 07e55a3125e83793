//! What a rule wants done, as a list of acts.

ghost use Rattle.std.specs.Prelude.{◌≡◌, [], ◌∷◌, codes, if◌then◌else◌, IfOk, Some};
ghost use Rattle.wf_doc.specs.declared.doc.Doc.TheVariants.{Table};
ghost use Rattle.wf_rules.specs.Scheduling as spec;

use crate::no_memory::NoMemory;
use std::alloc::Global;
use wf_doc::{Doc, Fields, Text};
use wf_names::FlowStatus;
use wf_rules::Act;

/// A rule that does one thing.
pub fn one(alloc: Global, act: Act) -> Result<Vec<Act>, NoMemory>
    ensures { IfOk result (λ acts. acts.items ≡ act ∷ []) }
{
    Ok(vec![in alloc; act]?)
}

/// A rule that does two things, one after another.
pub fn two(alloc: Global, first: Act, second: Act) -> Result<Vec<Act>, NoMemory>
    ensures { IfOk result (λ acts. acts.items ≡ first ∷ second ∷ []) }
{
    Ok(vec![in alloc; first, second]?)
}

/// The flow fails for that reason.
pub fn fails(alloc: Global, reason: &str, output: Option<Doc>) -> Result<Vec<Act>, NoMemory>
    ensures { IfOk result (λ acts. acts.items ≡ spec.fails reason.now output) }
{
    let reason = Text::new(alloc, reason)?;
    one(alloc, Act::End(FlowStatus::Failed, Some(reason), output))
}

/// The flow fails because a document is too large.
pub fn fails_too_large(alloc: Global) -> Result<Vec<Act>, NoMemory>
    ensures { IfOk result (λ acts. acts.items ≡ spec.fails (codes "document limit") (Some (Table []))) }
{
    fails(
        alloc,
        "document limit",
        Some(Doc::Table(Fields::new(alloc))),
    )
}

/// These acts, or the flow fails because a document that they make is too large.
pub fn unless_large(alloc: Global, large: bool, acts: Vec<Act>) -> Result<Vec<Act>, NoMemory>
    ensures { IfOk result (λ made. made.items ≡ (if large then spec.fails (codes "document limit") (Some (Table [])) else acts.items)) }
{
    if large {
        fails_too_large(alloc)
    } else {
        Ok(acts)
    }
}
