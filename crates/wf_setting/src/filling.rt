//! What is filled, within the limits for documents.

ghost use Rattle.std.specs.Prelude.{◌≡◌, if◌then◌else◌, IfOk, None, Some};
ghost use Rattle.wf_expr.specs.Filling.{filled};
ghost use Rattle.wf_machine.specs.Naming.{names};
ghost use Rattle.wf_machine.specs.Sight.{told};
ghost use Rattle.wf_rules.specs.Outputs as spec;
ghost use Rattle.wf_rules.specs.Rules.{has_keys as keyed};
ghost use Rattle.wf_setting.specs.Setting.{sight_in};

use crate::no_memory::NoMemory;
use crate::scope::FlowScope;
use crate::setting::{Children, Setting};
use std::alloc::Global;
use wf_doc::{Doc, depth, print_len};
use wf_expr::{FillFault, Scope, fill};
use wf_flow::Flow;
use wf_wire::Limits;

/// The document nests deeper, or its text is longer, than may be.
pub fn is_too_large(limits: &Limits, doc: &Doc) -> bool
    ensures { result ≡ spec.is_too_large limits.now doc.now }
{
    depth(doc) > limits.depth || print_len(doc) > limits.document as u64
}

/// The document with each expression replaced by what it names in the flow; None where that is too large.
pub fn fill_in<C: Children>(
    alloc: Global,
    at: &Setting<C>,
    flow: &Flow,
    doc: &Doc,
) -> Result<Option<Doc>, NoMemory>
    ensures { IfOk result (λ made. made
        ≡ (if spec.is_too_large at.now.limits (spec.filled_in at.now.scene (sight_in at.now flow.now.flow) doc.now)
        then None else Some (spec.filled_in at.now.scene (sight_in at.now flow.now.flow) doc.now))) }
{
    fill_told(alloc, at.limits, at.mark, flow, doc)
}

/// The same in a store of that mark.
fn fill_told(
    alloc: Global,
    limits: &Limits,
    mark: u32,
    flow: &Flow,
    doc: &Doc,
) -> Result<Option<Doc>, NoMemory>
    ensures { IfOk result (λ made. made
        ≡ (if spec.is_too_large limits.now (filled (names mark (told flow.now.flow)) doc.now)
        then None else Some (filled (names mark (told flow.now.flow)) doc.now))) }
{
    let scope = FlowScope::new(alloc, flow, mark)?;
    fill_within(alloc, &scope, limits, doc)
}

/// The document with each expression replaced by what it names in the scope; None where that is too large.
#[tactic(auto, using(crate::proofs::FitLemmas::within, crate::proofs::FitLemmas::beyond))]
fn fill_within<S: Scope>(
    alloc: Global,
    scope: &S,
    limits: &Limits,
    doc: &Doc,
) -> Result<Option<Doc>, NoMemory>
    ensures { IfOk result (λ made. made ≡ (if spec.is_too_large limits.now (filled (S.names scope.now) doc.now)
        then None else Some (filled (S.names scope.now) doc.now))) }
{
    match fill(alloc, doc, scope, limits) {
        Ok(made) => Ok(Some(made)),
        Err(FillFault::TooLarge) => Ok(None),
        Err(FillFault::NoMemory) => Err(NoMemory),
    }
}

/// A table that has a key.
pub fn has_keys(doc: &Doc) -> bool
    ensures { result ≡ keyed doc.now }
{
    match doc.as_table() {
        Some(fields) => fields.len() > 0,
        None => false,
    }
}
