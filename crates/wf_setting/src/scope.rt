//! What expressions name in a flow.

ghost use Rattle.std.specs.Prelude.{◌≡◌, ◌∷◌, ◌<◌, ◌≤◌, ◌^◌, drop, length, IfOk};
ghost use Rattle.std.specs.Option.{option_copied};
ghost use Rattle.wf_doc.specs.declared.doc.Doc as doc;
ghost use Rattle.wf_doc.specs.declared.path.Step.{Step};
ghost use Rattle.wf_machine.specs.Documents.{flow_id};
ghost use Rattle.wf_machine.specs.Naming.{named_id, named_in_attempt, named_in_flow, names, only_id};
ghost use Rattle.wf_machine.specs.Sight.{seen, told};

use crate::no_memory::NoMemory;
use std::alloc::Global;
use wf_doc::{Doc, Path, Text};
use wf_expr::Scope;
use wf_flow::{Attempt, Flow};
use wf_names::ids::id_text;
use wf_names::{FlowNo, IdKind};

/// A flow of the store with that mark. Its two ids stand beside it as documents, so that a path takes no memory.
#[derive(Drop)]
pub struct FlowScope<'f> {
    flow: &'f Flow,
    mark: u32,
    id: Doc,
    correlation: Doc,
    ghost id_is: { id ≡ doc.Text (flow_id mark flow.now.flow.number) },
    ghost correlation_is: { correlation ≡ doc.Text flow.now.flow.correlation },
}

impl<'f> FlowScope<'f> {
    pub fn new(alloc: Global, flow: &'f Flow, mark: u32) -> Result<FlowScope<'f>, NoMemory>
        ensures { IfOk result (λ scope. (scope.flow.now ≡ flow.now) × (scope.mark ≡ mark)) }
    {
        flow.is_record();
        let id = flow_id(alloc, mark, flow.number())?;
        let correlation = Text::new(alloc, flow.correlation())?;
        Ok(FlowScope {
            flow,
            mark,
            id: Doc::Text(id),
            correlation: Doc::Text(correlation),
        })
    }

    /// What stands behind `workflow`.
    #[tactic(auto, using(crate::proofs::ScopeLemmas::second_name, crate::proofs::ScopeLemmas::second_within, crate::proofs::ScopeLemmas::none_in_flow))]
    fn find_in_flow(&self, path: &Path) -> Option<&Doc>
        ensures { option_copied result ≡ named_in_flow self.now.mark (told self.now.flow.now.flow) (drop 1 path.now) }
    {
        match path.name(1) {
            Some(key) => self.find_key(key, path),
            None => None,
        }
    }

    /// What stands behind `workflow` and that key, which is the second step of the path.
    fn find_key(&self, key: &str, path: &Path) -> Option<&Doc>
        requires { 2 ≤ length path.now }
        ensures { option_copied result
            ≡ named_in_flow self.now.mark (told self.now.flow.now.flow) (Step.Name key.now ∷ drop 2 path.now) }
    {
        if key == "input" {
            return wf_doc::at(self.flow.input(), path, 2);
        }
        if key == "variables" {
            return wf_doc::at(self.flow.variables(), path, 2);
        }
        self.find_id(key, path)
    }

    /// The id of that name, where the path ends with it.
    #[tactic(auto, using(crate::proofs::ScopeLemmas::id_alone, crate::proofs::ScopeLemmas::no_id_behind))]
    fn find_id(&self, key: &str, path: &Path) -> Option<&Doc>
        requires { 2 ≤ length path.now }
        ensures { option_copied result ≡ only_id self.now.mark (told self.now.flow.now.flow) key.now (drop 2 path.now) }
    {
        if path.len() == 2 {
            self.id_named(key)
        } else {
            None
        }
    }

    fn id_named(&self, key: &str) -> Option<&Doc>
        ensures { option_copied result ≡ named_id self.now.mark (told self.now.flow.now.flow) key.now }
    {
        if key == "workflowId" {
            return Some(&self.id);
        }
        if key == "correlationId" {
            return Some(&self.correlation);
        }
        None
    }

    /// What the path names, whose first step is that name.
    #[tactic(auto, using(crate::proofs::ScopeLemmas::names_workflow, crate::proofs::ScopeLemmas::names_attempt, crate::proofs::ScopeLemmas::names_nothing))]
    fn find_named(&self, first: &str, path: &Path) -> Option<&Doc>
        ensures { option_copied result
            ≡ names self.now.mark (told self.now.flow.now.flow) (Step.Name first.now ∷ drop 1 path.now) }
    {
        if first == "workflow" {
            return self.find_in_flow(path);
        }
        match self.flow.named_attempt(first) {
            Some(attempt) => find_in_attempt(attempt, path),
            None => None,
        }
    }
}

/// What stands behind the reference of an attempt.
#[tactic(auto, using(crate::proofs::ScopeLemmas::second_name, crate::proofs::ScopeLemmas::second_within, crate::proofs::ScopeLemmas::none_in_attempt))]
fn find_in_attempt<'a>(attempt: &'a Attempt, path: &Path) -> Option<&'a Doc>
    ensures { option_copied result ≡ named_in_attempt (drop 1 path.now) (seen attempt.now) }
{
    match path.name(1) {
        Some(key) => find_attempt_key(attempt, key, path),
        None => None,
    }
}

/// What stands behind the reference of an attempt and that key, which is the second step of the path.
fn find_attempt_key<'a>(attempt: &'a Attempt, key: &str, path: &Path) -> Option<&'a Doc>
    requires { 2 ≤ length path.now }
    ensures { option_copied result ≡ named_in_attempt (Step.Name key.now ∷ drop 2 path.now) (seen attempt.now) }
{
    if key == "input" {
        return wf_doc::at(attempt.input(), path, 2);
    }
    if key == "output" {
        return wf_doc::at(attempt.output(), path, 2);
    }
    None
}

/// The id of the flow of that number.
pub fn flow_id(alloc: Global, mark: u32, number: FlowNo) -> Result<Text, NoMemory>
    requires { number.0 < 2 ^ 56 }
    ensures { IfOk result (λ id. id ≡ flow_id mark number) }
{
    let bytes = id_text(mark, IdKind::Flow, number.0);
    match str::from_utf8(&bytes) {
        Ok(text) => Ok(Text::new(alloc, text)?),
        Err(_) => unreachable!(),
    }
}

impl<'f> Scope for FlowScope<'f> {
    ghost use Rattle.wf_machine.specs.Naming as spec;
    ghost use Rattle.wf_machine.specs.Sight.{told};

    ghost names = { λ scope. spec.names scope.mark (told scope.flow.now.flow) };

    #[tactic(auto, using(crate::proofs::ScopeLemmas::first_name, crate::proofs::ScopeLemmas::no_first_name))]
    fn find(&self, path: &Path) -> Option<&Doc> {
        match path.name(0) {
            Some(first) => self.find_named(first, path),
            None => None,
        }
    }
}
