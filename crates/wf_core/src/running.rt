//! Which flows of a workflow run.

ghost use Rattle.std.specs.Prelude.{◌≡◌, filter, map, IfOk};
ghost use Rattle.wf_steps.specs.Calls.{get_running, id_of, is_of, runs_as};
ghost use Rattle.wf_kept.specs.Flows.{all_kept, kept};
ghost use Rattle.wf_core.specs.Changes.{IsPrepared};

use crate::change::Change;
use crate::no_memory::NoMemory;
use crate::steps::Core;
use std::alloc::Global;
use wf_doc::{Doc, Items, Text};
use wf_kept::KeptFlow;
use wf_machine::{FlowDef, Reply};
use wf_names::ids::id_text;
use wf_names::{FlowStatus, IdKind};

impl Core {
    #[tactic(auto, unfolding(wf_steps::specs::Calls::get_running))]
    pub(crate) fn prepare_running(
        &mut self,
        alloc: Global,
        name: &Text,
        version: Option<u32>,
    ) -> Result<Change, NoMemory>
        ensures state { self.new.state ≡ self.old.state }
        ensures limits { self.new.limits ≡ self.old.limits }
        ensures entries { self.new.entries ≡ self.old.entries }
        ensures ok { IfOk result (IsPrepared (get_running name.now version self.old.state) self.old self.new) }
    {
        let ids = running_ids(
            alloc,
            self.mark,
            self.flows.as_slice(),
            name.as_str(),
            version,
        )?;
        Ok(Change::none(Reply::Json(Doc::List(ids))))
    }
}

/// The ids of those of the flows that run and are of that name, and of that version where one is given.
fn running_ids(
    alloc: Global,
    mark: u32,
    flows: &[KeptFlow],
    name: &str,
    version: Option<u32>,
) -> Result<Items<Doc>, NoMemory>
    ensures { IfOk result (λ ids. ids ≡ map (id_of mark) (filter (runs_as name.now version) (all_kept flows.now))) }
{
    let mut ids = Items::new(alloc);
    for kept in flows {
        if runs_as(kept, name, version) {
            ids.push(id_of(alloc, mark, kept)?)?;
        }
    }
    Ok(ids)
}

fn runs_as(held: &KeptFlow, name: &str, version: Option<u32>) -> bool
    ensures { result ≡ runs_as name.now version (kept held.now) }
{
    held.flow.status() == FlowStatus::Running && is_of(held.flow.def(), name, version)
}

/// Whether the definition has that name, and that version where one is given.
fn is_of(def: &FlowDef, name: &str, version: Option<u32>) -> bool
    ensures { result ≡ is_of name.now version def.now }
{
    match version {
        None => def.name.as_str() == name,
        Some(version) => def.name.as_str() == name && def.version == version,
    }
}

/// The id of the flow.
fn id_of(alloc: Global, mark: u32, held: &KeptFlow) -> Result<Doc, NoMemory>
    ensures { IfOk result (λ id. id ≡ id_of mark (kept held.now)) }
{
    held.flow.is_record();
    let bytes = id_text(mark, IdKind::Flow, held.flow.number().0);
    match str::from_utf8(&bytes) {
        Ok(text) => Ok(Doc::Text(Text::new(alloc, text)?)),
        Err(_) => unreachable!(),
    }
}
