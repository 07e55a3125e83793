//! A SET_VARIABLE is scheduled.

ghost use Rattle.std.specs.Prelude.{◌≡◌, IfOk};
ghost use Rattle.wf_rules.specs.Outputs.{entries_of, with_all, with_key};
ghost use Rattle.wf_rules.specs.Scheduling as spec;
ghost use Rattle.wf_setting.specs.Setting.{sight_in};

use crate::adding::add_after_variables;
use crate::starts::Start;
use std::alloc::Global;
use wf_doc::{Doc, Fields, SharedEntry};
use wf_flow::Flow;
use wf_rules::{Act, Begin, Outcome};
use wf_setting::{Children, NoMemory, Setting};

/// Each key of the input is set as a variable, and an attempt is added that is over as it is made.
#[tactic(auto, unfolding(wf_rules::specs::Sight::sight))]
pub fn set_variables<C: Children>(
    alloc: Global,
    at: &Setting<C>,
    flow: &Flow,
    start: Start,
) -> Result<Vec<Act>, NoMemory>
    ensures { IfOk result (λ acts. acts.items
        ≡ spec.set_variables at.now.limits (sight_in at.now flow.now.flow) start.entry.node.now start.entry.iteration start.entry.input) }
{
    let variables = wf_doc::copy(alloc, flow.variables())?;
    let variables = with_all(alloc, entries_of(&start.input), variables)?;
    let attempt = start.begin(alloc, Begin::Over(Outcome::Completed));
    add_after_variables(alloc, at, flow, variables, attempt)
}

/// The entries of a table; what isn't one has none.
fn entries_of(doc: &Doc) -> &[SharedEntry<Doc>]
    ensures { result.now ≡ entries_of doc.now }
{
    match doc.as_table() {
        Some(fields) => fields.entries(),
        None => &[],
    }
}

/// The table with each of the entries in it.
fn with_all(alloc: Global, entries: &[SharedEntry<Doc>], table: Doc) -> Result<Doc, NoMemory>
    ensures { IfOk result (λ made. made ≡ with_all entries.now table) }
{
    let mut made = table;
    for entry in entries {
        made = with_entry(alloc, entry, made)?;
    }
    Ok(made)
}

/// The table with the entry, in place of one of its key.
fn with_entry(alloc: Global, entry: &SharedEntry<Doc>, table: Doc) -> Result<Doc, NoMemory>
    ensures { IfOk result (λ made. made ≡ with_key entry.now.key entry.now.value table) }
{
    let mut fields = into_fields(alloc, table);
    fields.set(
        entry.key().copy(alloc)?,
        wf_doc::copy(alloc, entry.value())?,
    )?;
    Ok(Doc::Table(fields))
}

fn into_fields(alloc: Global, doc: Doc) -> Fields<Doc>
    ensures { result ≡ entries_of doc }
{
    match doc {
        Doc::Table(fields) => fields,
        Doc::Null => Fields::new(alloc),
        Doc::Bool(_) => Fields::new(alloc),
        Doc::Int(_) => Fields::new(alloc),
        Doc::Text(_) => Fields::new(alloc),
        Doc::List(_) => Fields::new(alloc),
    }
}
