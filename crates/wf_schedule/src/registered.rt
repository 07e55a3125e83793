//! Registered definitions, by their names.

ghost use Rattle.std.specs.Prelude.{◌≡◌, Some};
ghost use Rattle.std.specs.Option.{option_copied};
ghost use Rattle.wf_machine.specs.Registered.{flow_def_at, flow_def_for, greater_version, newest_flow_def, task_def_named};

use wf_machine::{FlowDef, TaskDef};

/// The task of that name.
pub fn task_def_of<'a>(defs: &'a [TaskDef], name: &str) -> Option<&'a TaskDef>
    ensures { option_copied result ≡ task_def_named name.now defs.now }
{
    defs.iter().find(|def| def.name.as_str() == name)
}

/// The workflow of that name, and of that version or else of the greatest.
pub fn flow_def_of<'a>(defs: &'a [FlowDef], name: &str, version: Option<u32>) -> Option<&'a FlowDef>
    ensures { option_copied result ≡ flow_def_for name.now version defs.now }
{
    match version {
        Some(version) => flow_def_at(defs, name, version),
        None => newest(defs, name),
    }
}

fn flow_def_at<'a>(defs: &'a [FlowDef], name: &str, version: u32) -> Option<&'a FlowDef>
    ensures { option_copied result ≡ flow_def_at name.now version defs.now }
{
    defs.iter()
        .find(|def| def.name.as_str() == name && def.version == version)
}

fn newest<'a>(defs: &'a [FlowDef], name: &str) -> Option<&'a FlowDef>
    ensures { option_copied result ≡ newest_flow_def name.now defs.now }
{
    let mut best = None;
    for def in defs {
        if def.name.as_str() == name {
            best = Some(greater(best, def));
        }
    }
    best
}

/// The one of the greater version, the first of two that have the same.
fn greater<'a>(best: Option<&'a FlowDef>, def: &'a FlowDef) -> &'a FlowDef
    ensures { option_copied (Some result) ≡ greater_version (option_copied best.entry) (Some def.now) }
{
    match best {
        Some(best) if def.version <= best.version => best,
        _ => def,
    }
}
