//! Registered workflows, searched and kept in the order of their names and versions.

ghost use Rattle.std.specs.Prelude.{◌≡◌, ◌<◌, ◌≤◌, ◌+◌, length, slice_set, IfSome, Some, IsTrue, if◌then◌else◌};
ghost use Rattle.std.specs.List.{insert, remove};
ghost use Rattle.std.specs.Option.{option_copied, option_map_or};
ghost use Rattle.wf_machine.specs.Registered.{definition_order, flow_def_at, flow_def_for, greater_version, newest_flow_def, with_flow_def, with_flow_defs, without_flow_def};

use crate::roomy::Roomy;
use std::cmp::Ordering;
use wf_machine::FlowDef;

/// The definition of that name, and of that version or else of the greatest.
pub fn find_flow_def<'a>(
    defs: &'a [FlowDef],
    name: &str,
    version: Option<u32>,
) -> Option<&'a FlowDef>
    ensures { option_copied result ≡ flow_def_for name.now version defs.now }
{
    match version {
        Some(version) => flow_def_of(defs, name, version),
        None => newest(defs, name),
    }
}

/// The definition of that name and version.
pub fn flow_def_of<'a>(defs: &'a [FlowDef], name: &str, version: u32) -> Option<&'a FlowDef>
    ensures { option_copied result ≡ flow_def_at name.now version defs.now }
{
    defs.iter()
        .find(|def| def.name.as_str() == name && def.version == version)
}

fn newest<'a>(defs: &'a [FlowDef], name: &str) -> Option<&'a FlowDef>
    ensures { option_copied result ≡ newest_flow_def name.now defs.now }
{
    let mut best = None;
    for def in defs {
        if def.name.as_str() == name {
            best = Some(greater(best, def));
        }
    }
    best
}

fn greater<'a>(best: Option<&'a FlowDef>, def: &'a FlowDef) -> &'a FlowDef
    ensures { option_copied (Some result) ≡ greater_version (option_copied best.entry) (Some def.now) }
{
    match best {
        Some(best) if def.version <= best.version => best,
        _ => def,
    }
}

/// Registers a definition, in place of one of its name and version. It takes no memory.
pub fn register(defs: &mut Roomy<FlowDef>, def: FlowDef)
    requires { 0 < defs.old.spare }
    ensures items { defs.new.items ≡ with_flow_def def defs.old.items }
    ensures room { defs.old.spare ≤ defs.new.spare + 1 }
{
    let (at, found) = place(defs.as_slice(), &def);
    if found {
        defs.set(at, def);
    } else {
        defs.insert(at, def);
    }
}

/// Registers the definitions, one after another. It takes no memory.
pub fn register_all(defs: &mut Roomy<FlowDef>, mut more: Vec<FlowDef>)
    requires { length more.items ≤ defs.old.spare }
    ensures { defs.new.items ≡ with_flow_defs more.items defs.old.items }
{
    more.reverse();
    while let Some(def) = more.pop() {
        register(defs, def);
    }
}

/// Forgets the first definition of that name and version. It takes no memory.
pub fn forget(defs: &mut Roomy<FlowDef>, name: &str, version: u32)
    ensures { defs.new.items ≡ without_flow_def name.now version defs.old.items }
{
    if let Some(at) = place_named(defs.as_slice(), name, version) {
        drop(defs.remove(at));
    }
}

/// Where the first definition of that name and version stands.
fn place_named(defs: &[FlowDef], name: &str, version: u32) -> Option<usize>
    ensures within { IfSome result (λ at. at < length defs.now) }
    ensures taken { without_flow_def name.now version defs.now ≡ option_map_or (remove defs.now) result defs.now }
{
    for (i, def) in defs.iter().enumerate() {
        if def.name.as_str() == name && def.version == version {
            return Some(i);
        }
    }
    None
}

/// Where the definition stands or belongs, and whether one of its name and version stands there.
fn place(defs: &[FlowDef], def: &FlowDef) -> (usize, bool)
    ensures within { result.0 ≤ length defs.now }
    ensures inside { IsTrue result.1 → result.0 < length defs.now }
    ensures put { with_flow_def def.now defs.now
        ≡ (if result.1 then slice_set defs.now result.0 def.now else insert defs.now result.0 def.now) }
{
    for (i, other) in defs.iter().enumerate() {
        match order(def, other) {
            Ordering::Less => return (i, false),
            Ordering::Equal => return (i, true),
            Ordering::Greater => {}
        }
    }
    (defs.len(), false)
}

fn order(def: &FlowDef, other: &FlowDef) -> Ordering
    ensures { result ≡ definition_order def.now other.now }
{
    def.name
        .as_str()
        .cmp(other.name.as_str())
        .then(def.version.cmp(&other.version))
}
