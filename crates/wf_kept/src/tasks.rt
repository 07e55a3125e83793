//! Registered tasks, kept in the order of their names.

ghost use Rattle.std.specs.Prelude.{◌≡◌, ◌<◌, ◌≤◌, ◌+◌, length, slice_set, IfSome, IsTrue, if◌then◌else◌};
ghost use Rattle.std.specs.List.{insert, remove};
ghost use Rattle.std.specs.Option.{option_copied, option_map_or};
ghost use Rattle.std.specs.Ordering.{nat_cmp};
ghost use Rattle.std.specs.Cmp.Lexicographic.{slice_cmp};
ghost use Rattle.wf_machine.specs.Registered.{with_task_def, with_task_defs, without_task_def, task_def_named};

use crate::roomy::Roomy;
use std::cmp::Ordering;
use wf_machine::TaskDef;

/// The registered task of that name.
pub fn task_def_of<'a>(defs: &'a [TaskDef], name: &str) -> Option<&'a TaskDef>
    ensures { option_copied result ≡ task_def_named name.now defs.now }
{
    defs.iter().find(|def| def.name.as_str() == name)
}

/// Registers a task, in place of one of its name. It takes no memory.
pub fn register_task(defs: &mut Roomy<TaskDef>, def: TaskDef)
    requires { 0 < defs.old.spare }
    ensures items { defs.new.items ≡ with_task_def def defs.old.items }
    ensures room { defs.old.spare ≤ defs.new.spare + 1 }
{
    let (at, found) = place(defs.as_slice(), &def);
    if found {
        defs.set(at, def);
    } else {
        defs.insert(at, def);
    }
}

/// Registers the tasks, one after another. It takes no memory.
pub fn register_tasks(defs: &mut Roomy<TaskDef>, mut more: Vec<TaskDef>)
    requires { length more.items ≤ defs.old.spare }
    ensures { defs.new.items ≡ with_task_defs more.items defs.old.items }
{
    more.reverse();
    while let Some(def) = more.pop() {
        register_task(defs, def);
    }
}

/// Forgets the first task of that name. It takes no memory.
pub fn forget_task(defs: &mut Roomy<TaskDef>, name: &str)
    ensures { defs.new.items ≡ without_task_def name.now defs.old.items }
{
    if let Some(at) = place_named(defs.as_slice(), name) {
        drop(defs.remove(at));
    }
}

/// Where the first task of that name stands.
fn place_named(defs: &[TaskDef], name: &str) -> Option<usize>
    ensures within { IfSome result (λ at. at < length defs.now) }
    ensures taken { without_task_def name.now defs.now ≡ option_map_or (remove defs.now) result defs.now }
{
    for (i, def) in defs.iter().enumerate() {
        if def.name.as_str() == name {
            return Some(i);
        }
    }
    None
}

/// Where the task stands or belongs, and whether one of its name stands there.
fn place(defs: &[TaskDef], def: &TaskDef) -> (usize, bool)
    ensures within { result.0 ≤ length defs.now }
    ensures inside { IsTrue result.1 → result.0 < length defs.now }
    ensures put { with_task_def def.now defs.now
        ≡ (if result.1 then slice_set defs.now result.0 def.now else insert defs.now result.0 def.now) }
{
    for (i, other) in defs.iter().enumerate() {
        match order(def, other) {
            Ordering::Less => return (i, false),
            Ordering::Equal => return (i, true),
            Ordering::Greater => {}
        }
    }
    (defs.len(), false)
}

fn order(def: &TaskDef, other: &TaskDef) -> Ordering
    ensures { result ≡ slice_cmp nat_cmp def.now.name other.now.name }
{
    def.name.as_str().cmp(other.name.as_str())
}
