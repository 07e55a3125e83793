//! The first broken rule, and how a place is written.

ghost use Rattle.std.specs.Prelude.{◌≡◌, ◌≢◌, IfErr, IfOk, OnOk, None, Some, map, option_map};
ghost use Rattle.wf_defs.specs.Faults as spec;

use crate::nodes::field_place;
use std::alloc::{AllocError, AllocFailed, Global};
use wf_doc::{NoMemory, Text};

/// Why a document is no definition.
#[derive(Drop)]
pub enum DefFault {
    /// The first broken rule, and where: the path from the document, as `tasks[1].forkTasks[0][2].name`.
    Rule { rule: u8, place: Text },
    NoMemory,
}

impl From<NoMemory> for DefFault {
    ghost use Rattle.std.specs.Prelude.{◌≡◌};
    ghost use Rattle.wf_defs.specs.declared.faults.DefFault.TheVariants.{NoMemory as OutOfMemory};

    ghost from_gives = { λ _ fault. fault ≡ OutOfMemory };

    fn from(_refused: NoMemory) -> DefFault {
        DefFault::NoMemory
    }
}

impl From<AllocError> for DefFault {
    ghost use Rattle.std.specs.Prelude.{◌≡◌};
    ghost use Rattle.wf_defs.specs.declared.faults.DefFault.TheVariants.{NoMemory as OutOfMemory};

    ghost from_gives = { λ _ fault. fault ≡ OutOfMemory };

    fn from(_refused: AllocError) -> DefFault {
        DefFault::NoMemory
    }
}

impl<T: Drop> From<AllocFailed<T>> for DefFault {
    ghost use Rattle.std.specs.Prelude.{◌≡◌};
    ghost use Rattle.wf_defs.specs.declared.faults.DefFault.TheVariants.{NoMemory as OutOfMemory};

    ghost from_gives = { λ _ fault. fault ≡ OutOfMemory };

    fn from(_refused: AllocFailed<T>) -> DefFault {
        DefFault::NoMemory
    }
}

/// A rule, and the place inside a table: empty for the table itself.
#[derive(Clone, Copy, Debug, PartialEq, Eq)]
pub(crate) struct Broken {
    pub(crate) rule: u8,
    pub(crate) place: &'static str,
}

/// Of rules, each with the first place in the table that breaks it, the first that is broken.
pub(crate) fn first_broken(rules: &[(u8, Option<&'static str>)]) -> Option<Broken>
    ensures { option_map (λ b. (b.rule, b.place.now)) result
        ≡ spec.first_broken (map (λ r. (r.0, option_map (λ place. place.now) r.1)) rules.now) }
{
    for (rule, place) in rules {
        if let Some(place) = place {
            return Some(Broken {
                rule: *rule,
                place: *place,
            });
        }
    }
    None
}

/// The place in a table that stands at a place itself.
fn inside(alloc: Global, table: &str, place: &str) -> Result<Text, NoMemory>
    ensures { IfOk result (λ made. made ≡ spec.inside table.now place.now) }
{
    if place.is_empty() {
        return Text::new(alloc, table);
    }
    if table.is_empty() {
        return Text::new(alloc, place);
    }
    field_place(alloc, table, place)
}

/// The fault of a table at that place, where it breaks a rule.
pub(crate) fn tell(alloc: Global, table: &str, broken: Option<Broken>) -> Result<(), DefFault>
    ensures ok { OnOk result (spec.fault_at table.now (option_map (λ b. (b.rule, b.place.now)) broken) ≡ None) }
    ensures err { IfErr result (λ fault. fault ≢ DefFault.NoMemory
        → spec.fault_at table.now (option_map (λ b. (b.rule, b.place.now)) broken) ≡ Some fault) }
{
    match broken {
        Some(broken) => {
            let place = inside(alloc, table, broken.place)?;
            Err(DefFault::Rule {
                rule: broken.rule,
                place,
            })
        }
        None => Ok(()),
    }
}
