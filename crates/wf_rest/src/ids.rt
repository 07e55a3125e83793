//! The ids of requests.

ghost use Rattle.std.specs.Prelude.{◌≡◌};
ghost use Rattle.wf_rest.specs.Bodies as spec;

use wf_names::ids::id_read;
use wf_names::{FlowNo, IdKind, TaskNo};

/// The number that the text names: 0, which names nothing, where it is no id of the store with this mark and of this kind.
fn id_number(mark: u32, kind: IdKind, text: &str) -> u64
    ensures { result ≡ spec.id_number mark kind text.now }
{
    match id_read(text) {
        Some((its_mark, its_kind, number)) if its_mark == mark && its_kind == kind => number,
        _ => 0,
    }
}

/// The flow that a text names in the store with this mark.
pub fn flow_named(mark: u32, text: &str) -> FlowNo
    ensures { result.0 ≡ spec.id_number mark IdKind.Flow text.now }
{
    FlowNo(id_number(mark, IdKind::Flow, text))
}

/// The attempt that a text names in the store with this mark.
pub fn task_named(mark: u32, text: &str) -> TaskNo
    ensures { result.0 ≡ spec.id_number mark IdKind.Task text.now }
{
    TaskNo(id_number(mark, IdKind::Task, text))
}
