//! Laws of the definitions that the contracts of this crate cite. Each function does nothing: what
//! it ensures is the law.

ghost use Rattle.std.specs.Prelude.{◌≡◌, ◌<◌, ◌^◌, ◌↔◌, Some};
ghost use Rattle.wf_names.specs.FlowStatus.{flow_status_named, flow_status_text};
ghost use Rattle.wf_names.specs.Ids.{Names, id_read, id_text};
ghost use Rattle.wf_names.specs.TaskStatus.{task_status_named, task_status_text};

use crate::{FlowStatus, IdKind, TaskStatus};

/// The text of an id reads back as its mark, kind and number.
pub fn id_reads_back(mark: u32, kind: IdKind, number: u64)
    requires { number < 2 ^ 56 }
    ensures { id_read (id_text mark kind number) ≡ Some (mark, kind, number) }
{}

/// `id_read` gives an id exactly where the text names it.
pub fn id_read_is_exact(text: &str, mark: u32, kind: IdKind, number: u64)
    ensures { (id_read text.now ≡ Some (mark, kind, number)) ↔ Names text.now mark kind number }
{}

/// The word of a task's status reads back as the status.
pub fn task_status_reads_back(status: TaskStatus)
    ensures { task_status_named (task_status_text status) ≡ Some status }
{}

/// The word of a workflow's status reads back as the status.
pub fn flow_status_reads_back(status: FlowStatus)
    ensures { flow_status_named (flow_status_text status) ≡ Some status }
{}
