//! Each call of the core once. Runs of all calls stand beside the program.

use std::test::Fail;
use wf_core::Core;
use wf_doc::Text;
use wf_machine::Reply;
use wf_names::Refusal;
use wf_steps::Call;
use wf_wire::Limits;

#[test]
fn a_step_is_answered_and_counted(rt: HostRuntime) -> Result<(), Fail> {
    let mut core = Core::new(rt.alloc(), 7, Limits::STANDARD)?;
    let name = Text::from_string(String::new(rt.alloc()));
    let reply = core.step(rt.alloc(), 1, 90, Call::DropTaskDef(name));
    assert!(rt; matches!(reply, Reply::Refused(Refusal::NotFound)));
    assert_eq!(rt; core.entries(), 1);
    Ok(())
}

#[test]
fn a_change_is_prepared_and_then_made(rt: HostRuntime) -> Result<(), Fail> {
    let mut core = Core::new(rt.alloc(), 7, Limits::STANDARD)?;
    let change = core.prepare(rt.alloc(), 90, Call::TaskDefs)?;
    assert_eq!(rt; core.entries(), 0);
    let reply = core.commit_change(change);
    assert!(rt; matches!(reply, Reply::Json(_)));
    assert_eq!(rt; core.entries(), 1);
    Ok(())
}
