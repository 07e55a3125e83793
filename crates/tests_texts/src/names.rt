//! Each call once, the forms of an id, and words that other programs send.

use wf_names::ids::{id_read, id_text};
use wf_names::{FlowNo, FlowStatus, IdKind, Refusal, TaskNo, TaskStatus, laws};

#[test]
fn ids_print_and_read_back(rt: HostRuntime) {
    let bytes = id_text(0xdead_beef, IdKind::Task, 0x0102_0304_0506);
    assert_eq!(rt;
        bytes.as_slice(),
        "deadbeef-0200-8000-8000-010203040506".as_bytes()
    );
    laws::id_reads_back(1, IdKind::Task, 1);
    for text in [
        "deadbeef020080008000010203040506",
        "DEADBEEF-0200-8000-8000-010203040506",
        "{deadbeef-0200-8000-8000-010203040506}",
        "urn:uuid:deadbeef-0200-8000-8000-010203040506",
    ] {
        assert_eq!(rt;
            id_read(text),
            Some((0xdead_beef, IdKind::Task, 0x0102_0304_0506)),
            "{text}"
        );
    }
    assert_eq!(rt; id_read("deadbeef-0200-4000-8000-010203040506"), None);
    assert!(rt; FlowNo(2) < FlowNo(10));
    assert!(rt; TaskNo(2) != TaskNo(10));
}

#[test]
fn words_name_statuses(rt: HostRuntime) {
    let task = TaskStatus::CompletedWithErrors;
    assert_eq!(rt; task.text(), "COMPLETED_WITH_ERRORS");
    assert_eq!(rt; TaskStatus::read("COMPLETED_WITH_ERRORS"), Some(task));
    assert!(rt; task.is_successful() && task.is_terminal() && !task.is_open());
    let flow = FlowStatus::TimedOut;
    assert_eq!(rt; flow.text(), "TIMED_OUT");
    assert_eq!(rt; FlowStatus::read("TIMED_OUT"), Some(flow));
    assert!(rt; flow.is_terminal() && !flow.is_open());
}

#[test]
fn a_refusal_has_a_code_a_status_and_a_message(rt: HostRuntime) {
    let refusal = Refusal::NotFound;
    assert_eq!(rt; refusal.code(), "NOT_FOUND");
    assert_eq!(rt; refusal.status(), 404);
    assert_eq!(rt; refusal.message(), "no such thing");
}
