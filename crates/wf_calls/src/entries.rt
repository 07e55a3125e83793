//! Entries of the tables that replies print.

ghost use Rattle.std.specs.Prelude.{◌≡◌, ◌<◌, ◌^◌, pos, OnOk, OnErr};
ghost use Rattle.wf_doc.specs.Fields.{entry, put};
ghost use Rattle.wf_machine.specs.Documents as spec;

use crate::no_memory::NoMemory;
use std::alloc::Global;
use wf_doc::{Doc, Fields, Text};
use wf_names::ids::id_text;
use wf_names::{FlowNo, IdKind, TaskNo};

pub fn put_document(
    alloc: Global,
    table: &mut Fields<Doc>,
    key: &str,
    doc: Doc,
) -> Result<(), NoMemory>
    ensures ok { OnOk result (table.new ≡ put key.now doc table.old) }
{
    table.set(Text::new(alloc, key)?, doc)?;
    Ok(())
}

pub fn put_number(
    alloc: Global,
    table: &mut Fields<Doc>,
    key: &str,
    number: u64,
) -> Result<(), NoMemory>
    requires { number < 2 ^ 63 }
    ensures ok { OnOk result (table.new ≡ put key.now (Doc.Int (pos number)) table.old) }
{
    put_document(alloc, table, key, Doc::Int(number as i64))
}

pub fn put_text(
    alloc: Global,
    table: &mut Fields<Doc>,
    key: &str,
    text: &str,
) -> Result<(), NoMemory>
    ensures ok { OnOk result (table.new ≡ put key.now (Doc.Text text.now) table.old) }
{
    let text = Doc::Text(Text::new(alloc, text)?);
    put_document(alloc, table, key, text)
}

pub fn put_flow_id(
    alloc: Global,
    table: &mut Fields<Doc>,
    key: &str,
    mark: u32,
    flow: FlowNo,
) -> Result<(), NoMemory>
    requires { flow.0 < 2 ^ 56 }
    ensures ok { OnOk result (table.new ≡ put key.now (Doc.Text (spec.flow_id mark flow)) table.old) }
{
    let bytes = id_text(mark, IdKind::Flow, flow.0);
    match str::from_utf8(&bytes) {
        Ok(text) => put_text(alloc, table, key, text),
        Err(_) => unreachable!(),
    }
}

pub fn put_task_id(
    alloc: Global,
    table: &mut Fields<Doc>,
    key: &str,
    mark: u32,
    task: TaskNo,
) -> Result<(), NoMemory>
    requires { task.0 < 2 ^ 56 }
    ensures ok { OnOk result (table.new ≡ put key.now (Doc.Text (spec.task_id mark task)) table.old) }
{
    let bytes = id_text(mark, IdKind::Task, task.0);
    match str::from_utf8(&bytes) {
        Ok(text) => put_text(alloc, table, key, text),
        Err(_) => unreachable!(),
    }
}
