//! A template, with ample memory, since no clause says that memory is there.

use std::alloc::Global;
use std::test::Fail;
use wf_doc::{Doc, Fields, Text};
use wf_setting::with_template;

fn empty(alloc: Global) -> Text {
    Text::from_string(String::new(alloc))
}

#[test]
fn a_template_adds_the_key_that_lacks(rt: HostRuntime) -> Result<(), Fail> {
    let alloc = rt.alloc();
    let mut keys = Fields::new(alloc);
    keys.set(empty(alloc), Doc::Int(2))?;
    let doc = Doc::Table(Fields::new(alloc));
    let made = with_template(alloc, &Doc::Table(keys), doc)?;
    assert!(rt; matches!(made.field(""), Some(Doc::Int(2))));
    Ok(())
}
