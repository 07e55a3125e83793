//! Each call once, on one table.

use std::test::Fail;
use wf_doc::{print, read};
use wf_fields::{
    Form, as_count, as_whole, first_misformed, first_misnumbered, given, has_form, is_absent,
    is_absent_or_formed, is_absent_or_number, is_absent_or_one_of, is_among, is_formed, is_number,
    is_one_of, is_text, items_in, items_of, number_or, table_in, text_in, truth_or, unless,
};

const TABLE: &[u8] =
    br#"{"name":"pick","count":7,"ready":true,"gone":null,"most":2147483648,"words":["a","b"],"input":{"k":1}}"#;

#[test]
fn fields_are_judged(rt: HostRuntime) -> Result<(), Fail> {
    let doc = read(rt.alloc(), TABLE, 64)?;
    assert!(rt; is_absent(&doc, "gone"));
    assert!(rt; is_absent_or_formed(&doc, "gone", Form::AText));
    assert!(rt; is_formed(&doc, "words", Form::Texts));
    assert!(rt; !is_absent_or_number(&doc, "count", 8, 9));
    assert!(rt; !is_absent_or_one_of(&doc, "name", &["pack"]));
    assert_eq!(rt;
        first_misnumbered(&doc, &[("count", 0, 7), ("most", 0, 9)]),
        Some("most")
    );
    assert_eq!(rt;
        first_misformed(&doc, &[("gone", Form::AText), ("count", Form::AText)]),
        Some("count")
    );
    assert_eq!(rt; unless(false, "name"), Some("name"));
    Ok(())
}

#[test]
fn values_are_judged(rt: HostRuntime) -> Result<(), Fail> {
    let doc = read(rt.alloc(), TABLE, 64)?;
    let most = given(&doc, "most").ok_or("absent")?;
    assert_eq!(rt; as_whole(most), Some(2_147_483_648));
    assert_eq!(rt; as_count(most), None);
    assert!(rt; is_number(most, 0, 2_147_483_648));
    let name = given(&doc, "name").ok_or("absent")?;
    assert!(rt; is_text(name) && has_form(name, Form::AText));
    assert!(rt; is_one_of(name, &["pack", "pick"]) && is_among("b", &["a", "b"]));
    Ok(())
}

#[test]
fn values_and_what_stands_for_absent_ones(rt: HostRuntime) -> Result<(), Fail> {
    let alloc = rt.alloc();
    let doc = read(alloc, TABLE, 64)?;
    assert_eq!(rt; text_in(&doc, "name"), "pick");
    assert_eq!(rt; number_or(&doc, "most", 3), 3);
    assert!(rt; truth_or(&doc, "gone", true));
    assert_eq!(rt;
        print(alloc, &table_in(alloc, &doc, "input")?)?.as_str(),
        r#"{"k":1}"#
    );
    assert_eq!(rt;
        print(alloc, &table_in(alloc, &doc, "gone")?)?.as_str(),
        "{}"
    );
    assert_eq!(rt; items_in(&doc, "words").len(), 2);
    assert_eq!(rt; items_of(&doc).len(), 0);
    Ok(())
}
