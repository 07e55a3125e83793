//! Each call once, and a text with each kind of escape.

use std::test::Fail;
use wf_doc::{DocFault, Fields, Path, Text, at, copy, depth, print, print_len, read};

/// Keys out of order and twice, each escape, a pair of surrogates, and blanks.
const TEXT: &str =
    r#" { "b" : [ true , null , -9223372036854775808 ] , "10" : 3 , "a" : 1 , "a" : "\u0041\/\"\\\b\f\n\r\t\u001F\u007f\ud83d\ude00-1.5" } "#;

/// The same as it is printed.
const PRINTED: &str =
    "{\"10\":3,\"a\":\"A/\\\"\\\\\\b\\f\\n\\r\\t\\u001f\u{7f}\u{1f600}-1.5\",\"b\":[true,null,-9223372036854775808]}";

#[test]
fn a_text_is_read_and_printed(rt: HostRuntime) -> Result<(), Fail> {
    let alloc = rt.alloc();
    let doc = copy(alloc, &read(alloc, TEXT.as_bytes(), 2)?)?;
    assert_eq!(rt; print(alloc, &doc)?.as_str(), PRINTED);
    assert_eq!(rt; print_len(&doc), PRINTED.len() as u64);
    assert_eq!(rt; depth(&doc), 2);
    Ok(())
}

#[test]
fn the_first_fault_is_told(rt: HostRuntime) {
    for (text, fault) in [
        (r#""\ud800""#, DocFault::Syntax),
        ("[1.5", DocFault::Fraction),
        ("[-0", DocFault::Range),
        ("[[]]", DocFault::TooDeep),
    ] {
        assert_eq!(rt;
            read(rt.alloc(), text.as_bytes(), 1).err(),
            Some(fault),
            "{text}"
        );
    }
}

#[test]
fn a_path_is_followed(rt: HostRuntime) -> Result<(), Fail> {
    let alloc = rt.alloc();
    let doc = read(alloc, br#"{"a b":{"c":[5,"x"]}}"#, 64)?;
    let path = Path::read(alloc, "a b.c[001]")?.ok_or("no path")?;
    assert_eq!(rt; path.len(), 3);
    assert_eq!(rt; path.name(1), Some("c"));
    let part = at(&doc, &path, 0).ok_or("no part")?;
    assert!(rt; part.as_text().is_some_and(|text| text.is("x")));
    assert!(rt; Path::read(alloc, "a[2147483648]")?.is_none());
    Ok(())
}

#[test]
fn fields_stand_in_order(rt: HostRuntime) -> Result<(), Fail> {
    let alloc = rt.alloc();
    let mut fields = Fields::new(alloc);
    fields.set(Text::new(alloc, "b")?, 1)?;
    fields.set(Text::new(alloc, "a")?, 2)?;
    fields.set(Text::new(alloc, "b")?, 3)?;
    assert!(rt; !fields.is_empty());
    assert_eq!(rt; fields.len(), 2);
    assert_eq!(rt; fields.get("b").copied(), Some(3));
    assert_eq!(rt; fields.at(0).map(|entry| *entry.value()), Some(2));
    Ok(())
}

#[test]
fn a_copy_that_shares_its_entries_is_changed_alone(rt: HostRuntime) -> Result<(), Fail> {
    let alloc = rt.alloc();
    let mut fields = Fields::new(alloc);
    fields.set(Text::new(alloc, "a")?, 1)?;
    let mut copy = fields.share(alloc)?;
    copy.set(Text::new(alloc, "a")?, 2)?;
    copy.set(Text::new(alloc, "b")?, 3)?;
    assert_eq!(rt; fields.len(), 1);
    assert_eq!(rt; fields.get("a").copied(), Some(1));
    assert_eq!(rt; copy.get("a").copied(), Some(2));
    assert!(rt; copy.at(1).is_some_and(|entry| entry.key().is("b")));
    Ok(())
}
