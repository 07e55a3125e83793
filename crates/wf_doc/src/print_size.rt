//! The length of the printed text.

ghost use Rattle.std.specs.Prelude.{◌≡◌, ◌-◌, ◌≤◌, ◌^◌, min, length, nat_lt};
ghost use Rattle.std.specs.Fmt.{decimal, signed_decimal};
ghost use Rattle.json.specs.Print.{quoted, escape_byte, escape_letter};
ghost use Rattle.wf_doc.specs.Json.{printed};
ghost use Rattle.wf_doc.specs.declared.doc.Doc as doc;

use crate::doc::Doc;
use crate::fields::Fields;
use sqlite_items::Items;

/// The length of what `print` answers, at most the type's last value. Takes no memory.
#[cycle(print_len)]
pub fn print_len(doc: &Doc) -> u64
    ensures { result ≡ min (length (printed doc.now)) (2 ^ 64 - 1) }
{
    match doc {
        Doc::Null | Doc::Bool(true) => 4,
        Doc::Bool(false) => 5,
        Doc::Int(n) => int_len(*n),
        Doc::Text(text) => quoted_len(text.as_str().as_bytes()),
        Doc::List(items) => list_len(items),
        Doc::Table(fields) => table_len(fields),
    }
}

#[cycle(print_len)]
fn list_len(items: &Items<Doc>) -> u64
    ensures { result ≡ min (length (printed (doc.List items.now))) (2 ^ 64 - 1) }
{
    // The bracket, and each item with the comma or the bracket that follows it.
    let mut total = 1u64;
    for item in items.as_slice() {
        total = total.saturating_add(print_len(item)).saturating_add(1);
    }
    total.max(2)
}

#[cycle(print_len)]
fn table_len(fields: &Fields<Doc>) -> u64
    ensures { result ≡ min (length (printed (doc.Table fields.now))) (2 ^ 64 - 1) }
{
    // The brace, and each entry with its colon and the comma or the brace that follows it.
    let mut total = 1u64;
    for entry in fields.entries() {
        let key = quoted_len(entry.key().as_str().as_bytes());
        let value = print_len(entry.value());
        total = total
            .saturating_add(key)
            .saturating_add(value)
            .saturating_add(2);
    }
    total.max(2)
}

fn quoted_len(text: &[u8]) -> u64
    ensures { result ≡ min (length (quoted text.now)) (2 ^ 64 - 1) }
{
    let mut total = 2u64;
    for byte in text {
        total = total.saturating_add(escaped_len(*byte));
    }
    total
}

fn has_short_escape(byte: u8) -> bool
    ensures { result ≡ nat_lt 0 (escape_letter byte) }
{
    matches!(byte, b'"' | b'\\' | b'\n' | b'\r' | b'\t' | 8 | 12)
}

#[tactic(auto, unfolding(json::specs::Print::escape_byte))]
fn escaped_len(byte: u8) -> u64
    ensures { result ≡ length (escape_byte byte) }
{
    if has_short_escape(byte) {
        2
    } else if byte < b' ' {
        6
    } else {
        1
    }
}

fn int_len(n: i64) -> u64
    ensures { result ≡ length (signed_decimal n) }
{
    let digits = digit_count(n.unsigned_abs());
    if n < 0 { digits + 1 } else { digits }
}

fn digit_count(n: u64) -> u64
    ensures count { result ≡ length (decimal n) }
    ensures few { result ≤ 20 }
{
    let mut rest = n;
    let mut count = 1;
    while rest >= 10 {
        rest /= 10;
        count += 1;
    }
    count
}
