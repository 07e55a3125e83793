//! What the fields of a head say of its body.

ghost use Rattle.std.specs.Str.Parse.{digits_value};
ghost use Rattle.std.specs.Prelude.{◌==◌, ◌≡◌, IsTrue, codes};
ghost use Rattle.std.specs.Char.{is_ascii_digit};
ghost use Rattle.std.specs.List.{list_all};
ghost use Rattle.wf_wire.specs.Fields as spec;
ghost use Rattle.wf_wire.specs.Reading.{pairs, IsFirst, significant as significant_of};

use crate::fields::{Field, FieldLook, find_field, first_value, same_word};

/// What the fields say of the body.
#[derive(Clone, Copy, Debug, PartialEq, Eq)]
pub enum Frame {
    /// It has so many bytes.
    Sized(u32),
    BadFrame,
    BadCoding,
    LargeBody,
}

fn all_digits(text: &[u8]) -> bool
    ensures { result ≡ list_all is_ascii_digit text.now }
{
    for byte in text {
        if !byte.is_ascii_digit() {
            return false;
        }
    }
    true
}

fn is_number(text: &[u8]) -> bool
    ensures { result ≡ spec.is_number text.now }
{
    !text.is_empty() && all_digits(text)
}

/// The digits from the first that isn't zero.
fn significant(text: &[u8]) -> &[u8]
    ensures { result.now ≡ significant_of text.now }
{
    let mut rest = text;
    while let [b'0', more @ ..] = rest {
        rest = more;
    }
    rest
}

fn same_value(a: &[u8], b: &[u8]) -> bool
    requires a { IsTrue (spec.is_number a.now) }
    requires b { IsTrue (spec.is_number b.now) }
    ensures { result ≡ (digits_value 10 a.now == digits_value 10 b.now) }
{
    significant(a) == significant(b)
}

fn agrees(first: &[u8], other: &[u8]) -> bool
    requires { IsTrue (spec.is_number first.now) }
    ensures { result ≡ spec.agrees first.now other.now }
{
    is_number(other) && same_value(first, other)
}

fn all_agree(fields: &[Field], first: &[u8]) -> bool
    requires { IsTrue (spec.is_number first.now) }
    ensures { result ≡ spec.all_agree first.now (spec.lengths (pairs fields.now)) }
{
    for field in fields {
        if same_word(&field.name, b"content-length") && !agrees(first, &field.value) {
            return false;
        }
    }
    true
}

fn first_length(fields: &[Field]) -> Option<&[u8]>
    ensures { IsFirst (spec.lengths (pairs fields.now)) result }
{
    first_value(fields, b"content-length")
}

fn number_within(text: &[u8], limit: u32) -> Option<u32>
    requires { IsTrue (spec.is_number text.now) }
    ensures { result ≡ spec.number_within limit text.now }
{
    let mut total = 0u32;
    for byte in text {
        let next = total as u64 * 10 + (*byte as u64 - 48);
        if next > limit as u64 {
            return None;
        }
        total = next as u32;
    }
    Some(total)
}

fn length_frame(fields: &[Field], limit: u32) -> Frame
    ensures { result ≡ spec.length_frame limit (spec.lengths (pairs fields.now)) }
{
    match first_length(fields) {
        None => Frame::Sized(0),
        Some(first) => {
            if !is_number(first) || !all_agree(fields, first) {
                return Frame::BadFrame;
            }
            match number_within(first, limit) {
                Some(size) => Frame::Sized(size),
                None => Frame::LargeBody,
            }
        }
    }
}

fn coding_frame(minor: u8) -> Frame
    ensures { result ≡ spec.coding_frame minor }
{
    if minor == 0 {
        Frame::BadFrame
    } else {
        Frame::BadCoding
    }
}

/// What the fields say of a body that may have `limit` bytes, in a message of HTTP/1.`minor`.
///
/// Lengths are compared as numbers (RFC 9112, section 6.3): `2` and `002` agree. No transfer coding is read.
pub fn framing(fields: &[Field], minor: u8, limit: u32) -> Frame
    ensures { result ≡ spec.framing limit minor (pairs fields.now) }
{
    match find_field(fields, b"transfer-encoding") {
        FieldLook::Absent => length_frame(fields, limit),
        FieldLook::Many => Frame::BadFrame,
        FieldLook::One(_) => match first_length(fields) {
            Some(_) => Frame::BadFrame,
            None => coding_frame(minor),
        },
    }
}
