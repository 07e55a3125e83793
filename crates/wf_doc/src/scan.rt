//! The scan for number tokens that no document has.

ghost use Rattle.std.specs.Prelude.{◌≡◌, ◌-◌, ◌^◌, ◌≤◌, ◌<◌, min, length, IsTrue};
ghost use Rattle.std.specs.List.{prefix_len, list_all, list_any};
ghost use Rattle.std.specs.Char.{is_ascii_digit};
ghost use Rattle.std.specs.Str.Parse.{digits_value};
ghost use Rattle.wf_doc.specs.Scan as spec;

use crate::digits::{are_digits, capped_value};
use crate::no_memory::NoMemory;

/// Why bytes are no document. Of several faults the answer is that of the first number token with a fault, else
/// `Syntax`, else `TooDeep`.
#[derive(Clone, Copy, Debug, PartialEq, Eq)]
pub enum DocFault {
    /// The bytes aren't one JSON text in UTF-8 whose lists and tables nest at most 127 deep.
    Syntax,
    /// A number token outside strings has a `.`, `e` or `E`.
    Fraction,
    /// A number token outside strings is whole and doesn't fit 64 signed bits, or is `-0`.
    Range,
    /// Lists and tables nest deeper than was asked for.
    TooDeep,
    NoMemory,
}

impl From<NoMemory> for DocFault {
    ghost use Rattle.std.specs.Prelude.{◌≡◌};
    ghost use Rattle.wf_doc.specs.declared.scan.DocFault.TheVariants.{NoMemory as OutOfMemory};

    ghost from_gives = { λ _ fault. fault ≡ OutOfMemory };

    fn from(_refused: NoMemory) -> DocFault {
        DocFault::NoMemory
    }
}

/// Where the scan stands.
#[derive(Clone, Copy)]
enum Place {
    Outside,
    InNumber,
    InString,
    /// Behind a backslash in a string.
    Escaped,
}

fn is_fraction_sign(byte: u8) -> bool
    ensures { result ≡ spec.is_fraction_sign byte }
{
    byte == b'.' || byte == b'e' || byte == b'E'
}

fn is_number_byte(byte: u8) -> bool
    ensures { result ≡ spec.is_number_byte byte }
{
    byte.is_ascii_digit() || byte == b'+' || byte == b'-' || is_fraction_sign(byte)
}

fn token_len(bytes: &[u8]) -> usize
    ensures value { result ≡ prefix_len spec.is_number_byte bytes.now }
    ensures within { result ≤ length bytes.now }
{
    for (i, byte) in bytes.iter().enumerate() {
        if !is_number_byte(*byte) {
            return i;
        }
    }
    bytes.len()
}

fn is_negative(token: &[u8]) -> bool
    ensures { result ≡ spec.is_negative token.now }
{
    match token {
        [first, ..] => *first == b'-',
        [] => false,
    }
}

fn digits_of(token: &[u8]) -> &[u8]
    ensures { result.now ≡ spec.digits_of token.now }
{
    if is_negative(token) {
        &token[1..]
    } else {
        token
    }
}

fn is_whole(token: &[u8]) -> bool
    ensures { result ≡ spec.is_whole token.now }
{
    let digits = digits_of(token);
    !digits.is_empty() && are_digits(digits)
}

fn has_fraction_sign(token: &[u8]) -> bool
    ensures { result ≡ list_any spec.is_fraction_sign token.now }
{
    token.iter().any(|b| is_fraction_sign(*b))
}

fn is_out_of_range(negative: bool, size: usize, value: u64) -> bool
    ensures { result ≡ spec.is_out_of_range negative size value }
{
    if negative {
        value > 1 << 63 || (size == 1 && value == 0)
    } else {
        value >= 1 << 63
    }
}

fn token_fault(token: &[u8]) -> Option<DocFault>
    ensures { result ≡ spec.token_fault token.now }
{
    if has_fraction_sign(token) {
        return Some(DocFault::Fraction);
    }
    if !is_whole(token) {
        return None;
    }
    let digits = digits_of(token);
    if is_out_of_range(is_negative(token), digits.len(), capped_value(digits)) {
        Some(DocFault::Range)
    } else {
        None
    }
}

fn next(place: Place, byte: u8) -> Place
    ensures { result ≡ spec.next place byte }
{
    match place {
        Place::InString => match byte {
            b'"' => Place::Outside,
            b'\\' => Place::Escaped,
            _ => Place::InString,
        },
        Place::Escaped => Place::InString,
        Place::InNumber => {
            if is_number_byte(byte) {
                Place::InNumber
            } else if byte == b'"' {
                Place::InString
            } else {
                Place::Outside
            }
        }
        Place::Outside => {
            if byte == b'"' {
                Place::InString
            } else if byte.is_ascii_digit() || byte == b'-' {
                Place::InNumber
            } else {
                Place::Outside
            }
        }
    }
}

fn begins_token(place: Place, byte: u8) -> bool
    ensures { result ≡ spec.begins_token place byte }
{
    match place {
        Place::Outside => byte.is_ascii_digit() || byte == b'-',
        _ => false,
    }
}

/// The fault of the first bad number token.
pub(crate) fn first_fault(bytes: &[u8]) -> Option<DocFault>
    ensures { result ≡ spec.first_fault spec.outside bytes.now }
{
    let mut place = Place::Outside;
    for (i, byte) in bytes.iter().enumerate() {
        if begins_token(place, *byte) {
            let rest = &bytes[i..];
            let found = token_fault(&rest[..token_len(rest)]);
            if found.is_some() {
                return found;
            }
        }
        place = next(place, *byte);
    }
    None
}
