//! Whether a message closes.

ghost use Rattle.std.specs.Prelude.{◌≡◌, ◌≤◌, length, reverse};
ghost use Rattle.httparse.specs.Grammar.{skip_ows, trim_ows};
ghost use Rattle.wf_wire.specs.Closing as spec;
ghost use Rattle.wf_wire.specs.Reading.{pairs};

use crate::fields::{Field, same_word};
use httparse::is_space_or_tab;

fn trim_start(mut s: &[u8]) -> &[u8]
    ensures { result.now ≡ skip_ows s.now }
{
    while let [first, rest @ ..] = s
        && is_space_or_tab(*first)
    {
        s = rest;
    }
    s
}

fn trim_end(mut s: &[u8]) -> &[u8]
    ensures { result.now ≡ reverse (skip_ows (reverse s.now)) }
{
    while let [rest @ .., last] = s
        && is_space_or_tab(*last)
    {
        s = rest;
    }
    s
}

fn trim(s: &[u8]) -> &[u8]
    ensures { result.now ≡ trim_ows s.now }
{
    trim_end(trim_start(s))
}

fn is_close(text: &[u8]) -> bool
    ensures { result ≡ spec.is_close text.now }
{
    same_word(trim(text), b"close")
}

#[tactic(auto, using(crate::proofs::CloseLemmas::by_parts))]
fn holds_close(value: &[u8]) -> bool
    ensures { result ≡ spec.holds_close value.now }
{
    let mut start = 0usize;
    for at in 0..value.len() {
        if value[at] == b',' {
            if is_close(&value[start..at]) {
                return true;
            }
            start = at + 1;
        }
    }
    is_close(&value[start..])
}

/// Whether a message of this version and with these fields closes.
pub fn closing(minor: u8, fields: &[Field]) -> bool
    ensures { result ≡ spec.closing minor (pairs fields.now) }
{
    if minor == 0 {
        return true;
    }
    for field in fields {
        if same_word(&field.name, b"connection") && holds_close(&field.value) {
            return true;
        }
    }
    false
}
