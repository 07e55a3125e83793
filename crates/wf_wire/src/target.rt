//! Where in a request line bytes end.

ghost use Rattle.std.specs.Prelude.{◌≡◌, ◌↔◌, IsTrue};
ghost use Rattle.httparse.specs.Grammar.{EndsInTarget};
ghost use Rattle.wf_wire.specs.Front as spec;

use httparse::{is_method_token, is_uri_token};

/// Where in a request line bytes end.
#[derive(Clone, Copy, Debug, PartialEq, Eq)]
pub enum Part {
    AtStart,
    AfterCr,
    InMethod,
    InTarget,
    Elsewhere,
}

fn step(part: Part, byte: u8) -> Part
    ensures { result ≡ spec.step part byte }
{
    match part {
        Part::AtStart => {
            if byte == b'\r' {
                Part::AfterCr
            } else if byte == b'\n' {
                Part::AtStart
            } else if is_method_token(byte) {
                Part::InMethod
            } else {
                Part::Elsewhere
            }
        }
        Part::AfterCr => if byte == b'\n' {
            Part::AtStart
        } else {
            Part::Elsewhere
        },
        Part::InMethod => {
            if is_method_token(byte) {
                Part::InMethod
            } else if byte == b' ' {
                Part::InTarget
            } else {
                Part::Elsewhere
            }
        }
        Part::InTarget => if is_uri_token(byte) {
            Part::InTarget
        } else {
            Part::Elsewhere
        },
        Part::Elsewhere => Part::Elsewhere,
    }
}

fn walk(bytes: &[u8]) -> Part
    ensures { result ≡ spec.walk spec.at_start bytes.now }
{
    let mut part = Part::AtStart;
    for byte in bytes {
        part = step(part, *byte);
    }
    part
}

/// Whether the bytes end inside a request's target.
pub fn ends_in_target(bytes: &[u8]) -> bool
    ensures { IsTrue result ↔ EndsInTarget bytes.now }
{
    matches!(walk(bytes), Part::InTarget)
}
