//! Names, and the references that expressions call nodes by.

ghost use Rattle.std.specs.Prelude.{◌≡◌};
ghost use Rattle.std.specs.List.{list_any, list_all};
ghost use Rattle.std.specs.Char.{is_ascii_digit};
ghost use Rattle.wf_defs.specs.Names as spec;

/// 1 to 255 bytes without control characters.
pub(crate) fn is_name(word: &str) -> bool
    ensures { result ≡ spec.is_name word.now }
{
    is_short(word) && !has_control(word.as_bytes())
}

fn is_short(word: &str) -> bool
    ensures { result ≡ spec.is_short word.now }
{
    !word.is_empty() && word.len() <= 255
}

fn has_control(bytes: &[u8]) -> bool
    ensures { result ≡ list_any spec.is_control bytes.now }
{
    bytes.iter().any(|byte| is_control(*byte))
}

fn is_control(byte: u8) -> bool
    ensures { result ≡ spec.is_control byte }
{
    byte < 32 || byte == 127
}

/// A name without signs that isn't `workflow` and doesn't name a turn of a loop.
pub(crate) fn is_reference(word: &str) -> bool
    ensures { result ≡ spec.is_reference word.now }
{
    is_name(word)
        && !has_sign(word.as_bytes())
        && word != "workflow"
        && !ends_in_turn(word.as_bytes())
}

fn has_sign(bytes: &[u8]) -> bool
    ensures { result ≡ list_any spec.is_sign bytes.now }
{
    bytes.iter().any(|byte| is_sign(*byte))
}

fn is_sign(byte: u8) -> bool
    ensures { result ≡ spec.is_sign byte }
{
    byte == b'.'
        || byte == b'['
        || byte == b']'
        || byte == b'{'
        || byte == b'}'
        || byte == b'$'
        || byte == b'\''
        || byte == b'"'
}

/// The word ends in two underscores and digits.
fn ends_in_turn(word: &[u8]) -> bool
    ensures { result ≡ spec.ends_in_turn word.now }
{
    for i in 0..word.len() {
        if is_turn(&word[i..]) {
            return true;
        }
    }
    false
}

fn is_turn(bytes: &[u8]) -> bool
    ensures { result ≡ spec.is_turn bytes.now }
{
    bytes.starts_with(b"__") && bytes.len() > 2 && are_digits(&bytes[2..])
}

pub(crate) fn are_digits(bytes: &[u8]) -> bool
    ensures { result ≡ list_all is_ascii_digit bytes.now }
{
    bytes.iter().all(|byte| byte.is_ascii_digit())
}
