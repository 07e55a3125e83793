//! How texts name one turn of a loop: a reference, two underscores and the number of the turn.

ghost use Rattle.std.specs.Prelude.{◌≡◌, ◌+◌, ◌-◌, ◌^◌, ◌++◌, codes, drop, length, min, true, false, if◌then◌else◌, option_map, IfNone, IfSome, Some, None};
ghost use Rattle.std.specs.Char.{is_ascii_digit};
ghost use Rattle.std.specs.List.{list_all};
ghost use Rattle.std.specs.Str.Parse.{digits_value};
ghost use Rattle.wf_machine.specs.Naming.{names_turn};
ghost use Rattle.wf_flow.specs.Turns.{begins_turn, is_turn};

/// Whether the text is the reference, two underscores and the number of a turn.
#[tactic(auto, using(crate::proofs::TurnLemmas::turn_is_named, crate::proofs::TurnLemmas::turn_is_missing))]
pub fn names_turn(reference: &str, text: &str) -> bool
    ensures { result ≡ names_turn reference.now text.now }
{
    match turn_digits(reference, text) {
        Some(_) => true,
        None => false,
    }
}

/// The digits of the turn that the text names, behind the reference and two underscores.
#[tactic(auto, using(crate::proofs::TurnLemmas::turn_found, crate::proofs::TurnLemmas::turn_not_found, crate::proofs::TurnLemmas::turn_missing, crate::proofs::TurnLemmas::turn_all_digits))]
pub fn turn_digits<'t>(reference: &str, text: &'t str) -> Option<&'t [u8]>
    ensures digits { option_map (λ digits. digits.now) result
        ≡ (if names_turn reference.now text.now then Some (drop (length reference.now + 2) text.now) else None) }
    ensures all { IfSome result (λ digits. list_all is_ascii_digit digits.now ≡ true) }
{
    match behind_underscores(reference.as_bytes(), text.as_bytes()) {
        Some(digits) => { if is_turn(digits) { Some(digits) } else { None } }
        None => None,
    }
}

/// What stands behind the reference and two underscores, where the text begins so.
#[tactic(auto, using(crate::proofs::TurnLemmas::no_front, crate::proofs::TurnLemmas::no_underscores, crate::proofs::TurnLemmas::parts_found))]
fn behind_underscores<'t>(reference: &[u8], text: &'t [u8]) -> Option<&'t [u8]>
    ensures some { IfSome result (λ digits. text.now ≡ reference.now ++ codes "__" ++ digits.now) }
    ensures none { IfNone result (names_turn reference.now text.now ≡ false) }
{
    let Some(rest) = text.strip_prefix(reference) else {
        return None;
    };
    let Some(digits) = rest.strip_prefix(b"__") else {
        return None;
    };
    Some(digits)
}

/// Whether the text is the decimal of a number of at least 1. Decimals have 64 digits at most.
fn is_turn(text: &[u8]) -> bool
    ensures { result ≡ is_turn text.now }
{
    begins_turn(text) && are_digits(text)
}

fn are_digits(text: &[u8]) -> bool
    ensures { result ≡ list_all is_ascii_digit text.now }
{
    text.iter().all(|byte| byte.is_ascii_digit())
}

fn begins_turn(text: &[u8]) -> bool
    ensures { result ≡ begins_turn text.now }
{
    match text {
        [first, ..] => *first != b'0' && text.len() <= 64,
        [] => false,
    }
}

/// The value of the digits, at most the type's last value.
pub fn capped_value(digits: &[u8]) -> u64
    requires { list_all is_ascii_digit digits.now ≡ true }
    ensures { result ≡ min (digits_value 10 digits.now) (2 ^ 64 - 1) }
{
    let mut value = 0u64;
    for digit in digits {
        value = value
            .saturating_mul(10)
            .saturating_add((*digit - b'0') as u64);
    }
    value
}
