//! Whole numbers that stand as texts.

ghost use Rattle.std.specs.Prelude.{◌≡◌, slice_index};
ghost use Rattle.wf_rules.specs.Outputs as spec;
ghost use Rattle.wf_schedule.specs.Decimals.{begins_so};

/// The number that is printed as that text: no plus, no zero before other digits, and no zero with a minus.
#[tactic(auto, using(crate::proofs::DecimalLemmas::readable, crate::proofs::DecimalLemmas::unreadable, crate::proofs::DecimalLemmas::begins_otherwise))]
pub fn number_printed(text: &str) -> Option<i64>
    ensures { result ≡ spec.number_printed text.now }
{
    if !begins_so(text.as_bytes()) {
        return None;
    }
    match text.parse::<i64>() {
        Ok(number) => Some(number),
        Err(_) => None,
    }
}

/// The text begins as printed numbers do.
fn begins_so(text: &[u8]) -> bool
    ensures { result ≡ begins_so text.now }
{
    let first = byte_at(text, 0);
    if first == b'-' {
        return byte_at(text, 1) != b'0';
    }
    first != b'+' && (first != b'0' || text.len() == 1)
}

/// The byte at that place, 0 where there is none.
fn byte_at(text: &[u8], place: usize) -> u8
    ensures { result ≡ slice_index text.now place }
{
    match text.get(place) {
        Some(byte) => *byte,
        None => 0,
    }
}
