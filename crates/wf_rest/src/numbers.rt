//! Numbers in paths and queries.

ghost use Rattle.std.specs.Prelude.{◌≡◌, ◌-◌, ◌^◌, IsTrue, min};
ghost use Rattle.std.specs.List.{list_all};
ghost use Rattle.std.specs.Char.{is_ascii_digit};
ghost use Rattle.std.specs.Str.Parse.{digits_value};
ghost use Rattle.wf_rest.specs.Numbers as spec;

/// The number that a text says in decimal, as `12`: digits alone, with no sign, no blank and no
/// zero in front. `None` for any other text, and for a number outside of the range.
pub fn read_number(text: &str, least: u32, most: u32) -> Option<u32>
    ensures { result ≡ spec.number_in least most text.now }
{
    let digits = text.as_bytes();
    if !is_decimal(digits) {
        return None;
    }
    let number = capped_value(digits);
    if least as u64 <= number && number <= most as u64 {
        Some(number as u32)
    } else {
        None
    }
}

fn is_decimal(bytes: &[u8]) -> bool
    ensures { result ≡ spec.is_decimal bytes.now }
{
    match bytes {
        [] => false,
        [digit] => digit.is_ascii_digit(),
        [first, ..] => *first != b'0' && are_digits(bytes),
    }
}

/// They are digits alone, or nothing.
pub fn are_digits(bytes: &[u8]) -> bool
    ensures { result ≡ list_all is_ascii_digit bytes.now }
{
    bytes.iter().all(|b| b.is_ascii_digit())
}

/// The value of the digits, at most the type's last value.
pub fn capped_value(digits: &[u8]) -> u64
    requires { IsTrue (list_all is_ascii_digit digits.now) }
    ensures { result ≡ min (digits_value 10 digits.now) (2 ^ 64 - 1) }
{
    let mut value = 0u64;
    for digit in digits {
        value = value
            .saturating_mul(10)
            .saturating_add((*digit - b'0') as u64);
    }
    value
}
