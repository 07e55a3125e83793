//! Texts that say how long something takes.

ghost use Rattle.std.specs.Prelude.{◌≡◌, ◌<◌, ◌≤◌, ◌∷◌, [], IfNone, IfSome, IsTrue, Some, length};
ghost use Rattle.std.specs.List.{prefix_len};
ghost use Rattle.std.specs.Str.Parse.{digits_value};
ghost use Rattle.wf_time.specs.Durations.{are_alike, capped, days, duration, group_seconds, hours, is_number, is_one_of, minutes, runs, seconds, seconds_in, unit_seconds, words};

/// The longest duration, in seconds.
const LONGEST: u64 = 2_147_483_647;

/// The seconds that the text says: one or more numbers, each with its unit, and spaces anywhere between them. A
/// unit is `d`, `day` or `days`; `h`, `hr`, `hrs`, `hour` or `hours`; `m`, `min`, `mins`, `minute` or `minutes`;
/// `s`, `sec`, `secs`, `second` or `seconds`. None is answered for any other text, and where the sum is above
/// 2147483647.
pub fn duration_read(text: &str) -> Option<u64>
    ensures { result ≡ duration text.now }
{
    let text = text.as_bytes();
    next_word(text)?;
    sum_of_groups(text)
}

/// The sum of all numbers with their units.
fn sum_of_groups(text: &[u8]) -> Option<u64>
    ensures { result ≡ capped (seconds_in (words text.now)) }
{
    let mut sum = 0;
    let mut rest = text;
    while let Some((number, after)) = next_word(rest) {
        let (unit, after) = next_word(after)?;
        sum += group_seconds(number, unit)?;
        if sum > LONGEST {
            return None;
        }
        rest = after;
    }
    Some(sum)
}

/// The seconds of one number with its unit.
fn group_seconds(number: &[u8], unit: &[u8]) -> Option<u64>
    ensures { result ≡ capped (group_seconds number.now unit.now) }
{
    let seconds = unit_seconds(unit)?;
    if !is_number(number) {
        return None;
    }
    let group = number_within(number)? * seconds;
    if group <= LONGEST { Some(group) } else { None }
}

fn is_number(word: &[u8]) -> bool
    ensures { result ≡ is_number word.now }
{
    word.iter().all(|byte| byte.is_ascii_digit())
}

/// The value of the digits, where it is at most the longest duration.
fn number_within(digits: &[u8]) -> Option<u64>
    requires { IsTrue (is_number digits.now) }
    ensures { result ≡ capped (Some (digits_value 10 digits.now)) }
{
    let mut value = 0u64;
    for digit in digits {
        let next = value * 10 + (*digit - b'0') as u64;
        if next > LONGEST {
            return None;
        }
        value = next;
    }
    Some(value)
}

/// The seconds of the unit of that name.
fn unit_seconds(unit: &[u8]) -> Option<u64>
    ensures { result ≡ unit_seconds unit.now }
{
    if is_day(unit) {
        Some(86_400)
    } else if is_hour(unit) {
        Some(3600)
    } else if is_minute(unit) {
        Some(60)
    } else if is_second(unit) {
        Some(1)
    } else {
        None
    }
}

fn is_day(unit: &[u8]) -> bool
    ensures { result ≡ is_one_of days unit.now }
{
    unit == b"d".as_slice() || unit == b"day".as_slice() || unit == b"days".as_slice()
}

fn is_hour(unit: &[u8]) -> bool
    ensures { result ≡ is_one_of hours unit.now }
{
    unit == b"h".as_slice()
        || unit == b"hr".as_slice()
        || unit == b"hrs".as_slice()
        || unit == b"hour".as_slice()
        || unit == b"hours".as_slice()
}

fn is_minute(unit: &[u8]) -> bool
    ensures { result ≡ is_one_of minutes unit.now }
{
    unit == b"m".as_slice()
        || unit == b"min".as_slice()
        || unit == b"mins".as_slice()
        || unit == b"minute".as_slice()
        || unit == b"minutes".as_slice()
}

fn is_second(unit: &[u8]) -> bool
    ensures { result ≡ is_one_of seconds unit.now }
{
    unit == b"s".as_slice()
        || unit == b"sec".as_slice()
        || unit == b"secs".as_slice()
        || unit == b"second".as_slice()
        || unit == b"seconds".as_slice()
}

/// The first word, and what follows it.
fn next_word(text: &[u8]) -> Option<(&[u8], &[u8])>
    ensures none { IfNone result (words text.now ≡ []) }
    ensures some { IfSome result (λ found. words text.now ≡ found.0.now ∷ words found.1.now) }
    ensures shorter { IfSome result (λ found. length found.1.now < length text.now) }
{
    let mut rest = text;
    while let Some((run, after)) = next_run(rest) {
        if run[0] != b' ' {
            return Some((run, after));
        }
        rest = after;
    }
    None
}

/// The first run, and what follows it.
fn next_run(text: &[u8]) -> Option<(&[u8], &[u8])>
    ensures none { IfNone result (text.now ≡ []) }
    ensures some { IfSome result (λ found. runs text.now ≡ found.0.now ∷ runs found.1.now) }
    ensures filled { IfSome result (λ found. 0 < length found.0.now) }
    ensures shorter { IfSome result (λ found. length found.1.now < length text.now) }
{
    if text.is_empty() {
        return None;
    }
    let more = alike_len(text[0], &text[1..]);
    Some(text.split_at(1 + more))
}

/// How many bytes from the front on are like the first.
fn alike_len(first: u8, bytes: &[u8]) -> usize
    ensures value { result ≡ prefix_len (are_alike first) bytes.now }
    ensures within { result ≤ length bytes.now }
{
    for (i, byte) in bytes.iter().enumerate() {
        if !are_alike(first, *byte) {
            return i;
        }
    }
    bytes.len()
}

/// Two digits, two spaces, or two bytes that are neither.
fn are_alike(a: u8, b: u8) -> bool
    ensures { result ≡ are_alike a b }
{
    a.is_ascii_digit() == b.is_ascii_digit() && (a == b' ') == (b == b' ')
}
