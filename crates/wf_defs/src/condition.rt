//! The condition of a DO_WHILE: `$.REF['iteration'] < N`, or the same inside `if ( .. ) { true; } else { false; }`.
//!
//! Blanks may stand between two of its signs and words, and nowhere else. A word is looked for at each blank from
//! the left and taken where it fits first, so that no text is read twice.

ghost use Rattle.std.specs.Prelude.{◌≡◌, ◌+◌, ◌-◌, ◌^◌, ◌≤◌, ◌<◌, IfSome, IsTrue, drop, filter, length, map, min, option_map, true};
ghost use Rattle.std.specs.List.{list_all};
ghost use Rattle.std.specs.Char.{is_ascii_digit};
ghost use Rattle.std.specs.Str.Parse.{digits_value};
ghost use Rattle.wf_doc.specs.Fields.{keys};
ghost use Rattle.wf_defs.specs.Condition as spec;

use wf_doc::{Doc, SharedEntry};

// ---- words

/// What follows the word, where the text begins with it.
fn after_word<'a>(word: &[u8], text: &'a [u8]) -> Option<&'a [u8]>
    ensures { option_map (λ rest. rest.now) result ≡ spec.after_word word.now text.now }
{
    if text.starts_with(word) {
        Some(&text[word.len()..])
    } else {
        None
    }
}

/// What follows the word, before which blanks may stand.
fn after_blanks<'a>(word: &[u8], text: &'a [u8]) -> Option<&'a [u8]>
    ensures { option_map (λ rest. rest.now) result ≡ spec.after_blanks word.now text.now }
{
    for (i, byte) in text.iter().enumerate() {
        let rest = &text[i..];
        if rest.starts_with(word) {
            return Some(&rest[word.len()..]);
        }
        if *byte != b' ' {
            return None;
        }
    }
    after_word(word, &text[text.len()..])
}

/// What follows these words, one after another.
fn after_words<'a>(words: &[&[u8]], text: &'a [u8]) -> Option<&'a [u8]>
    ensures { option_map (λ rest. rest.now) result
        ≡ spec.after_words (map (λ w. w.now) words.now) text.now }
{
    let mut rest = text;
    for word in words {
        rest = after_blanks(word, rest)?;
    }
    Some(rest)
}

/// What follows the word, or the text itself where the word isn't there.
fn after_optional<'a>(word: &[u8], text: &'a [u8]) -> &'a [u8]
    ensures { result.now ≡ spec.after_optional word.now text.now }
{
    after_blanks(word, text).unwrap_or(text)
}

fn skip_blanks(text: &[u8]) -> &[u8]
    ensures { result.now ≡ spec.skip_blanks text.now }
{
    for (i, byte) in text.iter().enumerate() {
        if *byte != b' ' {
            return &text[i..];
        }
    }
    &text[text.len()..]
}

/// How many blanks stand at the front.
fn blank_count(text: &[u8]) -> usize
    ensures value { result ≡ spec.blank_count text.now }
    ensures within { result ≤ length text.now }
{
    for (i, byte) in text.iter().enumerate() {
        if *byte != b' ' {
            return i;
        }
    }
    text.len()
}

// ---- around the comparison

fn is_bracketed(text: &[u8]) -> bool
    ensures { result ≡ spec.is_bracketed text.now }
{
    text.starts_with(b"if")
}

fn after_braces<'a>(word: &[u8], text: &'a [u8]) -> Option<&'a [u8]>
    ensures { option_map (λ rest. rest.now) result ≡ spec.after_braces word.now text.now }
{
    let rest = after_words(&[b"{", word], text)?;
    after_blanks(b"}", after_optional(b";", rest))
}

fn after_else(text: &[u8]) -> Option<&[u8]>
    ensures { option_map (λ rest. rest.now) result ≡ spec.after_else text.now }
{
    after_braces(b"false", after_blanks(b"else", text)?)
}

/// What follows `{ true; } else { false; }`.
fn after_rest(text: &[u8]) -> Option<&[u8]>
    ensures { option_map (λ rest. rest.now) result ≡ spec.after_rest text.now }
{
    after_else(after_braces(b"true", text)?)
}

fn after_closing(text: &[u8]) -> Option<&[u8]>
    ensures { option_map (λ rest. rest.now) result ≡ spec.after_closing text.now }
{
    after_rest(after_blanks(b")", text)?)
}

/// That is all of the text.
fn is_rest(text: &[u8]) -> bool
    ensures { result ≡ spec.is_rest text.now }
{
    match after_rest(text) {
        Some(rest) => rest.is_empty(),
        None => false,
    }
}

/// What follows the comparison ends the condition.
fn is_end(bracketed: bool, text: &[u8]) -> bool
    ensures { result ≡ spec.is_end bracketed text.now }
{
    if bracketed {
        is_closing(text)
    } else {
        text.is_empty()
    }
}

fn is_closing(text: &[u8]) -> bool
    ensures { result ≡ spec.is_end true text.now }
{
    match after_closing(text) {
        Some(rest) => rest.is_empty(),
        None => false,
    }
}

/// The condition from its comparison on.
fn comparison(text: &[u8]) -> Option<&[u8]>
    ensures { option_map (λ rest. rest.now) result ≡ spec.comparison text.now }
{
    if is_bracketed(text) {
        after_opening(text)
    } else {
        Some(text)
    }
}

fn after_opening(text: &[u8]) -> Option<&[u8]>
    ensures { option_map (λ rest. rest.now) result ≡ spec.after_opening text.now }
{
    let rest = after_word(b"if", text)?;
    Some(skip_blanks(after_blanks(b"(", rest)?))
}

// ---- the left side

/// What follows the left side with these quotes.
fn after_left<'a>(quote: &[u8], reference: &[u8], text: &'a [u8]) -> Option<&'a [u8]>
    ensures { option_map (λ rest. rest.now) result
        ≡ spec.after_left quote.now reference.now text.now }
{
    let rest = after_word(b"$", text)?;
    let words = [
        b".",
        reference,
        b"[",
        quote,
        b"iteration",
        quote,
        b"]",
        b"<",
    ];
    after_words(&words, rest)
}

/// The condition from what the iteration is compared with on.
fn right_side<'a>(reference: &[u8], text: &'a [u8]) -> Option<&'a [u8]>
    ensures { option_map (λ rest. rest.now) result ≡ spec.right_side reference.now text.now }
{
    let rest = comparison(text)?;
    after_left(b"'", reference, rest).or(after_left(b"\"", reference, rest))
}

// ---- a number on the right

fn is_negative(text: &[u8]) -> bool
    ensures { result ≡ spec.is_negative text.now }
{
    !text.is_empty() && text[0] == b'-'
}

fn without_sign(text: &[u8]) -> &[u8]
    ensures { result.now ≡ spec.without_sign text.now }
{
    if is_negative(text) { &text[1..] } else { text }
}

fn digit_count(text: &[u8]) -> usize
    ensures value { result ≡ spec.digit_count text.now }
    ensures within { result ≤ length text.now }
{
    for (i, byte) in text.iter().enumerate() {
        if !byte.is_ascii_digit() {
            return i;
        }
    }
    text.len()
}

/// The value of the digits, at most the type's last value.
fn capped_value(digits: &[u8]) -> u64
    requires { IsTrue (list_all is_ascii_digit digits.now) }
    ensures { result ≡ min (digits_value 10 digits.now) (2 ^ 64 - 1) }
{
    let mut value = 0u64;
    for digit in digits {
        value = value
            .saturating_mul(10)
            .saturating_add((*digit - b'0') as u64);
    }
    value
}

fn is_number_text(bracketed: bool, digits: &[u8]) -> bool
    ensures { result ≡ spec.is_number_text bracketed digits.now }
{
    let count = digit_count(digits);
    count > 0 && is_end(bracketed, &digits[count..])
}

/// The number of this sign and size, where it fits 64 signed bits.
fn signed(negative: bool, size: u64) -> Option<i64>
    ensures { result ≡ spec.signed negative size }
{
    if negative {
        below_zero(size)
    } else if size < 1 << 63 {
        Some(size as i64)
    } else {
        None
    }
}

fn below_zero(size: u64) -> Option<i64>
    ensures { result ≡ spec.signed true size }
{
    if size > 1 << 63 {
        None
    } else if size == 0 {
        Some(0)
    } else {
        Some(-((size - 1) as i64) - 1)
    }
}

#[tactic(auto, using(crate::proofs::ConditionLemmas::all_digits))]
fn number_at(bracketed: bool, text: &[u8]) -> Option<i64>
    ensures { result ≡ spec.number_at bracketed text.now }
{
    let digits = without_sign(text);
    if !is_number_text(bracketed, digits) {
        return None;
    }
    let size = capped_value(&digits[..digit_count(digits)]);
    signed(is_negative(text), size)
}

/// The number that the iteration is compared with, where it is one.
pub(crate) fn condition_number(reference: &str, text: &str) -> Option<i64>
    ensures { result ≡ spec.condition_number reference.now text.now }
{
    let text = text.as_bytes();
    let rest = right_side(reference.as_bytes(), text)?;
    number_at(is_bracketed(text), skip_blanks(rest))
}

// ---- a parameter on the right

/// The text is the key, with blanks before it or without. The blanks at its front are counted once for all keys.
fn stands_last(blanks: usize, key: &[u8], text: &[u8]) -> bool
    requires { blanks ≡ spec.blank_count text.now }
    ensures { result ≡ spec.stands_last key.now text.now }
{
    if key.len() > text.len() {
        return false;
    }
    let before = text.len() - key.len();
    before <= blanks && &text[before..] == key
}

/// Where the word ends that stands at this place.
fn word_end(start: usize, word: &[u8], text: &[u8]) -> Option<usize>
    requires { start ≤ length text.now }
    ensures value { option_map (λ end. drop end text.now) result
        ≡ spec.after_word word.now (drop start text.now) }
    ensures within { IfSome result (λ end. end ≤ length text.now) }
{
    if text[start..].starts_with(word) {
        Some(start + word.len())
    } else {
        None
    }
}

/// Where the key ends, before which blanks may stand: its own blanks are the last of those.
fn key_end(blanks: usize, key: &[u8], text: &[u8]) -> Option<usize>
    requires { blanks ≡ spec.blank_count text.now }
    ensures value { option_map (λ end. drop end text.now) result
        ≡ spec.after_blanks key.now text.now }
    ensures within { IfSome result (λ end. end ≤ length text.now) }
{
    let own = blank_count(key);
    if own == key.len() {
        return word_end(0, key, text);
    }
    if own > blanks {
        return None;
    }
    word_end(blanks - own, key, text)
}

/// The first of the places from which on the text ends a condition in brackets, and the end of these places. They are
/// those of the last `)` and of the blanks before it.
fn closing_span(text: &[u8]) -> (usize, usize)
    ensures { spec.IsSpan text.now 0 result.0 result.1 }
{
    let mut first = text.len();
    let mut end = text.len();
    for n in 0..text.len() {
        let i = text.len() - 1 - n;
        let wider = wider_span(text, i, first, end);
        first = wider.0;
        end = wider.1;
    }
    (first, end)
}

/// The span of the places from the i-th on, where that of the places behind it is known.
fn wider_span(text: &[u8], i: usize, first: usize, end: usize) -> (usize, usize)
    requires here { i < length text.now }
    requires before { i < first }
    requires behind { spec.IsSpan text.now (i + 1) first end }
    ensures span { spec.IsSpan text.now i result.0 result.1 }
    ensures low { i ≤ result.0 }
{
    if text[i] == b' ' {
        if first == i + 1 && first < end {
            return (i, end);
        }
        return (first, end);
    }
    if text[i] != b')' {
        return (first, end);
    }
    if is_rest(&text[i + 1..]) {
        return (i, i + 1);
    }
    (first, end)
}

/// The key stands there, and then the end. The blanks at the front of the text, and the span of the places that close
/// the brackets, are found once for all keys.
fn is_key(bracketed: bool, blanks: usize, span: (usize, usize), text: &[u8], key: &[u8]) -> bool
    requires blanks { blanks ≡ spec.blank_count text.now }
    requires span { spec.IsSpan text.now 0 span.0 span.1 }
    ensures { result ≡ spec.is_key bracketed text.now key.now }
{
    if !bracketed {
        return stands_last(blanks, key, text);
    }
    match key_end(blanks, key, text) {
        Some(place) => span.0 <= place && place < span.1,
        None => false,
    }
}

/// The longest key that fits, the first of several.
#[tactic(auto, using(crate::proofs::ConditionLemmas::merged_more))]
fn longest_key<'a>(bracketed: bool, text: &[u8], entries: &'a [SharedEntry<Doc>]) -> Option<&'a str>
    ensures { option_map (λ key. key.now) result
        ≡ spec.longest (filter (spec.is_key bracketed text.now) (keys entries.now)) }
{
    let blanks = blank_count(text);
    let span = closing_span(text);
    let mut found: Option<&str> = None;
    for entry in entries {
        let key = entry.key().as_str();
        if is_key(bracketed, blanks, span, text, key.as_bytes()) {
            found = longer(found, key);
        }
    }
    found
}

fn longer<'a>(found: Option<&'a str>, key: &'a str) -> Option<&'a str>
    ensures { option_map (λ key. key.now) result
        ≡ spec.or_longer (option_map (λ key. key.now) found.entry) key.now }
{
    match found {
        Some(found) if found.len() >= key.len() => Some(found),
        _ => Some(key),
    }
}

/// The parameter that the iteration is compared with, one of these keys, where it is one.
pub(crate) fn condition_key<'a>(
    reference: &str,
    entries: &'a [SharedEntry<Doc>],
    text: &str,
) -> Option<&'a str>
    ensures { option_map (λ key. key.now) result
        ≡ spec.condition_key reference.now (keys entries.now) text.now }
{
    let text = text.as_bytes();
    let rest = right_side(reference.as_bytes(), text)?;
    let key = after_words(&[b"$", b"."], rest)?;
    longest_key(is_bracketed(text), key, entries)
}

/// The condition has one of the two forms.
pub(crate) fn is_condition(reference: &str, entries: &[SharedEntry<Doc>], text: &str) -> bool
    ensures { result ≡ spec.is_condition reference.now (keys entries.now) text.now }
{
    condition_number(reference, text).is_some() || condition_key(reference, entries, text).is_some()
}
