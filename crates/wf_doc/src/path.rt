//! Paths into documents.

ghost use Rattle.std.specs.Prelude.{◌≡◌, ◌≤◌, ◌<◌, ◌∷◌, ◌-◌, ◌==◌, Some, None, IfOk, IfSome, IsUtf8, length, option_map, drop, List, ℕ};
ghost use Rattle.std.specs.Option.{option_copied};
ghost use Rattle.std.specs.List.{prefix_len, list_all};

use crate::digits::{are_digits, capped_value};
use crate::doc::Doc;
use crate::no_memory::NoMemory;
use crate::text::Text;
use sqlite_items::Items;
use std::alloc::Global;
use std::marker::Model;

/// One step of a path: a key of a table, or the place of an item of a list, counted from 0.
#[derive(Drop)]
pub enum Step {
    Name(Text),
    Index(u32),
}

/// A name followed by any number of `.name` and `[n]`. A name is one or more characters other than `.`, `[`, `]`,
/// `{`, `}` and `$`. n is one or more digits with a value below 2^31.
#[derive(Drop)]
pub struct Path {
    steps: Items<Step>,
}

impl Model for Path {
    ghost use Rattle.std.specs.Prelude.{List};
    ghost use Rattle.wf_doc.specs.declared.path.Step.{Step};

    ghost Value = { List Step };

    ghost view = { λ p. p.steps };
}

ghost use Rattle.wf_doc.specs.Path as spec;

impl Path {
    /// None where the text is no path.
    pub fn read(alloc: Global, text: &str) -> Result<Option<Path>, NoMemory>
        ensures { IfOk result (λ found. found ≡ spec.path_of text.now) }
    {
        let mut steps = Items::new(alloc);
        let mut sign = b'.';
        let mut rest = text;
        'pieces: loop {
            let (piece, after) = split_piece(rest);
            let Some(step) = read_step(alloc, sign, piece)? else {
                return Ok(None);
            };
            steps.push(step)?;
            let Some((next_sign, next)) = after else {
                return Ok(Some(Path { steps }));
            };
            sign = next_sign;
            rest = next;
        }
    }

    /// How many steps it has.
    pub fn len(&self) -> u64
        ensures { result ≡ length self.now }
    {
        self.steps.len() as u64
    }

    /// The name that is this step, counted from 0.
    pub fn name(&self, step: u64) -> Option<&str>
        ensures { option_map (λ name. name.now) result ≡ spec.name_at self.now step }
    {
        match self.steps.get(step as usize)? {
            Step::Name(name) => Some(name.as_str()),
            Step::Index(_) => None,
        }
    }
}

/// The text up to the first sign that begins a step, and that sign with what follows it.
fn split_piece(text: &str) -> (&str, Option<(u8, &str)>)
    ensures pieces { (sign : ℕ) → spec.pieces sign text.now
        ≡ (sign, result.0.now) ∷ spec.pieces_after (option_map (λ p. (p.0, p.1.now)) result.1) }
    ensures after { IfSome result.1 (λ p. IsUtf8 p.1.now × (length p.1.now < length text.now)) }
{
    let len = piece_len(text);
    let piece = &text[..len];
    if len == text.len() {
        return (piece, None);
    }
    (piece, Some((text.as_bytes()[len], &text[len + 1..])))
}

fn piece_len(text: &str) -> usize
    ensures value { result ≡ prefix_len spec.is_inside text.now }
    ensures within { result ≤ length text.now }
{
    for (i, byte) in text.as_bytes().iter().enumerate() {
        if begins_step(*byte) {
            return i;
        }
    }
    text.len()
}

fn begins_step(byte: u8) -> bool
    ensures { result ≡ spec.begins_step byte }
{
    byte == b'.' || byte == b'['
}

fn read_step(alloc: Global, sign: u8, piece: &str) -> Result<Option<Step>, NoMemory>
    ensures { IfOk result (λ step. step ≡ spec.step_of sign piece.now) }
{
    if sign == b'.' {
        name_step(alloc, piece)
    } else {
        Ok(index_step(piece.as_bytes()))
    }
}

fn name_step(alloc: Global, name: &str) -> Result<Option<Step>, NoMemory>
    ensures { IfOk result (λ step. step ≡ spec.name_step name.now) }
{
    if !is_name(name.as_bytes()) {
        return Ok(None);
    }
    Ok(Some(Step::Name(Text::new(alloc, name)?)))
}

fn is_name(text: &[u8]) -> bool
    ensures { result ≡ spec.is_name text.now }
{
    !text.is_empty() && are_name_bytes(text)
}

fn are_name_bytes(text: &[u8]) -> bool
    ensures { result ≡ list_all spec.is_name_byte text.now }
{
    text.iter().all(|byte| is_name_byte(*byte))
}

fn is_name_byte(byte: u8) -> bool
    ensures { result ≡ spec.is_name_byte byte }
{
    !(begins_step(byte) || byte == b']' || byte == b'{' || byte == b'}' || byte == b'$')
}

fn index_step(text: &[u8]) -> Option<Step>
    ensures { result ≡ spec.index_step text.now }
{
    match text {
        [digits @ .., b']'] => index_of(digits),
        _ => None,
    }
}

fn index_of(digits: &[u8]) -> Option<Step>
    ensures { result ≡ spec.index_of digits.now }
{
    if digits.is_empty() || !are_digits(digits) {
        return None;
    }
    let value = capped_value(digits);
    if value < 1 << 31 {
        Some(Step::Index(value as u32))
    } else {
        None
    }
}

/// What the path without its first `from` steps selects. Takes no memory.
pub fn at<'a>(doc: &'a Doc, path: &Path, from: u64) -> Option<&'a Doc>
    requires { from ≤ length path.now }
    ensures { option_copied result ≡ spec.at (drop from path.now) doc.now }
{
    let mut found = doc;
    for step in &path.steps.as_slice()[from as usize..] {
        found = part(found, step)?;
    }
    Some(found)
}

fn part<'a>(doc: &'a Doc, step: &Step) -> Option<&'a Doc>
    ensures { option_copied result ≡ spec.part step.now doc.now }
{
    match step {
        Step::Name(name) => doc.field(name.as_str()),
        Step::Index(place) => doc.as_list()?.get(*place as usize),
    }
}
