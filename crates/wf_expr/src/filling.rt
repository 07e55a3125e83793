//! Filling, with every piece's length taken from the limit before the piece is copied.

ghost use Rattle.std.specs.Prelude.{◌≡◌, ◌+◌, ◌-◌, ◌<◌, ◌≤◌, ◌^◌, ◌++◌, ◌⊎◌, IfOk, IfErr, OnOk, length, map, max, string_bytes, unwrap_or};
ghost use Rattle.json.specs.Print.{escape, quoted};
ghost use Rattle.wf_doc.specs.Doc.{depth};
ghost use Rattle.wf_doc.specs.Json.{printed};
ghost use Rattle.wf_doc.specs.declared.doc.Doc as doc;
ghost use Rattle.wf_expr.specs.Filling.{Fits, filled, filled_entry, filled_text, joined, named, text_of_any};
ghost use Rattle.wf_expr.specs.Parts.{parts};
ghost use Rattle.wf_expr.specs.declared.fault.FillFault.TheVariants.{TooLarge};

use crate::cutting::{first_expression, whole_expression};
use crate::fault::FillFault;
use crate::room::Room;
use crate::scope::{Scope, named};
use crate::value_text::text_of;
use std::alloc::Global;
use wf_doc::{Doc, Fields, Items, Text, copy, depth, print_len};
use wf_wire::Limits;

/// The template with every text filled with what its expressions name in the scope. `TooLarge` where that is longer in
/// print, or nests deeper, than the limits for documents.
pub fn fill<S: Scope>(
    alloc: Global,
    template: &Doc,
    scope: &S,
    limits: &Limits,
) -> Result<Doc, FillFault>
    ensures made { IfOk result (λ made. made ≡ filled (S.names scope.now) template.now) }
    ensures fits { OnOk result (Fits limits.now.document limits.now.depth (filled (S.names scope.now) template.now)) }
    ensures large { IfErr result (λ fault. fault ≡ TooLarge
        → ¬ (Fits limits.now.document limits.now.depth (filled (S.names scope.now) template.now))) }
{
    let mut room = Room {
        bytes: limits.document,
    };
    fill_part(alloc, template, scope, &mut room, limits.depth)
}

/// A part of the template, which may nest so many levels.
#[cycle(fill_part)]
fn fill_part<S: Scope>(
    alloc: Global,
    template: &Doc,
    scope: &S,
    room: &mut Room,
    levels: u32,
) -> Result<Doc, FillFault>
    requires { levels < 2 ^ 32 - 1 }
    ensures made { IfOk result (λ made. made ≡ filled (S.names scope.now) template.now) }
    ensures taken { OnOk result (room.new.bytes + length (printed (filled (S.names scope.now) template.now)) ≡ room.old.bytes) }
    ensures levels { OnOk result (depth (filled (S.names scope.now) template.now) ≤ levels) }
    ensures large { IfErr result (λ fault. fault ≡ TooLarge
        → ¬ (Fits room.old.bytes levels (filled (S.names scope.now) template.now))) }
{
    match template {
        Doc::Null | Doc::Bool(_) | Doc::Int(_) => copy_within(alloc, template, room, levels),
        Doc::Text(text) => fill_text(alloc, text.as_str(), scope, room, levels),
        Doc::List(items) => Ok(Doc::List(fill_items(alloc, items, scope, room, levels)?)),
        Doc::Table(fields) => Ok(Doc::Table(fill_fields(alloc, fields, scope, room, levels)?)),
    }
}

#[cycle(fill_part)]
fn fill_items<S: Scope>(
    alloc: Global,
    items: &Items<Doc>,
    scope: &S,
    room: &mut Room,
    levels: u32,
) -> Result<Items<Doc>, FillFault>
    requires { levels < 2 ^ 32 - 1 }
    ensures made { IfOk result (λ made. made ≡ map (filled (S.names scope.now)) items.now) }
    ensures taken { OnOk result (room.new.bytes + length (printed (doc.List (map (filled (S.names scope.now)) items.now))) ≡ room.old.bytes) }
    ensures levels { OnOk result (depth (doc.List (map (filled (S.names scope.now)) items.now)) ≤ levels) }
    ensures large { IfErr result (λ fault. fault ≡ TooLarge
        → ¬ (Fits room.old.bytes levels (doc.List (map (filled (S.names scope.now)) items.now)))) }
{
    let inner = enter(room, levels, items.len())?;
    let mut made = Items::new(alloc);
    for item in items.as_slice() {
        made.push(fill_part(alloc, item, scope, room, inner)?)?;
    }
    Ok(made)
}

#[cycle(fill_part)]
fn fill_fields<S: Scope>(
    alloc: Global,
    fields: &Fields<Doc>,
    scope: &S,
    room: &mut Room,
    levels: u32,
) -> Result<Fields<Doc>, FillFault>
    requires { levels < 2 ^ 32 - 1 }
    ensures made { IfOk result (λ made. made ≡ map (filled_entry (S.names scope.now)) fields.now) }
    ensures taken { OnOk result (room.new.bytes + length (printed (doc.Table (map (filled_entry (S.names scope.now)) fields.now))) ≡ room.old.bytes) }
    ensures levels { OnOk result (depth (doc.Table (map (filled_entry (S.names scope.now)) fields.now)) ≤ levels) }
    ensures large { IfErr result (λ fault. fault ≡ TooLarge
        → ¬ (Fits room.old.bytes levels (doc.Table (map (filled_entry (S.names scope.now)) fields.now)))) }
{
    let inner = enter(room, levels, fields.len())?;
    let mut made = Fields::new(alloc);
    for entry in fields.entries() {
        room.take_key(entry.key().as_str().as_bytes())?;
        let key = entry.key().copy(alloc)?;
        made.add_last(key, fill_part(alloc, entry.value(), scope, room, inner)?)?;
    }
    Ok(made)
}

/// Takes the brackets of a list or a table of so many parts, and the commas between these. Answers how many levels are
/// left inside it.
fn enter(room: &mut Room, levels: u32, count: usize) -> Result<u32, FillFault>
    ensures inner { IfOk result (λ inner. inner + 1 ≡ levels) }
    ensures taken { OnOk result (room.new.bytes + (max count 1 + 1) ≡ room.old.bytes) }
    ensures large { IfErr result (λ fault. (fault ≡ TooLarge) × ((levels ≡ 0) ⊎ (room.old.bytes < max count 1 + 1))) }
{
    if levels == 0 {
        return Err(FillFault::TooLarge);
    }
    room.take((count.max(1) as u64).saturating_add(1))?;
    Ok(levels - 1)
}

fn fill_text<S: Scope>(
    alloc: Global,
    text: &str,
    scope: &S,
    room: &mut Room,
    levels: u32,
) -> Result<Doc, FillFault>
    requires { levels < 2 ^ 32 - 1 }
    ensures made { IfOk result (λ made. made ≡ filled_text (S.names scope.now) text.now) }
    ensures taken { OnOk result (room.new.bytes + length (printed (filled_text (S.names scope.now) text.now)) ≡ room.old.bytes) }
    ensures levels { OnOk result (depth (filled_text (S.names scope.now) text.now) ≤ levels) }
    ensures large { IfErr result (λ fault. fault ≡ TooLarge
        → ¬ (Fits room.old.bytes levels (filled_text (S.names scope.now) text.now))) }
{
    match whole_expression(text) {
        Some(expression) => fill_whole(alloc, expression, scope, room, levels),
        None => Ok(Doc::Text(join(alloc, text, scope, room)?)),
    }
}

/// The value that the expression names, or null.
fn fill_whole<S: Scope>(
    alloc: Global,
    expression: &str,
    scope: &S,
    room: &mut Room,
    levels: u32,
) -> Result<Doc, FillFault>
    requires { levels < 2 ^ 32 - 1 }
    ensures made { IfOk result (λ made. made ≡ unwrap_or (named (S.names scope.now) expression.now) doc.Null) }
    ensures taken { OnOk result (room.new.bytes + length (printed (unwrap_or (named (S.names scope.now) expression.now) doc.Null)) ≡ room.old.bytes) }
    ensures levels { OnOk result (depth (unwrap_or (named (S.names scope.now) expression.now) doc.Null) ≤ levels) }
    ensures large { IfErr result (λ fault. fault ≡ TooLarge
        → ¬ (Fits room.old.bytes levels (unwrap_or (named (S.names scope.now) expression.now) doc.Null))) }
{
    match named(alloc, expression, scope)? {
        Some(value) => copy_within(alloc, value, room, levels),
        None => copy_within(alloc, &Doc::Null, room, levels),
    }
}

/// The text with each expression replaced by the text of the value that it names.
fn join<S: Scope>(alloc: Global, text: &str, scope: &S, room: &mut Room) -> Result<Text, FillFault>
    ensures made { IfOk result (λ made. made ≡ joined (S.names scope.now) (parts text.now)) }
    ensures taken { OnOk result (room.new.bytes + length (quoted (joined (S.names scope.now) (parts text.now))) ≡ room.old.bytes) }
    ensures large { IfErr result (λ fault. fault ≡ TooLarge → room.old.bytes < length (quoted (joined (S.names scope.now) (parts text.now)))) }
{
    room.take(2)?;
    let mut made = String::new(alloc);
    let mut rest = text;
    'parts: while let Some(cut) = first_expression(rest) {
        push(&mut made, cut.before, room)?;
        push_named(alloc, &mut made, cut.expression, scope, room)?;
        rest = cut.after;
    }
    push(&mut made, rest, room)?;
    Ok(Text::from_string(made))
}

/// Puts the text of the value that the expression names at the end.
fn push_named<S: Scope>(
    alloc: Global,
    made: &mut String,
    expression: &str,
    scope: &S,
    room: &mut Room,
) -> Result<(), FillFault>
    ensures made { OnOk result (string_bytes made.new ≡ string_bytes made.old ++ text_of_any (named (S.names scope.now) expression.now)) }
    ensures taken { OnOk result (room.new.bytes + length (escape (text_of_any (named (S.names scope.now) expression.now))) ≡ room.old.bytes) }
    ensures large { IfErr result (λ fault. fault ≡ TooLarge
        → room.old.bytes < length (escape (text_of_any (named (S.names scope.now) expression.now)))) }
{
    match named(alloc, expression, scope)? {
        Some(value) => {
            let text = text_of(alloc, value)?;
            push(made, text.as_str(), room)
        }
        None => Ok(()),
    }
}

/// Puts the piece at the end.
fn push(made: &mut String, piece: &str, room: &mut Room) -> Result<(), FillFault>
    ensures made { OnOk result (string_bytes made.new ≡ string_bytes made.old ++ piece.now) }
    ensures taken { OnOk result (room.new.bytes + length (escape piece.now) ≡ room.old.bytes) }
    ensures large { IfErr result (λ fault. fault ≡ TooLarge → room.old.bytes < length (escape piece.now)) }
{
    room.take_escaped(piece.as_bytes())?;
    made.push_str(piece)?;
    Ok(())
}

/// An equal document, which may nest so many levels.
fn copy_within(alloc: Global, value: &Doc, room: &mut Room, levels: u32) -> Result<Doc, FillFault>
    requires { levels < 2 ^ 32 - 1 }
    ensures made { IfOk result (λ made. made ≡ value.now) }
    ensures taken { OnOk result (room.new.bytes + length (printed value.now) ≡ room.old.bytes) }
    ensures levels { OnOk result (depth value.now ≤ levels) }
    ensures large { IfErr result (λ fault. fault ≡ TooLarge → ¬ (Fits room.old.bytes levels value.now)) }
{
    if depth(value) > levels {
        return Err(FillFault::TooLarge);
    }
    room.take(print_len(value))?;
    Ok(copy(alloc, value)?)
}
