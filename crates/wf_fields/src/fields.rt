//! The fields of tables, and the forms of their values. A field that is null counts as absent.

ghost use Rattle.std.specs.Prelude.{◌≡◌, ◌≤◌, IfOk, IfSome, is_none, map, option_map};
ghost use Rattle.std.specs.List.{list_all};
ghost use Rattle.std.specs.Option.{option_copied};
ghost use Rattle.wf_fields.specs.Fields as spec;

use std::alloc::Global;
use wf_doc::{Doc, NoMemory, SharedEntry};

/// The form of a value.
#[derive(Clone, Copy, Debug, PartialEq, Eq)]
pub enum Form {
    Truth,
    AText,
    /// A list of texts.
    Texts,
    AList,
    /// A list of lists.
    Lists,
    ATable,
    /// A table of lists.
    Cases,
}

/// The value of the field, where it is there.
pub fn given<'a>(doc: &'a Doc, key: &str) -> Option<&'a Doc>
    ensures { option_copied result ≡ spec.given key.now doc.now }
{
    not_null(doc.field(key)?)
}

fn not_null(doc: &Doc) -> Option<&Doc>
    ensures { option_copied result ≡ spec.not_null doc.now }
{
    match doc {
        Doc::Null => None,
        _ => Some(doc),
    }
}

pub fn is_absent(doc: &Doc, key: &str) -> bool
    ensures { result ≡ is_none (spec.given key.now doc.now) }
{
    given(doc, key).is_none()
}

// ---- values

/// The number, where it is one of at least 0.
pub fn as_whole(value: &Doc) -> Option<u64>
    ensures { result ≡ spec.as_whole value.now }
{
    whole(value.as_int()?)
}

fn whole(number: i64) -> Option<u64>
    ensures { result ≡ spec.whole number }
{
    if number < 0 {
        None
    } else {
        Some(number as u64)
    }
}

/// The whole number, where it is one of at most 2147483647.
pub fn as_count(value: &Doc) -> Option<u32>
    ensures value { result ≡ spec.as_count value.now }
    ensures range { IfSome result (λ n. n ≤ 2147483647) }
{
    count(as_whole(value)?)
}

fn count(number: u64) -> Option<u32>
    ensures { result ≡ spec.count number }
{
    if number <= 2_147_483_647 {
        Some(number as u32)
    } else {
        None
    }
}

/// It is a whole number in this range.
pub fn is_number(value: &Doc, least: u64, most: u64) -> bool
    ensures { result ≡ spec.is_number least most value.now }
{
    match as_whole(value) {
        Some(number) => least <= number && number <= most,
        None => false,
    }
}

/// The word is one of these.
pub fn is_among(word: &str, words: &[&str]) -> bool
    ensures { result ≡ spec.is_among word.now (map (λ w. w.now) words.now) }
{
    for other in words {
        if word == *other {
            return true;
        }
    }
    false
}

/// It is a text that is one of these words.
pub fn is_one_of(value: &Doc, words: &[&str]) -> bool
    ensures { result ≡ spec.is_one_of (map (λ w. w.now) words.now) value.now }
{
    match value.as_text() {
        Some(text) => is_among(text.as_str(), words),
        None => false,
    }
}

fn is_list(value: &Doc) -> bool
    ensures { result ≡ spec.is_list value.now }
{
    value.as_list().is_some()
}

pub fn is_text(value: &Doc) -> bool
    ensures { result ≡ spec.is_text value.now }
{
    value.as_text().is_some()
}

fn are_texts(items: &[Doc]) -> bool
    ensures { result ≡ list_all spec.is_text items.now }
{
    items.iter().all(is_text)
}

fn are_lists(items: &[Doc]) -> bool
    ensures { result ≡ list_all spec.is_list items.now }
{
    items.iter().all(is_list)
}

fn are_case_lists(entries: &[SharedEntry<Doc>]) -> bool
    ensures { result ≡ list_all spec.has_case_list entries.now }
{
    entries.iter().all(has_case_list)
}

fn has_case_list(entry: &SharedEntry<Doc>) -> bool
    ensures { result ≡ spec.has_case_list entry.now }
{
    is_list(entry.value())
}

fn is_list_of_texts(value: &Doc) -> bool
    ensures { result ≡ spec.is_list_of spec.is_text value.now }
{
    match value.as_list() {
        Some(items) => are_texts(items.as_slice()),
        None => false,
    }
}

fn is_list_of_lists(value: &Doc) -> bool
    ensures { result ≡ spec.is_list_of spec.is_list value.now }
{
    match value.as_list() {
        Some(items) => are_lists(items.as_slice()),
        None => false,
    }
}

fn is_table_of_lists(value: &Doc) -> bool
    ensures { result ≡ spec.is_table_of_lists value.now }
{
    match value.as_table() {
        Some(fields) => are_case_lists(fields.entries()),
        None => false,
    }
}

/// The value has the form.
pub fn has_form(value: &Doc, form: Form) -> bool
    ensures { result ≡ spec.has_form form value.now }
{
    match form {
        Form::Truth => value.as_bool().is_some(),
        Form::AText => is_text(value),
        Form::Texts => is_list_of_texts(value),
        Form::AList => is_list(value),
        Form::Lists => is_list_of_lists(value),
        Form::ATable => value.as_table().is_some(),
        Form::Cases => is_table_of_lists(value),
    }
}

// ---- the first field that breaks a rule

/// The first of these fields that is there and no whole number in its range.
pub fn first_misnumbered(doc: &Doc, fields: &[(&'static str, u64, u64)]) -> Option<&'static str>
    ensures { option_map (λ key. key.now) result
        ≡ spec.first_misnumbered doc.now (map (λ f. (f.0.now, f.1, f.2)) fields.now) }
{
    for (key, least, most) in fields {
        if !is_absent_or_number(doc, key, *least, *most) {
            return Some(*key);
        }
    }
    None
}

pub fn is_absent_or_number(doc: &Doc, key: &str, least: u64, most: u64) -> bool
    ensures { result ≡ spec.is_absent_or (spec.is_number least most) key.now doc.now }
{
    match given(doc, key) {
        Some(value) => is_number(value, least, most),
        None => true,
    }
}

/// The field is there, and has the form.
pub fn is_formed(doc: &Doc, key: &str, form: Form) -> bool
    ensures { result ≡ spec.is_given (spec.has_form form) key.now doc.now }
{
    match given(doc, key) {
        Some(value) => has_form(value, form),
        None => false,
    }
}

/// The field isn't there, or is one of these words.
pub fn is_absent_or_one_of(doc: &Doc, key: &str, words: &[&str]) -> bool
    ensures { result ≡ spec.is_absent_or (spec.is_one_of (map (λ w. w.now) words.now)) key.now doc.now }
{
    match given(doc, key) {
        Some(value) => is_one_of(value, words),
        None => true,
    }
}

/// The first of these fields that is there and hasn't its form.
pub fn first_misformed(doc: &Doc, fields: &[(&'static str, Form)]) -> Option<&'static str>
    ensures { option_map (λ key. key.now) result
        ≡ spec.first_misformed doc.now (map (λ f. (f.0.now, f.1)) fields.now) }
{
    for (key, form) in fields {
        if !is_absent_or_formed(doc, key, *form) {
            return Some(*key);
        }
    }
    None
}

/// The field isn't there, or has the form.
pub fn is_absent_or_formed(doc: &Doc, key: &str, form: Form) -> bool
    ensures { result ≡ spec.is_absent_or (spec.has_form form) key.now doc.now }
{
    match given(doc, key) {
        Some(value) => has_form(value, form),
        None => true,
    }
}

/// The place, unless the rule holds there.
pub fn unless(holds: bool, place: &'static str) -> Option<&'static str>
    ensures { option_map (λ key. key.now) result ≡ spec.unless holds place.now }
{
    if holds { None } else { Some(place) }
}

// ---- values of fields, or what stands for an absent one

/// The text of the field, empty where there is none.
pub fn text_in<'a>(doc: &'a Doc, key: &str) -> &'a str
    ensures { result.now ≡ spec.text_in key.now doc.now }
{
    match given(doc, key) {
        Some(value) => match value.as_text() {
            Some(text) => text.as_str(),
            None => "",
        },
        None => "",
    }
}

/// The number of the field, where it is one of at most 2147483647.
pub fn number_or(doc: &Doc, key: &str, otherwise: u32) -> u32
    ensures value { result ≡ spec.number_or otherwise key.now doc.now }
    ensures range { otherwise ≤ 2147483647 → result ≤ 2147483647 }
{
    match given(doc, key) {
        Some(value) => as_count(value).unwrap_or(otherwise),
        None => otherwise,
    }
}

pub fn truth_or(doc: &Doc, key: &str, otherwise: bool) -> bool
    ensures { result ≡ spec.truth_or otherwise key.now doc.now }
{
    match given(doc, key) {
        Some(value) => value.as_bool().unwrap_or(otherwise),
        None => otherwise,
    }
}

/// A copy of the field, an empty table where it is absent.
pub fn table_in(alloc: Global, doc: &Doc, key: &str) -> Result<Doc, NoMemory>
    ensures { IfOk result (λ made. made ≡ spec.table_in key.now doc.now) }
{
    match given(doc, key) {
        Some(value) => wf_doc::copy(alloc, value),
        None => Ok(Doc::Table(wf_doc::Fields::new(alloc))),
    }
}

/// The items of the list, none where it is no list.
pub fn items_of(doc: &Doc) -> &[Doc]
    ensures { result.now ≡ spec.items_of doc.now }
{
    match doc.as_list() {
        Some(items) => items.as_slice(),
        None => &[],
    }
}

/// The items of the list in the field, none where there is no list.
pub fn items_in<'a>(doc: &'a Doc, key: &str) -> &'a [Doc]
    ensures { result.now ≡ spec.items_in key.now doc.now }
{
    match given(doc, key) {
        Some(value) => items_of(value),
        None => &[],
    }
}
