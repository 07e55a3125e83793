//! Rows, and the search among them.

ghost use Rattle.std.specs.Prelude.{◌≡◌, IsUtf8, OnErr, OnOk, option_map, string_bytes};
ghost use Rattle.wf_keeper.specs.Keys.{key_cmp};
ghost use Rattle.wf_keeper.specs.Rows.{IsOrdered, IsSearched, get, put, row, without};

use crate::no_memory::NoMemory;
use crate::row_key::RowKey;
use std::alloc::AllocError;
use std::cmp::Ordering;
use std::marker::Model;

/// A key and the body that is kept at it.
#[derive(Debug, Drop)]
pub struct Row {
    key: RowKey,
    body: String,
}

impl Model for Row {
    ghost use Rattle.std.specs.Prelude.{string_bytes};
    ghost use Rattle.wf_keeper.specs.Keys.{Row as StoredRow};

    ghost Value = { StoredRow };

    ghost view = { λ r. record { key = r.key; body = string_bytes r.body } };
}

impl Clone for Row {
    ghost is_clone = { λ row copy. copy ≡ row };

    fn clone(&self) -> Result<Row, AllocError> {
        Ok(Row {
            key: self.key.clone()?,
            body: self.body.clone()?,
        })
    }
}

impl Row {
    pub fn new(key: RowKey, body: String) -> Row
        ensures { result ≡ row key (string_bytes body) }
    {
        Row { key, body }
    }

    /// The key.
    pub fn key(&self) -> &RowKey
        ensures { result.now ≡ self.now.key }
    {
        &self.key
    }

    /// The body.
    pub fn body(&self) -> &str
        ensures body { result.now ≡ self.now.body }
        ensures utf8 { IsUtf8 self.now.body }
    {
        self.body.as_str()
    }

    /// How the row's key stands to the other one.
    fn compare(&self, key: &RowKey) -> Ordering
        ensures { result ≡ key_cmp self.now.key key.now }
    {
        self.key.compare(key)
    }
}

/// The place of the row at the key, or, as an error, the place where one belongs.
fn place_of(rows: &[Row], key: &RowKey) -> Result<usize, usize>
    requires { IsOrdered rows.now }
    ensures { IsSearched key.now rows.now result }
{
    rows.binary_search_by(|row| row.compare(key))
}

/// The body at the key.
pub fn body_at<'a>(rows: &'a [Row], key: &RowKey) -> Option<&'a str>
    requires { IsOrdered rows.now }
    ensures { option_map (λ body. body.now) result ≡ get key.now rows.now }
{
    match place_of(rows, key) {
        Ok(place) => Some(rows[place].body()),
        Err(_place) => None,
    }
}

/// Puts the body at the key, in the place of one that was there.
pub fn put_row(rows: &mut Vec<Row>, key: RowKey, body: String) -> Result<(), NoMemory>
    requires { IsOrdered rows.old.items }
    ensures ok { OnOk result (rows.new.items ≡ put key (string_bytes body) rows.old.items) }
    ensures err { OnErr result (rows.new.items ≡ rows.old.items) }
    ensures order { IsOrdered rows.new.items }
{
    match place_of(rows, &key) {
        Ok(place) => rows[place] = Row::new(key, body),
        Err(place) => rows.insert(place, Row::new(key, body))?,
    }
    Ok(())
}

/// Takes the row at the key away, where there is one.
pub fn remove_row(rows: &mut Vec<Row>, key: &RowKey)
    requires { IsOrdered rows.old.items }
    ensures rows { rows.new.items ≡ without key.now rows.old.items }
    ensures order { IsOrdered rows.new.items }
{
    if let Ok(place) = place_of(rows, key) {
        rows.remove(place);
    }
}
