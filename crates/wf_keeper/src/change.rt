//! One change of a batch.

ghost use Rattle.std.specs.Prelude.{◌≡◌, IfOk, option_map, string_bytes};
ghost use Rattle.wf_keeper.specs.Keys.{deletes, puts};

use crate::no_memory::NoMemory;
use crate::row_key::RowKey;
use std::marker::Model;

/// A body that is put at a key, or the delete of the key's row.
#[derive(Debug, Drop)]
pub struct Change {
    key: RowKey,
    body: Option<String>,
}

impl Model for Change {
    ghost use Rattle.std.specs.Prelude.{option_map, string_bytes};
    ghost use Rattle.wf_keeper.specs.Keys.{Change as RowChange};

    ghost Value = { RowChange };

    ghost view = { λ c. record { key = c.key; body = option_map string_bytes c.body } };
}

impl Change {
    pub(crate) fn put(key: RowKey, body: String) -> Change
        ensures { result ≡ puts key (string_bytes body) }
    {
        Change {
            key,
            body: Some(body),
        }
    }

    pub(crate) fn delete(key: RowKey) -> Change
        ensures { result ≡ deletes key }
    {
        Change { key, body: None }
    }

    /// The key.
    pub fn key(&self) -> &RowKey
        ensures { result.now ≡ self.now.key }
    {
        &self.key
    }

    /// The body that is put, or None where the row is deleted.
    pub fn body(&self) -> Option<&str>
        ensures { option_map (λ body. body.now) result ≡ self.now.body }
    {
        match &self.body {
            Some(body) => Some(body.as_str()),
            None => None,
        }
    }

    /// The same of a body of one's own.
    pub(crate) fn copy_body(&self) -> Result<Option<String>, NoMemory>
        ensures { IfOk result (λ copy. option_map string_bytes copy ≡ self.now.body) }
    {
        match &self.body {
            Some(body) => Ok(Some(body.clone()?)),
            None => Ok(None),
        }
    }
}
