//! The query of a request's target.

ghost use Rattle.std.specs.Prelude.{◌≡◌, IfOk, map, option_map, string_bytes};
ghost use Rattle.wf_routes.specs.Queries.{pair_shown, query_pairs, query_text, query_value};

use crate::faults::NoMemory;
use form_urlencoded::{decode, raw_pairs};
use std::alloc::Global;
use std::marker::Model;

/// A key of a query and its value, decoded.
#[derive(Drop)]
struct Pair {
    key: String,
    value: String,
}

/// The pairs of a query in their order, decoded: a `+` is a blank, an escape that is none stays, and
/// bytes that are no UTF-8 become U+FFFD.
#[derive(Drop)]
pub struct Query {
    pairs: Vec<Pair>,
}

impl Model for Query {
    ghost use Rattle.std.specs.Prelude.{List, map};
    ghost use Rattle.wf_routes.specs.Queries.{QueryPair, pair_shown};

    ghost Value = { List QueryPair };

    ghost view = { λ q. map pair_shown q.pairs.items };
}

// The text that a key or a value stands for.
fn text_of(alloc: Global, bytes: &[u8]) -> Result<String, NoMemory>
    ensures { IfOk result (λ text. string_bytes text ≡ query_text bytes.now) }
{
    Ok(decode(alloc, bytes)?.into_owned(alloc)?)
}

fn pair_of(alloc: Global, key: &[u8], value: &[u8]) -> Result<Pair, NoMemory>
    ensures key { IfOk result (λ pair. string_bytes pair.key ≡ query_text key.now) }
    ensures value { IfOk result (λ pair. string_bytes pair.value ≡ query_text value.now) }
{
    Ok(Pair {
        key: text_of(alloc, key)?,
        value: text_of(alloc, value)?,
    })
}

fn pairs_of(alloc: Global, query: &str) -> Result<Vec<Pair>, NoMemory>
    ensures { IfOk result (λ pairs. map pair_shown pairs.items ≡ query_pairs query.now) }
{
    let mut pairs = Vec::new(alloc);
    for (key, value) in raw_pairs(query.as_bytes()) {
        let pair = pair_of(alloc, key, value)?;
        pairs.push(pair)?;
    }
    Ok(pairs)
}

impl Query {
    /// The pairs of a query, which is what stands behind the `?` of a target.
    pub fn read(alloc: Global, query: &str) -> Result<Query, NoMemory>
        ensures { IfOk result (λ read. read ≡ query_pairs query.now) }
    {
        let pairs = pairs_of(alloc, query)?;
        Ok(Query { pairs })
    }

    /// The value of the first pair with the key.
    pub fn value(&self, key: &str) -> Option<&str>
        ensures { option_map (λ value. value.now) result ≡ query_value key.now self.now }
    {
        value_in(&self.pairs, key)
    }
}

fn value_in<'a>(pairs: &'a [Pair], key: &str) -> Option<&'a str>
    ensures { option_map (λ value. value.now) result ≡ query_value key.now (map pair_shown pairs.now) }
{
    for pair in pairs {
        if pair.key.as_str() == key {
            return Some(pair.value.as_str());
        }
    }
    None
}
