//! How often a DO_WHILE turns.

ghost use Rattle.std.specs.Prelude.{◌≡◌, option_and_then};
ghost use Rattle.wf_doc.specs.Doc.{field};
ghost use Rattle.wf_rules.specs.Outputs as spec;

use crate::decimals::number_printed;
use wf_doc::Doc;
use wf_machine::Count;

/// How often a DO_WHILE with that input turns at most, where that is a number.
pub fn count_of(count: &Count, input: &Doc) -> Option<i64>
    ensures { result ≡ spec.count_of count.now input.now }
{
    match count {
        Count::Number(times) => Some(*times),
        Count::Param(name) => number_at(name.as_str(), input),
    }
}

/// The whole number behind the key.
fn number_at(key: &str, input: &Doc) -> Option<i64>
    ensures { result ≡ option_and_then spec.whole_number (field key.now input.now) }
{
    match input.field(key) {
        Some(value) => whole_number(value),
        None => None,
    }
}

/// A whole number, or the text that it is printed as.
fn whole_number(value: &Doc) -> Option<i64>
    ensures { result ≡ spec.whole_number value.now }
{
    match value {
        Doc::Int(number) => Some(*number),
        Doc::Text(text) => number_printed(text.as_str()),
        Doc::Null => None,
        Doc::Bool(_) => None,
        Doc::List(_) => None,
        Doc::Table(_) => None,
    }
}
