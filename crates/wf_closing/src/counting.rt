//! How often a DO_WHILE turns at most.

ghost use Rattle.std.specs.Prelude.{◌≡◌};
ghost use Rattle.wf_rules.specs.Outputs as spec;

use itoa::Buffer;
use wf_doc::Doc;
use wf_machine::Count;

/// The count, or what the parameter that it names says in the input: a whole number, or the text that one is printed
/// as. None where that is no such number.
pub fn count_of(count: &Count, input: &Doc) -> Option<i64>
    ensures { result ≡ spec.count_of count.now input.now }
{
    match count {
        Count::Number(number) => Some(*number),
        Count::Param(name) => whole_number(input.field(name.as_str())?),
    }
}

fn whole_number(doc: &Doc) -> Option<i64>
    ensures { result ≡ spec.whole_number doc.now }
{
    match doc {
        Doc::Int(number) => Some(*number),
        Doc::Text(text) => number_printed(text.as_str()),
        Doc::Null => None,
        Doc::Bool(_) => None,
        Doc::List(_) => None,
        Doc::Table(_) => None,
    }
}

/// The number that is printed as that text: without a plus, and without zeros before it.
fn number_printed(text: &str) -> Option<i64>
    ensures { result ≡ spec.number_printed text.now }
{
    let Ok(number) = text.parse::<i64>() else {
        return None;
    };
    let mut buffer = Buffer::new();
    if text == buffer.format(number) {
        Some(number)
    } else {
        None
    }
}
