//! Fields by name.

ghost use Rattle.std.specs.Prelude.{◌≡◌};
ghost use Rattle.wf_wire.specs.Fields.{values, found_of, same_word as spec_same_word};
ghost use Rattle.wf_wire.specs.Request.{found as found_in};
ghost use Rattle.wf_wire.specs.Reading.{pairs, look_found, IsFirst};

/// A field of a head. Its value has no blanks around it.
#[derive(Drop)]
pub struct Field {
    pub name: Vec<u8>,
    pub value: Vec<u8>,
}

/// What a look for the field of a name finds: none, the value of the only one, or several.
#[derive(Clone, Copy)]
pub enum FieldLook<'a> {
    Absent,
    One(&'a [u8]),
    Many,
}

/// Whether two words are the same but for the case of letters.
pub fn same_word(a: &[u8], b: &[u8]) -> bool
    ensures { result ≡ spec_same_word a.now b.now }
{
    a.eq_ignore_ascii_case(b)
}

fn look_of(found: Option<&[u8]>) -> FieldLook<'_>
    ensures { found_in result ≡ look_found found.entry }
{
    match found {
        None => FieldLook::Absent,
        Some(value) => FieldLook::One(value),
    }
}

/// The field of this name.
pub fn find_field<'a>(fields: &'a [Field], name: &[u8]) -> FieldLook<'a>
    ensures { found_in result ≡ found_of (values name.now (pairs fields.now)) }
{
    let mut found: Option<&[u8]> = None;
    for field in fields {
        if same_word(&field.name, name) {
            if found.is_some() {
                return FieldLook::Many;
            }
            found = Some(field.value.as_slice());
        }
    }
    look_of(found)
}

/// The value of the first field of this name.
pub fn first_value<'a>(fields: &'a [Field], name: &[u8]) -> Option<&'a [u8]>
    ensures { IsFirst (values name.now (pairs fields.now)) result }
{
    for field in fields {
        if same_word(&field.name, name) {
            return Some(field.value.as_slice());
        }
    }
    None
}
