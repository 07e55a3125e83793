//! The numbers of workflows and tasks, and the texts that name them to the outside.

ghost use Rattle.std.specs.Prelude.{◌≡◌, ℕ, ◌<◌, ◌^◌, ◌↔◌, Some, IsUtf8};
ghost use Rattle.std.specs.Str.{IsAscii};
ghost use Rattle.wf_names.specs.Ids.{Names, id_in, id_read, id_text, kind_octet, layout, mark_in, number_in};

use uuid::Uuid;

/// The number of a workflow, counted from 1 in its store. 0 names nothing.
#[derive(Clone, Copy, Debug, PartialEq, Eq, PartialOrd, Ord)]
pub struct FlowNo(pub u64);

/// The number of an attempt at a task, counted from 1 in its store. 0 names nothing.
#[derive(Clone, Copy, Debug, PartialEq, Eq, PartialOrd, Ord)]
pub struct TaskNo(pub u64);

/// What an id names.
#[derive(Clone, Copy, Debug, PartialEq, Eq)]
pub enum IdKind {
    Flow,
    Task,
}

/// The text that names a workflow or a task: a UUID of version 8 (RFC 9562) in its hyphenated form
/// and in lower case, as `00000001-0200-8000-8000-000000000001` for task 1 of the store with mark 1.
/// The bytes are ASCII, so `str::from_utf8` takes them.
pub fn id_text(mark: u32, kind: IdKind, number: u64) -> [u8; 36]
    requires { number < 2 ^ 56 }
    ensures text { result ≡ id_text mark kind number }
    ensures ascii { IsAscii result }
    ensures utf8 { IsUtf8 result }
{
    let id = Uuid::from_bytes(octets_of(mark, kind, number));
    let mut buffer = Uuid::encode_buffer();
    let text = id.hyphenated().encode_lower(&mut buffer);
    let mut bytes = [0; 36];
    bytes.copy_from_slice(text.as_bytes());
    bytes
}

/// The mark, kind and number that a text names: a UUID in any of its four forms (simple,
/// hyphenated, URN and braced, in either case) with the layout that `id_text` writes. The number
/// is below 2^56; it may be 0, which names nothing, or one that is not in use.
pub fn id_read(text: &str) -> Option<(u32, IdKind, u64)>
    ensures value { result ≡ id_read text.now }
    ensures exact { (mark number : ℕ) (kind : IdKind) →
        (result ≡ Some (mark, kind, number)) ↔ Names text.now mark kind number }
{
    match Uuid::try_parse(text) {
        Ok(id) => id_in(id.as_bytes()),
        Err(_) => None,
    }
}

// An id has the layout of the mark and the number in it, under one of the two kinds.
fn id_in(octets: &[u8; 16]) -> Option<(u32, IdKind, u64)>
    ensures { result ≡ id_in octets.now }
{
    let mark = mark_in(octets);
    let number = number_in(octets);
    if octets_of(mark, IdKind::Flow, number) == *octets {
        Some((mark, IdKind::Flow, number))
    } else if octets_of(mark, IdKind::Task, number) == *octets {
        Some((mark, IdKind::Task, number))
    } else {
        None
    }
}

fn mark_in(octets: &[u8; 16]) -> u32
    ensures { result ≡ mark_in octets.now }
{
    let [m0, m1, m2, m3, ..] = *octets;
    u32::from_be_bytes([m0, m1, m2, m3])
}

fn number_in(octets: &[u8; 16]) -> u64
    ensures { result ≡ number_in octets.now }
{
    let [.., n0, n1, n2, n3, n4, n5, n6] = *octets;
    u64::from_be_bytes([0, n0, n1, n2, n3, n4, n5, n6])
}

fn octets_of(mark: u32, kind: IdKind, number: u64) -> [u8; 16]
    ensures { result ≡ layout mark kind number }
{
    let [m0, m1, m2, m3] = mark.to_be_bytes();
    let [_, n0, n1, n2, n3, n4, n5, n6] = number.to_be_bytes();
    let kind = octet_of(kind);
    [
        m0, m1, m2, m3, kind, 0, 0x80, 0, 0x80, n0, n1, n2, n3, n4, n5, n6,
    ]
}

fn octet_of(kind: IdKind) -> u8
    ensures { result ≡ kind_octet kind }
{
    match kind {
        IdKind::Flow => 1,
        IdKind::Task => 2,
    }
}
