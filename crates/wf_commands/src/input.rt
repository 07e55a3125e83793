//! Inputs that are read whole.

ghost use Rattle.std.specs.Prelude.{◌≡◌, ◌<◌, ◌≤◌, length, min};
ghost use Rattle.wf_wire.specs.Stream.{Rose};
ghost use Rattle.wf_commands.specs.Inputs.{IsFill, IsInput, Told};

use std::alloc::Global;
use wf_wire::Source;

/// The most bytes that one read asks for.
const READ: usize = 4096;

/// What a read comes to.
#[derive(Clone, Copy, Debug, PartialEq, Eq)]
enum Filled {
    More,
    AtEnd,
    Failed,
    NoMemory,
}

/// What reading an input whole comes to.
#[derive(Drop)]
pub enum Input {
    /// All of its bytes.
    Whole(Vec<u8>),
    /// It has more bytes than it may have.
    Long,
    /// A read failed.
    Failed,
    NoMemory,
}

/// How many bytes a read asks for, where at most so many may come.
fn asked(most: usize) -> usize
    requires { 0 < most }
    ensures { result ≡ min most 4096 }
{
    most.min(READ)
}

/// One read of at most so many bytes.
fn fill<R: Source>(held: &mut Vec<u8>, source: &mut R, most: usize) -> Filled
    requires { 0 < most }
    ensures bytes { IsFill held.old.items (R.left source.old) most held.new.items (R.left source.new) result }
    ensures count { R.faults source.old ≤ R.faults source.new }
    ensures cause { result ≡ Filled.Failed → Rose (R.faults source.old) (R.faults source.new) }
{
    let mut room = [0u8; READ];
    let asked = asked(most);
    match source.read(&mut room[..asked]) {
        Err(_) => Filled::Failed,
        Ok(0) => Filled::AtEnd,
        Ok(n) => match held.extend_from_slice(&room[..n]) {
            Ok(()) => Filled::More,
            Err(_) => Filled::NoMemory,
        },
    }
}

/// Reads a source to its end, or to one byte more than may come.
pub fn read_input<R: Source>(alloc: Global, source: &mut R, most: u32) -> Input
    ensures input { Told (R.left source.old) (R.left source.new) (IsInput most result) }
    ensures count { R.faults source.old ≤ R.faults source.new }
    ensures cause { result ≡ Input.Failed → Rose (R.faults source.old) (R.faults source.new) }
{
    let mut held = Vec::new(alloc);
    'reads: loop {
        if held.len() > most as usize {
            return Input::Long;
        }
        let room = most as usize + 1 - held.len();
        match fill(&mut held, source, room) {
            Filled::More => {}
            Filled::AtEnd => return Input::Whole(held),
            Filled::Failed => return Input::Failed,
            Filled::NoMemory => return Input::NoMemory,
        }
    }
}
