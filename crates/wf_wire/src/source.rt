//! Where bytes come from.

use crate::errors::Failed;

/// Bytes that are read piece by piece.
///
/// `left` is what is left of them, where the source tells it, and `faults` a count of failed reads, which never falls.
pub trait Source {
    ghost use Rattle.std.specs.Prelude.{Option, List, ℕ};
    ghost use Rattle.wf_wire.specs.Stream.{Gives, Counts};

    ghost left: { Self → Option (List ℕ) };

    ghost faults: { Self → ℕ };

    /// Reads into the front of `room`, and answers how many bytes came. It is 0 exactly at the end of the bytes, where `room` isn't empty.
    fn read(&mut self, room: &mut [u8]) -> Result<usize, Failed>
        ensures bytes { Gives (left self.old) (left self.new) room.new result }
        ensures cause { Counts (faults self.old) (faults self.new) result };
}
