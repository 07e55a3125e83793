//! Where bytes go.

ghost use Rattle.wf_wire.specs.Stream.{Writes, Counts};

use crate::errors::Failed;

/// What takes bytes piece by piece.
///
/// `taken` is what it took so far, where the sink tells it, and `faults` a count of failed writes, which never falls.
pub trait Sink {
    ghost use Rattle.std.specs.Prelude.{Option, List, ℕ};
    ghost use Rattle.wf_wire.specs.Stream.{Takes, Counts};

    ghost taken: { Self → Option (List ℕ) };

    ghost faults: { Self → ℕ };

    /// Takes the first bytes of `piece`, and answers how many.
    fn write(&mut self, piece: &[u8]) -> Result<usize, Failed>
        ensures bytes { Takes (taken self.old) (taken self.new) piece.now result }
        ensures cause { Counts (faults self.old) (faults self.new) result };
}

/// Gives all the bytes to the sink, piece by piece, up to the first write that fails.
pub fn write_all<W: Sink>(sink: &mut W, bytes: &[u8]) -> Result<(), Failed>
    ensures bytes { Writes (W.taken sink.old) (W.taken sink.new) bytes.now result }
    ensures cause { Counts (W.faults sink.old) (W.faults sink.new) result }
{
    let mut rest = bytes;
    while !rest.is_empty() {
        match sink.write(rest) {
            Ok(count) => rest = &rest[count..],
            Err(failed) => return Err(failed),
        }
    }
    Ok(())
}
