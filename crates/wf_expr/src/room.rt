//! What is left of the limit of length.

ghost use Rattle.std.specs.Prelude.{◌≡◌, ◌+◌, ◌<◌, ◌^◌, IfErr, OnOk, length, nat_lt};
ghost use Rattle.json.specs.Print.{escape, escape_byte, escape_letter, quoted};
ghost use Rattle.wf_expr.specs.declared.fault.FillFault.TheVariants.{TooLarge};

use crate::fault::FillFault;

/// How many bytes of printed text may still come.
#[derive(Drop)]
pub(crate) struct Room {
    pub bytes: u32,
}

impl Room {
    /// Takes so many bytes, where there are as many.
    pub(crate) fn take(&mut self, count: u64) -> Result<(), FillFault>
        ensures taken { OnOk result (self.new.bytes + count ≡ self.old.bytes) }
        ensures large { IfErr result (λ fault. (fault ≡ TooLarge) × (self.old.bytes < count)) }
        ensures small { self.old.bytes < 2 ^ 32 }
    {
        if count > self.bytes as u64 {
            return Err(FillFault::TooLarge);
        }
        self.bytes -= count as u32;
        Ok(())
    }

    /// Takes what the bytes are printed as inside a text.
    pub(crate) fn take_escaped(&mut self, bytes: &[u8]) -> Result<(), FillFault>
        ensures taken { OnOk result (self.new.bytes + length (escape bytes.now) ≡ self.old.bytes) }
        ensures large { IfErr result (λ fault. (fault ≡ TooLarge) × (self.old.bytes < length (escape bytes.now))) }
    {
        for byte in bytes {
            self.take(escaped_len(*byte))?;
        }
        Ok(())
    }

    /// Takes what the key is printed as, its quotes and its colon counted.
    pub(crate) fn take_key(&mut self, key: &[u8]) -> Result<(), FillFault>
        ensures taken { OnOk result (self.new.bytes + (length (quoted key.now) + 1) ≡ self.old.bytes) }
        ensures large { IfErr result (λ fault. (fault ≡ TooLarge) × (self.old.bytes < length (quoted key.now) + 1)) }
    {
        self.take(3)?;
        self.take_escaped(key)
    }
}

fn has_short_escape(byte: u8) -> bool
    ensures { result ≡ nat_lt 0 (escape_letter byte) }
{
    matches!(byte, b'"' | b'\\' | b'\n' | b'\r' | b'\t' | 8 | 12)
}

#[tactic(auto, unfolding(json::specs::Print::escape_byte))]
fn escaped_len(byte: u8) -> u64
    ensures { result ≡ length (escape_byte byte) }
{
    if has_short_escape(byte) {
        2
    } else if byte < b' ' {
        6
    } else {
        1
    }
}
