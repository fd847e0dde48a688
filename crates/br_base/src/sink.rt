// Where the bytes of the program go to.

ghost use Rattle.std.specs.Prelude.{◌≡◌, ℕ, ◌+◌, ◌≤◌, ◌<◌, List, [], Option};
ghost use Rattle.std.specs.Prelude.{length, take, Ok, IfOk, OnOk, OnErr, IfSome};
ghost use Rattle.std.specs.Io.KnownBytes.{Appends, Keeps};
ghost use Rattle.br_base.specs.Ends.{Rose, last_count, AppendsSome};

use crate::failure::Failed;

/// A sink for bytes, which may fail at any write.
pub trait Sink {
    /// The bytes that it holds, where the sink tells them.
    ghost held: { Self → Option (List ℕ) };

    /// How often it has failed, up to the last value of a `u64`.
    ghost faults: { Self → ℕ };

    /// Adds the first bytes of the piece, and answers how many: at least one, unless the piece is
    /// empty. The count of faults rises with a failure alone.
    fn write(&mut self, piece: &[u8]) -> Result<usize, Failed>
        ensures fits { IfOk result (λ n. n ≤ length piece.now) }
        ensures some { IfOk result (λ n. 0 < length piece.now → 0 < n) }
        ensures added { IfOk result
            (λ n. Appends (held self.old) (held self.new) (take n piece.now)) }
        ensures unchanged { OnErr result (Keeps (held self.old) (held self.new)) }
        ensures failed { OnErr result (Rose (faults self.old) (faults self.new)) }
        ensures sound { OnOk result (faults self.new ≡ faults self.old) }
        ensures count { faults self.old ≤ faults self.new }
        ensures last { faults self.new ≤ last_count };
}

/// Adds all of `bytes`. Each write offers all that is left, and no bytes make no write. After a
/// failure, which ends it, the sink holds the first of them.
pub fn write_all<O: Sink>(out: &mut O, bytes: &[u8]) -> Result<(), Failed>
    ensures added { OnOk result (Appends (O.held out.old) (O.held out.new) bytes.now) }
    ensures some { OnErr result (AppendsSome (O.held out.old) (O.held out.new) bytes.now) }
    ensures failed { OnErr result (Rose (O.faults out.old) (O.faults out.new)) }
    ensures sound { OnOk result (O.faults out.new ≡ O.faults out.old) }
    ensures none { bytes.now ≡ [] → (result ≡ Ok tt) × (out.new ≡ out.old) }
    ensures count { O.faults out.old ≤ O.faults out.new }
{
    let mut written = 0;
    while written < bytes.len() {
        written += out.write(&bytes[written..])?;
    }
    Ok(())
}
