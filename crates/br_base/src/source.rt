// Where the bytes of the program come from.

ghost use Rattle.std.specs.Prelude.{◌≡◌, ℕ, ◌+◌, ◌≤◌, ◌<◌, List, Option, length};
ghost use Rattle.std.specs.Prelude.{take, IfOk, OnOk, OnErr, IfSome, IsErrOf, ◌≢◌};
ghost use Rattle.std.specs.Io.KnownBytes.{Consumes, IsAtEnd, Keeps};
ghost use Rattle.br_base.specs.Ends.{Rose, last_count, ConsumesMany, ConsumesAtMost};

use crate::failure::Failed;
use std::alloc::{AllocError, Global};

/// A source of bytes, which may fail at any read.
pub trait Source {
    /// The bytes that are left, where the source tells them.
    ghost left: { Self → Option (List ℕ) };

    /// How often it has failed, up to the last value of a `u64`.
    ghost faults: { Self → ℕ };

    /// Reads the next bytes into the front of `buf`, and answers how many. 0 for a buffer that is
    /// not empty is the end of the input. The count of faults rises with a failure alone.
    fn read(&mut self, buf: &mut [u8]) -> Result<usize, Failed>
        ensures fits { IfOk result (λ n. n ≤ length buf.new) }
        ensures taken { IfOk result
            (λ n. Consumes (left self.old) (left self.new) (take n buf.new)) }
        ensures end { IfOk result (λ n. n ≡ 0 → 0 < length buf.new → IsAtEnd (left self.new)) }
        ensures untaken { OnErr result (Keeps (left self.old) (left self.new)) }
        ensures failed { OnErr result (Rose (faults self.old) (faults self.new)) }
        ensures sound { OnOk result (faults self.new ≡ faults self.old) }
        ensures count { faults self.old ≤ faults self.new }
        ensures last { faults self.new ≤ last_count };
}

/// Why a source was not read to its end.
#[derive(Clone, Copy, Debug, PartialEq, Eq)]
pub enum ReadEnd {
    /// There was no memory for the bytes.
    Memory,
    /// The source failed.
    Failed,
    /// There are more bytes than the limit allows.
    TooLong,
}

impl From<Failed> for ReadEnd {
    ghost use Rattle.br_base.specs.declared.source.ReadEnd.TheVariants.{Failed};

    ghost from_gives = { λ _ e. e ≡ Failed };

    fn from(_cause: Failed) -> ReadEnd {
        ReadEnd::Failed
    }
}

impl From<AllocError> for ReadEnd {
    ghost use Rattle.br_base.specs.declared.source.ReadEnd.TheVariants.{Memory};

    ghost from_gives = { λ _ e. e ≡ Memory };

    fn from(_cause: AllocError) -> ReadEnd {
        ReadEnd::Memory
    }
}

// How many bytes a read is offered at most.
const CHUNK: usize = 4096;

/// All bytes up to the end, if there are at most `limit`. `TooLong` comes once byte number
/// `limit + 1` was read, and nothing is read after it. `Failed` comes at the first read that fails,
/// which is then the last. `Memory` may come at any moment.
pub fn read_all<S: Source>(alloc: Global, input: &mut S, limit: usize) -> Result<Vec<u8>, ReadEnd>
    ensures bytes { IfOk result
        (λ bytes. Consumes (S.left input.old) (S.left input.new) bytes.items) }
    ensures end { OnOk result (IsAtEnd (S.left input.new)) }
    ensures within { IfOk result (λ bytes. length bytes.items ≤ limit) }
    ensures too_long { IsErrOf result ReadEnd.TooLong →
        ConsumesMany (S.left input.old) (S.left input.new) (limit + 1) }
    ensures failed { IsErrOf result ReadEnd.Failed →
        Rose (S.faults input.old) (S.faults input.new) }
    ensures failed_within { IsErrOf result ReadEnd.Failed →
        ConsumesAtMost (S.left input.old) (S.left input.new) limit }
    ensures memory_within { IsErrOf result ReadEnd.Memory →
        ConsumesAtMost (S.left input.old) (S.left input.new) (limit + 1) }
    ensures sound { OnOk result (S.faults input.new ≡ S.faults input.old) }
    ensures count { S.faults input.old ≤ S.faults input.new }
{
    let mut bytes = Vec::new(alloc);
    let mut chunk = [0; CHUNK];
    while bytes.len() <= limit {
        let room = (CHUNK - 1).min(limit - bytes.len()) + 1;
        let n = input.read(&mut chunk[..room])?;
        if n == 0 {
            return Ok(bytes);
        }
        bytes.extend_from_slice(&chunk[..n])?;
    }
    Err(ReadEnd::TooLong)
}
