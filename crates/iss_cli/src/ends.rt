//! Where bytes come from and where they go.
ghost use Rattle.std.specs.Prelude.{◌≡◌, ◌<◌, ◌≤◌, ℕ, List, Option, length, take, IfOk, OnErr, IsErr, IsErrOf};
ghost use Rattle.iss_cli.specs.Ends.{HasCause, Takes, and_more, empties_after};

use crate::errors::{EndError, Failed};

/// A source of bytes, such as standard input.
pub trait Source {
    /// The bytes that are left to read, if contracts can see them.
    ghost left: { Self → Option (List ℕ) };

    /// How often the source has failed. The count stops at 2^64 - 1.
    ghost faults: { Self → ℕ };

    /// How often a call that succeeded gave nothing. The count stops at 2^64 - 1.
    ghost empties: { Self → ℕ };

    /// Reads some of the remaining bytes into the beginning of a slice, and returns how many. 0 for a slice that is not
    /// empty is the end of the input. A call that fails reads nothing.
    fn take(&mut self, into: &mut [u8]) -> Result<usize, Failed>
        ensures bound { IfOk result (λ n. n ≤ length into.old) }
        ensures taken { IfOk result (λ n. Takes n (left self.old) (left self.new) into.old into.new) }
        ensures empty { IfOk result (λ n. empties self.new ≡ empties_after n (empties self.old)) }
        ensures err { OnErr result (left self.new ≡ left self.old) }
        ensures same { OnErr result (empties self.new ≡ empties self.old) }
        ensures cause { HasCause (faults self.old) (faults self.new) (IsErr result) };
}

/// A sink of bytes, such as standard output.
pub trait Sink {
    /// The bytes that were written so far, if contracts can see them.
    ghost held: { Self → Option (List ℕ) };

    /// How often the sink has failed. The count stops at 2^64 - 1.
    ghost faults: { Self → ℕ };

    /// Writes a prefix of the bytes, and returns its length. It is empty only if `bytes` is. A call that fails, or is
    /// out of memory, writes nothing.
    fn put(&mut self, bytes: &[u8]) -> Result<usize, EndError>
        ensures bound { IfOk result (λ n. n ≤ length bytes.now) }
        ensures some { IfOk result (λ n. 0 < length bytes.now → 0 < n) }
        ensures held { IfOk result (λ n. held self.new ≡ and_more (held self.old) (take n bytes.now)) }
        ensures err { OnErr result (held self.new ≡ held self.old) }
        ensures cause { HasCause (faults self.old) (faults self.new) (IsErrOf result EndError.Failed) };
}
