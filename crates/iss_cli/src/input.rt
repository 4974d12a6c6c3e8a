//! Reading a source to its end.
ghost use Rattle.std.specs.Prelude.{◌≡◌, ◌<◌, ◌≤◌, ◌+◌, ◌++◌, length, take, IfOk, OnOk, OnErr, IsErrOf};
ghost use Rattle.iss_cli.specs.Ends.{HasCause, IfTold, Takes, Drains, IsDrained, empties_after};

use crate::ends::Source;
use crate::errors::EndError;
use std::alloc::Global;

/// Reads the rest of a source, but at most `most` bytes, `piece` bytes at a time. Each read but the last gives some
/// bytes. Fails if the source fails, or if memory runs out.
// rule: Program: The input is read to its end, at most one byte past the limit
// rule: Program: Each read but the last gives at least one byte
pub fn read_up_to<I: Source>(
    alloc: Global,
    input: &mut I,
    most: usize,
    piece: usize,
) -> Result<Vec<u8>, EndError>
    requires { 0 < piece }
    ensures bytes { IfOk result (λ bytes. IfTold (I.left input.old) (λ all. bytes.items ≡ take most all)) }
    ensures end { OnOk result (IsDrained most (I.left input.old) (I.left input.new)) }
    ensures taken { Drains most (I.left input.old) (I.left input.new) }
    ensures empty { I.empties input.new ≤ I.empties input.old + 1 }
    ensures cause { HasCause (I.faults input.old) (I.faults input.new) (IsErrOf result EndError.Failed) }
{
    let mut bytes = Vec::new(alloc);
    let mut buffer = vec![in alloc; 0u8; piece]?;
    while bytes.len() < most {
        let room = piece.min(most - bytes.len());
        if take_more(input, &mut buffer[..room], &mut bytes)? == 0 {
            return Ok(bytes);
        }
    }
    Ok(bytes)
}

// Reads once into the buffer, and appends what was read to `bytes`. Returns the number of bytes.
fn take_more<I: Source>(
    input: &mut I,
    buffer: &mut [u8],
    bytes: &mut Vec<u8>,
) -> Result<usize, EndError>
    ensures bound { IfOk result (λ n. n ≤ length buffer.old) }
    ensures taken { IfOk result (λ n. Takes n (I.left input.old) (I.left input.new) buffer.old buffer.new) }
    ensures bytes { IfOk result (λ n. bytes.new.items ≡ bytes.old.items ++ take n buffer.new) }
    ensures empty { IfOk result (λ n. I.empties input.new ≡ empties_after n (I.empties input.old)) }
    ensures err { OnErr result (Drains (length buffer.old) (I.left input.old) (I.left input.new)) }
    ensures few { I.empties input.new ≤ I.empties input.old + 1 }
    ensures cause { HasCause (I.faults input.old) (I.faults input.new) (IsErrOf result EndError.Failed) }
{
    let taken = input.take(buffer)?;
    bytes.extend_from_slice(&buffer[..taken])?;
    Ok(taken)
}
