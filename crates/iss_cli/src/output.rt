//! Writing bytes to a sink, all of them.
ghost use Rattle.std.specs.Prelude.{◌≡◌, ℕ, take, OnOk, OnErr, IsErrOf};
ghost use Rattle.iss_cli.specs.Ends.{HasCause, and_more};

use crate::ends::Sink;
use crate::errors::EndError;

/// Writes all bytes in order. If the sink fails or memory runs out, a prefix of them is written.
pub fn write_all<O: Sink>(out: &mut O, bytes: &[u8]) -> Result<(), EndError>
    ensures ok { OnOk result (O.held out.new ≡ and_more (O.held out.old) bytes.now) }
    ensures err { OnErr result ((n : ℕ) × (O.held out.new ≡ and_more (O.held out.old) (take n bytes.now))) }
    ensures cause { HasCause (O.faults out.old) (O.faults out.new) (IsErrOf result EndError.Failed) }
{
    let mut put = 0;
    while put < bytes.len() {
        put += out.put(&bytes[put..])?;
    }
    Ok(())
}
