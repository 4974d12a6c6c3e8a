//! What is hashed, and the statements that are signed.
ghost use Rattle.std.specs.Prelude.{◌≡◌, ℕ, ◌+◌, ◌<◌, IfOk, OnOk};
ghost use Rattle.iss_keys.specs.Directories.{AreKeysOf};
ghost use Rattle.iss_keys.specs.KeyStates.{left_of};
ghost use Rattle.iss_sb.specs.Statements.{signature};
ghost use Rattle.sb_echo.specs.Echo.{digest_of, statement, string_of};

use crate::echo::Echo;
use iss_keys::Keys;
use iss_request::{Batch, Bytes, NoMemory, Slot, Writer, batch_string};
use iss_sb::{Params, put_head, sign};
use sb_context::Context;
use std::alloc::Global;

/// The tag of the module, which is part of each statement.
pub const TAG: u8 = 6;

/// The number of the leader's message, in encodings and in statements.
pub const SAY: u8 = 1;

/// The number of an echo.
pub const ECHO: u8 = 2;

/// The string of a batch, of which the digest is taken.
pub fn string_of(alloc: Global, p: &Params, batch: &Batch) -> Result<Bytes, NoMemory>
    ensures { IfOk result (λ s. s ≡ string_of p.now batch.now) }
{
    batch_string(alloc, p.setup.version, batch)
}

/// The digest of a batch, from its string.
pub fn digest_of(p: &Params, batch: &Batch, string: &Bytes) -> [u8; 32]
    requires { string.now ≡ string_of p.now batch.now }
    ensures { result ≡ digest_of p.now batch.now }
{
    p.directory.directory().digest(string.as_slice())
}

/// The statement that a batch of this digest was sent by the leader, or accepted (`kind`), at the slot.
// rule: Signatures: A statement names its cluster, epoch, leader, module and kind
pub fn statement(
    alloc: Global,
    p: &Params,
    kind: u8,
    slot: Slot,
    digest: &[u8; 32],
) -> Result<Bytes, NoMemory>
    ensures { IfOk result (λ s. s ≡ statement p.now kind slot.0 digest.now) }
{
    let mut out = Writer::new(alloc, p.setup.version);
    put_head(p, TAG, &mut out)?;
    out.put_u8(kind)?;
    out.put_u64(slot.0)?;
    out.put_bytes(digest)?;
    Ok(out.into_bytes())
}

/// Signs that a batch of this digest was sent by the leader, or accepted (`kind`), at the slot, with the next
/// one-time key.
pub fn sign_word(
    context: &Context<Echo>,
    kind: u8,
    slot: Slot,
    digest: &[u8; 32],
    keys: &mut Keys,
) -> Result<Bytes, NoMemory>
    requires { 0 < left_of keys.old }
    ensures sig { IfOk result (λ s. (me : ℕ) → AreKeysOf me context.now.p.now.setup.keys keys.old →
        s ≡ signature context.now.p.now me keys.old.used (statement context.now.p.now kind slot.0 digest.now)) }
    ensures used { OnOk result (keys.new ≡ record keys.old { used = keys.old.used + 1 }) }
    ensures left { OnOk result (left_of keys.new + 1 ≡ left_of keys.old) }
{
    let statement = statement(context.alloc, context.p, kind, slot, digest)?;
    sign(&statement, keys)
}
