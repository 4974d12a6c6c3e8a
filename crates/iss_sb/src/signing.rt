//! What modules share for signing: the head of a statement, and a signature by the next leaf.
ghost use Rattle.std.specs.Prelude.{◌≡◌, ℕ, ◌+◌, ◌<◌, IfOk, OnOk};
ghost use Rattle.iss_keys.specs.Directories.{AreKeysOf};
ghost use Rattle.iss_keys.specs.KeyStates.{left_of};
ghost use Rattle.iss_request.specs.Fields.{and_bytes};
ghost use Rattle.iss_sb.specs.declared.effects.Params.{Params};
ghost use Rattle.iss_sb.specs.Statements.{signature, statement_head};

use crate::effects::Params;
use iss_keys::{Keys, SignError};
use iss_request::{Bytes, NoMemory, Writer};

/// Appends the head of every statement of an instance: cluster, epoch, leader, module. So a signature counts in one
/// instance only. The only error is out of memory.
// rule: Signatures: A statement names its cluster, epoch, leader, module and kind
// rule: Signatures: A statement belongs to one instance: one cluster, epoch, leader and module
pub fn put_head(p: &Params, module_tag: u8, out: &mut Writer) -> Result<(), NoMemory>
    ensures { OnOk result (out.new ≡ and_bytes out.old (statement_head p.now module_tag)) }
{
    out.put_bytes(&p.setup.tag)?;
    out.put_u64(p.epoch.0)?;
    out.put_u8(p.leader.0)?;
    out.put_u8(module_tag)
}

/// Signs a statement with the next one-time leaf, which must exist. The only error is out of memory.
// rule: Signatures: A node signs exactly its statement, with its next leaf
// rule: Modules: The k-th leaf that a step uses signs its k-th statement
pub fn sign(statement: &Bytes, keys: &mut Keys) -> Result<Bytes, NoMemory>
    requires { 0 < left_of keys.old }
    ensures sig { IfOk result (λ sig. (p : Params) (me : ℕ) → AreKeysOf me p.setup.keys keys.old →
        sig ≡ signature p me keys.old.used statement.now) }
    ensures used { OnOk result (keys.new ≡ record keys.old { used = keys.old.used + 1 }) }
    ensures left { OnOk result (left_of keys.new + 1 ≡ left_of keys.old) }
{
    match keys.sign(statement.as_slice()) {
        Ok(sig) => Ok(Bytes::of(sig)),
        Err(SignError::NoMemory) => Err(NoMemory),
        Err(SignError::Spent) => unreachable!(),
    }
}
