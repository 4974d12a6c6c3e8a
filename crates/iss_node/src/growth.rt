//! How deliveries extend the log, and their effect on the requests that a node knows.
ghost use Rattle.std.specs.Prelude.{◌≡◌, List, OnOk, IfOk, fold, length, reverse};
ghost use Rattle.iss_log.specs.LogState.{GoesOn};
ghost use Rattle.iss_log.specs.Chains.{IsChainOf};
ghost use Rattle.iss_node.specs.Internal.Growth.{AreJoined, IsGrown, and_values, waits_on};
ghost use Rattle.iss_node.specs.Internal.Cells.{AreFilled};
ghost use Rattle.iss_model.specs.Node.{is_nil_at};
ghost use Rattle.iss_request.specs.declared.requests.Value.{Value as LogValue};

use iss_buckets::Pending;
use iss_keys::Directory;
use iss_log::{Chains, Log};
use iss_request::{Bytes, NoMemory, Seq, Slot, Value};
use iss_window::Ids;

/// Stores delivered values and extends the log as far as its slots are filled. Returns the log's earlier length. The
/// only error is out of memory.
pub fn extend_log(log: &mut Log, delivers: Vec<(Slot, Value)>) -> Result<usize, NoMemory>
    ensures grown { IfOk result (λ held. IsGrown log.old delivers.items log.new held) }
    ensures goes_on { GoesOn log.old.entries log.new.entries }
{
    let held = log.entries().len();
    fill_all(log, delivers)?;
    let _joined = log.advance()?;
    Ok(held)
}

// Stores delivered values in their slots. A slot that already has a value keeps it.
fn fill_all(log: &mut Log, delivers: Vec<(Slot, Value)>) -> Result<(), NoMemory>
    ensures filled { OnOk result (AreFilled log.old delivers.items log.new) }
    ensures same { log.new.entries ≡ log.old.entries }
{
    for (slot, value) in delivers {
        let _fill = log.fill(slot, value)?;
    }
    Ok(())
}

/// Extends the chain of log digests by new values. The strings hashed for that are appended to `hashed`.
pub fn join_all(
    directory: &Directory,
    chains: &mut Chains,
    values: &[Value],
    hashed: &mut Seq<Bytes>,
) -> Result<(), NoMemory>
    ensures joined { OnOk result ((log : List LogValue) → IsChainOf chains.old log →
        AreJoined chains.old log values.now chains.new hashed.old hashed.new) }
    ensures version { chains.new.version ≡ chains.old.version }
{
    for value in values {
        chains.join(directory, value, hashed)?;
    }
    Ok(())
}

/// Removes ordered requests from the waiting list and notes their identities.
pub fn retire_ordered(
    values: &[Value],
    waiting: &mut Pending,
    logged: &mut Ids,
) -> Result<(), NoMemory>
    ensures waiting { OnOk result (waiting.new ≡ fold waits_on waiting.old values.now) }
    ensures logged { OnOk result (logged.new ≡ fold and_values logged.old values.now) }
{
    for value in values {
        retire_value(value, waiting, logged)?;
    }
    Ok(())
}

fn retire_value(value: &Value, waiting: &mut Pending, logged: &mut Ids) -> Result<(), NoMemory>
    ensures waiting { OnOk result (waiting.new ≡ waits_on waiting.old value.now) }
    ensures logged { OnOk result (logged.new ≡ and_values logged.old value.now) }
{
    match value {
        Value::Nil => Ok(()),
        Value::Batch(batch) => {
            waiting.drop_ordered(batch);
            logged.add_all(batch.as_slice())
        }
    }
}

/// Whether the log has nil at this slot.
pub fn is_nil(log: &Log, slot: Slot) -> bool
    ensures { result ≡ is_nil_at (reverse log.now.entries) slot.0 }
{
    if slot.0 >= log.entries().len() as u64 {
        return false;
    }
    match &log.entries()[slot.0 as usize] {
        Value::Nil => true,
        Value::Batch(_) => false,
    }
}
