//! The one message of the relay, and its encoding.
ghost use Rattle.std.specs.Prelude.{◌≡◌, ◌↔◌, ℕ, List, [], IfOk, OnOk, Err};
ghost use Rattle.iss_request.specs.Fields.{Good, IsRead, IsUnreadable, and_bytes};
ghost use Rattle.sb_relay.specs.Relay.{IsSpelledSay, parse, spell};

use iss_request::{
    Batch, DecodeError, Fields, NoMemory, Slot, Writer, read_batch_value, write_batch_value,
};
use std::alloc::Global;

/// The number of the message in its encoding.
const SAY: u8 = 1;

/// The leader says that the slot holds this batch.
#[derive(Drop, Debug)]
pub struct Say {
    pub slot: Slot,
    pub batch: Batch,
}

impl Say {
    /// Writes the message: its number, the slot, the batch as a value.
    pub fn write(&self, out: &mut Writer) -> Result<(), NoMemory>
        ensures { OnOk result (out.new ≡ and_bytes out.old (spell out.old.version self.now)) }
    {
        out.put_u8(SAY)?;
        out.put_u64(self.slot.0)?;
        write_batch_value(&self.batch, out)
    }

    /// Reads the message at the front. `BadField` has the position of the first field that does not decode: the
    /// number if it is not that of this message, the value if it is nil.
    pub fn read(alloc: Global, f: &mut Fields) -> Result<Say, DecodeError>
        ensures ok { IfOk result (λ m. IsRead (parse f.old.version) f.old f.new m) }
        ensures bad { (at : ℕ) → result ≡ Err (DecodeError.BadField at) → IsUnreadable (parse f.old.version) f.old at }
    {
        let no_message = f.bad_field();
        let number = f.read_u8()?;
        if number != SAY {
            return Err(no_message);
        }
        let slot = Slot(f.read_u64()?);
        let batch = read_batch_value(alloc, f)?;
        Ok(Say { slot, batch })
    }
}

/// Bytes decode as a message exactly if the table relates the two. The function computes nothing: its contract is the
/// theorem.
pub fn say_is_exact()
    ensures { (version : ℕ) (said : Say) (bytes : List ℕ) → (parse version bytes ≡ Good said []) ↔
        IsSpelledSay version said bytes }
{}
