//! Decided values with their slots.
ghost use Rattle.std.specs.Prelude.{◌≡◌, drop, IfOk};
ghost use Rattle.iss_sb.specs.Paired.{paired};

use iss_request::{NoMemory, Seq, Slot, Value};
use std::alloc::Global;

/// Pairs the slots of the segment, from index `from` on, with the values, up to the shorter of both. The only error is
/// out of memory.
pub fn pair(
    alloc: Global,
    slots: &[Slot],
    from: usize,
    values: Vec<Value>,
) -> Result<Seq<(Slot, Value)>, NoMemory>
    ensures { IfOk result (λ ds. ds ≡ paired (drop from slots.now) values.items) }
{
    let mut fresh = Seq::new(alloc);
    let mut place = from;
    for value in values {
        let Some(slot) = slots.get(place) else {
            return Ok(fresh);
        };
        fresh.push((*slot, value))?;
        place += 1;
    }
    Ok(fresh)
}
