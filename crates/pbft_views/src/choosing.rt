//! The value that a new view proposes at a slot. Only the chosen value is copied.
ghost use Rattle.std.specs.Prelude.{◌≡◌, Some, option_copied, IfOk};
ghost use Rattle.pbft_views.specs.Choice.{best, certificates_of, choice, further, higher};
ghost use Rattle.pbft_wire.specs.Statements.{digest_of, string_of};

use iss_request::{Bytes, NoMemory, Slot, Value};
use iss_sb::Params;
use pbft_wire::{Certificate, Change, digest_of, string_of};
use std::alloc::Global;

// The certificate of the higher view, the first one in a tie.
fn further<'a>(
    first: Option<&'a Certificate>,
    second: Option<&'a Certificate>,
) -> Option<&'a Certificate>
    ensures { option_copied result ≡ further (option_copied first.entry) (option_copied second.entry) }
{
    match first {
        None => second,
        Some(first) => Some(higher(first, second)),
    }
}

fn higher<'a>(first: &'a Certificate, second: Option<&'a Certificate>) -> &'a Certificate
    ensures { Some result.now ≡ higher first.now (option_copied second.entry) }
{
    match second {
        None => first,
        Some(second) => {
            if first.view < second.view {
                second
            } else {
                first
            }
        }
    }
}

/// The certificate of the highest view at the slot, the first one in a tie.
pub fn best<'a>(slot: Slot, certificates: &'a [Certificate]) -> Option<&'a Certificate>
    ensures { option_copied result ≡ best slot.0 certificates.now }
{
    let mut found = None;
    for c in certificates {
        if c.slot.0 == slot.0 {
            found = further(found, Some(c));
        }
    }
    found
}

/// The certificate of the highest view at the slot in these ViewChanges. In a tie it is that of the lowest replica,
/// since they ascend.
// rule: PBFT: A new view proposes the value of the certificate of the highest view, else nil
pub fn best_shown<'a>(slot: Slot, changes: &'a [Change]) -> Option<&'a Certificate>
    ensures { option_copied result ≡ best slot.0 (certificates_of changes.now) }
{
    let mut found = None;
    for x in changes {
        found = further(found, best(slot, x.certificates.as_slice()));
    }
    found
}

/// The value that a new view with these ViewChanges proposes at the slot.
pub fn choice(slot: Slot, changes: &[Change]) -> Result<Value, NoMemory>
    ensures { IfOk result (λ x. x ≡ choice changes.now slot.0) }
{
    match best_shown(slot, changes) {
        Some(c) => c.value.copy(),
        None => Ok(Value::Nil),
    }
}

/// The digest of the choice.
pub fn choice_digest(alloc: Global, p: &Params, slot: Slot, changes: &[Change]) -> [u8; 32]
    ensures { result ≡ digest_of p.now (choice changes.now slot.0) }
{
    match best_shown(slot, changes) {
        Some(c) => digest_of(alloc, p, &c.value),
        None => digest_of(alloc, p, &Value::Nil),
    }
}

/// The string of the choice, of which the digest is taken.
pub fn choice_string(
    alloc: Global,
    p: &Params,
    slot: Slot,
    changes: &[Change],
) -> Result<Bytes, NoMemory>
    ensures { IfOk result (λ s. s ≡ string_of p.now (choice changes.now slot.0)) }
{
    match best_shown(slot, changes) {
        Some(c) => string_of(alloc, p, &c.value),
        None => string_of(alloc, p, &Value::Nil),
    }
}
