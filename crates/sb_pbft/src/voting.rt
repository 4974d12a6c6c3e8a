//! Prepares and Commits. Of each replica the first one counts, once a view and slot.
ghost use Rattle.std.specs.Prelude.{◌≡◌, ◌≤◌, ◌*◌, ◌+◌, ◌==◌, ◌&&◌, not, length, IfOk};
ghost use Rattle.iss_keys.specs.KeyStates.{left_of};
ghost use Rattle.iss_sb.specs.Calls.{has_slot};
ghost use Rattle.pbft_views.specs.Good.{primary};
ghost use Rattle.pbft_wire.specs.Signed.{Commit, Prepare};
ghost use Rattle.sb_pbft.specs.Internal.Refines.{Does};

use crate::pbft::Pbft;
use crate::settling::Touched;
use crate::tallies::Envelope;
use iss_keys::Keys;
use iss_request::{Bytes, NoMemory};
use iss_sb::{Effects, Input};
use pbft_views::{has_slot, primary};
use pbft_wire::Message;
use sb_context::Context;

// Whether a Prepare counts: it is for a slot of the segment, and its sender is not the view's primary, whose
// PrePrepare is its vote.
// rule: PBFT: A Prepare of the primary does not count
fn counts(context: &Context<Pbft>, vote: &Envelope) -> bool
    ensures { result ≡ (has_slot vote.now.slot.0 context.now.p.now.slots &&
        not (vote.now.from.0 == primary context.now.p.now vote.now.view)) }
{
    has_slot(context.p, vote.slot) && vote.from != primary(context.p, vote.view)
}

impl Pbft {
    // Stores a Prepare with its signature, which becomes part of a prepared certificate, and then settles the slot.
    pub(crate) fn take_prepare(
        &mut self,
        context: &Context<Pbft>,
        vote: Envelope,
        digest: [u8; 32],
        keys: &mut Keys,
    ) -> Result<Effects<Message>, NoMemory>
        requires { 2 * length context.now.p.now.slots + 1 ≤ left_of keys.old }
        ensures { IfOk result (λ e.
            Does context.now.p.now self.old self.new (Input.Receive vote.from
            (Prepare vote.view vote.slot digest vote.sig)) keys.old keys.new e) }
    {
        if !counts(context, &vote) {
            return Ok(Effects::nothing(context.alloc));
        }
        let slot = vote.slot;
        let touched = Touched {
            view: vote.view,
            answers: false,
        };
        self.prepares.keep(vote, digest)?;
        let mut effects = Effects::nothing(context.alloc);
        self.settle_at(context, touched, slot, keys, &mut effects)?;
        Ok(effects)
    }

    // Stores a Commit without its signature, which no message contains, and then settles the slot.
    pub(crate) fn take_commit(
        &mut self,
        context: &Context<Pbft>,
        vote: Envelope,
        digest: [u8; 32],
        keys: &mut Keys,
    ) -> Result<Effects<Message>, NoMemory>
        requires { 2 * length context.now.p.now.slots + 1 ≤ left_of keys.old }
        ensures { IfOk result (λ e.
            Does context.now.p.now self.old self.new (Input.Receive vote.from
            (Commit vote.view vote.slot digest vote.sig)) keys.old keys.new e) }
    {
        if !has_slot(context.p, vote.slot) {
            return Ok(Effects::nothing(context.alloc));
        }
        let slot = vote.slot;
        let touched = Touched {
            view: vote.view,
            answers: false,
        };
        let unsigned = Envelope {
            from: vote.from,
            view: vote.view,
            slot,
            sig: Bytes::new(context.alloc),
        };
        self.commits.keep(unsigned, digest)?;
        let mut effects = Effects::nothing(context.alloc);
        self.settle_at(context, touched, slot, keys, &mut effects)?;
        Ok(effects)
    }
}
