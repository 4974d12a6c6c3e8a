//! The schedule of a number.
ghost use Rattle.std.specs.Prelude.{◌≡◌, ◌∷◌, IfOk};
ghost use Rattle.sha2.specs.Sha256.{sha256};
ghost use Rattle.iss_schedule.specs.Events.{AreInRange};
ghost use Rattle.iss_schedule.specs.Schedules.{IsKnown};
ghost use Rattle.iss_lab.specs.Generated.{drawn_events, generated, lab_setup};

use crate::draws::Draws;
use crate::events::draw_event;
use iss_request::{Kind, NoMemory, Nodes, Policy, Seq, Setup};
use iss_schedule::{Event, Schedule};
use sha2::{Digest, Sha256};
use std::alloc::Global;

// How many pumps end a schedule.
const LAST_PUMPS: u32 = 50;

const HEADER: &[u8] = b"iss 1\nmodule pbft\nf 1\nepoch 8\nbuckets 16\nbatch 8\nwindow 64\n\
      policy blacklist\nclients 16\nkeys 10\nfaulty none\n";

/// The schedule of a number: four nodes under PBFT, this many events that the number gives, and at last up to 50 pumps.
/// The only error is out of memory.
pub fn generate(alloc: Global, number: u64, events: u32) -> Result<Schedule, NoMemory>
    ensures value { IfOk result (λ s. s ≡ generated number events) }
    ensures known { IfOk result (λ s. IsKnown s.setup) }
    ensures range { IfOk result (λ s. AreInRange s.setup s.events) }
{
    let mut drawn = draw_events(alloc, number, events)?;
    drawn.push(Event::Calm { pumps: LAST_PUMPS })?;
    Ok(Schedule {
        setup: lab_setup(alloc),
        events: drawn,
    })
}

// The events that a number gives.
fn draw_events(alloc: Global, number: u64, count: u32) -> Result<Seq<Event>, NoMemory>
    ensures { IfOk result (λ events. events ≡ drawn_events 0 count number) }
{
    let mut draws = Draws { state: number };
    let mut events = Seq::new(alloc);
    for place in 0..count {
        events.push(draw_event(alloc, &mut draws, u64::from(place))?)?;
    }
    Ok(events)
}

// The set-up: PBFT with f 1, so four nodes.
fn lab_setup(alloc: Global) -> Setup
    ensures { result ≡ lab_setup }
{
    Setup {
        version: 1,
        module: 3,
        f: 1,
        epoch: 8,
        buckets: 16,
        batch: 8,
        window: 64,
        policy: Policy::Blacklist,
        clients: 16,
        keys: 10,
        faulty: Nodes::new(alloc),
        n: 4,
        quorum: 3,
        kind: Kind::Byzantine,
        tag: tag_of(HEADER),
    }
}

// The tag of the cluster with this header.
fn tag_of(header: &[u8]) -> [u8; 32]
    ensures { result ≡ sha256 (0x43 ∷ header.now) }
{
    let mut hasher = Sha256::new();
    hasher.update([0x43u8]);
    hasher.update(header);
    hasher.finalize()
}
