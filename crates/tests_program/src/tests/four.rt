//! A world of four nodes with echo, and its answers.
ghost use Rattle.std.specs.Prelude.{◌≡◌, ◌<◌, ◌≤◌};
ghost use Rattle.hex.specs.Hex.{IsBytes};
ghost use Rattle.iss_schedule.specs.Events.{IsInRange};

use crate::four_nodes;
use iss_request::{Bytes, Epoch, NoMemory};
use iss_rules::Why;
use iss_schedule::Event;
use iss_world::{EventResult, World};
use sb_echo::Echo;
use std::alloc::Global;
use std::marker::Model;
use std::process::Abort;

/// What a world answered, without the evidence.
#[derive(Clone, Copy, Debug, PartialEq, Eq)]
pub enum Told {
    Done,
    Lost(Why),
    Forged,
    Collision,
    NoMemory,
}

fn in_brief(happened: &EventResult) -> Told {
    match happened {
        EventResult::Done => Told::Done,
        EventResult::Lost(why) => Told::Lost(*why),
        EventResult::Forged { .. } => Told::Forged,
        EventResult::Collision { .. } => Told::Collision,
        EventResult::NoMemory | EventResult::Stale => Told::NoMemory,
    }
}

/// Checks that the answer is the expected one, at this place of a test.
pub(crate) fn check(rt: &impl Abort, told: Told, expected: Told, place: usize) {
    assert_eq!(rt; told, expected, "at {place}");
}

/// A world of four nodes. Its calls have no contracts, so that they add nothing to later goals.
#[derive(Drop)]
pub struct Four {
    world: World<Echo>,
}

impl Model for Four {
    ghost use Rattle.std.specs.Prelude.{◌≡◌, ℕ};
    ghost use Rattle.iss_request.specs.declared.setups.Kind.TheVariants.{Byzantine};

    ghost Value = { ℕ };

    ghost view = { λ f. f.world.simulation.setup.n };

    ghost invariant = { λ f. (f.world.simulation.setup.n ≡ 4) × (f.world.simulation.setup.kind ≡ Byzantine) };
}

// The same bytes, with the proof that each is below 256.
fn bytes_from(all: Vec<u8>) -> Bytes
    ensures { IsBytes result }
{
    Bytes::of(all)
}

fn happens(alloc: Global, world: &mut World<Echo>, event: &Event) -> Told
    requires { IsInRange world.old.simulation.setup event.now }
    ensures same { world.new.simulation.setup ≡ world.old.simulation.setup }
{
    in_brief(&world.event(alloc, event))
}

impl Four {
    /// A new world.
    pub(crate) fn start(alloc: Global) -> Result<Four, NoMemory> {
        let setup = four_nodes(alloc)?;
        let world = World::<Echo>::start(alloc, &setup)?;
        Ok(Four { world })
    }

    /// A node receives these bytes.
    pub(crate) fn take(&mut self, alloc: Global, node: u32, packet: &[u8]) -> Result<Told, NoMemory>
        requires { node < 4 }
    {
        let bytes = bytes_from(Vec::from_slice(alloc, packet)?);
        let event = Event::Bytes { core: node, bytes };
        Ok(happens(alloc, &mut self.world, &event))
    }

    /// A node proposes.
    pub(crate) fn propose(&mut self, alloc: Global, node: u32) -> Told
        requires { node < 4 }
    {
        let event = Event::Propose { core: node };
        happens(alloc, &mut self.world, &event)
    }

    /// All pending packets are delivered.
    pub(crate) fn calm(&mut self, alloc: Global) -> Told {
        let event = Event::Calm { pumps: 9 };
        happens(alloc, &mut self.world, &event)
    }

    /// The number of slots that a node has delivered.
    pub(crate) fn slots(&self, node: u32) -> usize
        requires { node < 4 }
    {
        self.world.entries(node).len()
    }

    /// A node's epoch.
    pub(crate) fn epoch(&self, node: u32) -> Epoch
        requires { node < 4 }
    {
        self.world.epoch(node)
    }
}
