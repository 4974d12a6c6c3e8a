//! The cores of a cluster and the network between them, while memory suffices.
ghost use Rattle.std.specs.Prelude.{◌≡◌, ◌<◌, IfOk, Some, slice_get, true, false};
ghost use Rattle.iss_base.specs.Lists.{nth};
ghost use Rattle.iss_model.specs.Run.{cores_of, node_of};
ghost use Rattle.iss_model.specs.Courses.{begin_machines, with_disk, with_packets};
ghost use Rattle.iss_model.specs.Disks.{fused};
ghost use Rattle.iss_model.specs.Driver.{apply_event, calms, delivers, delivers_each, done, injects, loses};
ghost use Rattle.iss_rules.specs.Setups.{IsSetupOf};
ghost use Rattle.iss_network.specs.Network.{cleared, due, held_to};
ghost use Rattle.iss_schedule.specs.Events.{IsInRange};
ghost use Rattle.iss_theorems.specs.Readers.{addressee, reader_of, reader_of_calm, reader_of_each};
ghost use Rattle.iss_world.specs.Refines.{Follows, InMachines, RefinesMachines, RefinesSome, ShowsCore, by_core, by_none};
ghost use Rattle.iss_world.specs.State.{AreBetweenCores};

use crate::claims::Claims;
use crate::cores::{make_anew, start_cores};
use crate::ends::EventOutcome;
use crate::members::Members;
use crate::requests::request_packet;
use crate::strings::Strings;
use iss_disk::MemoryDisk;
use iss_keep::Kept;
use iss_network::{Network, Sent};
use iss_request::{NoMemory, Setup};
use iss_rules::{NodeEvent, Why};
use iss_sb::Sequenced;
use iss_schedule::Event;
use std::alloc::Global;
use std::marker::Model;

/// The cores of a cluster, the network between them, and records of what was signed and hashed.
#[derive(Drop)]
pub struct Simulation<M: Sequenced> {
    pub(crate) members: Members,
    // Core `i` is at index `i`, and each core has its own disk.
    pub(crate) nodes: Vec<Kept<M, MemoryDisk>>,
    pub(crate) network: Network,
    // The statements that correct nodes signed, and the strings that were hashed.
    pub(crate) signed: Claims,
    pub(crate) hashed: Strings,
}

impl<M: Sequenced> Model for Simulation<M> {
    ghost use Rattle.iss_world.specs.State.{SimulationState};
    ghost use Rattle.iss_world.specs.Internal.Shape.{IsSimulation};

    ghost Value = { SimulationState M M.Msg };

    ghost view = { λ w. record {
      setup = w.members;
      nodes = w.nodes.items;
      network = w.network;
      signed = w.signed;
      hashed = w.hashed;
    } };

    ghost invariant = { λ w. IsSimulation M.spec (record {
      setup = w.members;
      nodes = w.nodes.items;
      network = w.network;
      signed = w.signed;
      hashed = w.hashed;
    }) };
}

impl<M: Sequenced> Simulation<M> {
    /// The start of a run. No core has taken an event, each has its node's keys, there are no packets, nothing was
    /// signed, and only the empty string counts as hashed.
    pub fn start(alloc: Global, setup: &Setup) -> Result<Simulation<M>, NoMemory>
        requires { IsSetupOf M.spec setup.now }
        ensures refines { IfOk result (λ v. RefinesMachines M.spec M.refines v (begin_machines setup.now)) }
        ensures same { IfOk result (λ v. v.setup ≡ setup.now) }
    {
        let members = Members::of(alloc, setup)?;
        Ok(Simulation {
            nodes: start_cores(alloc, &members)?,
            network: Network::new(alloc, members.cores())?,
            signed: Claims::new(alloc),
            hashed: Strings::new(alloc)?,
            members,
        })
    }

    /// Applies one event. The only error is out of memory; after that nothing is known about the cores.
    // rule: Network: An ask goes to each core of the node that is asked, for the asker's own epoch
    pub fn event(&mut self, alloc: Global, event: &Event) -> Result<EventOutcome, NoMemory>
        requires range { IsInRange self.old.setup event.now }
        requires standing { RefinesSome M.spec M.refines self.old }
        ensures happened { IfOk result (Follows M.spec M.refines self.old self.new
            (λ W w. reader_of W w event.now) (λ W w. apply_event W w event.now)) }
        ensures same { self.new.setup ≡ self.old.setup }
    {
        match event {
            Event::Request {
                core,
                client,
                number,
                payload,
            } => {
                let packet = request_packet::<M>(alloc, &self.members, *client, *number, payload)?;
                self.take(alloc, *core, NodeEvent::Packet(packet))
            }
            Event::Propose { core } => self.take(alloc, *core, NodeEvent::Propose),
            Event::Timeout { core, leader } => {
                self.take(alloc, *core, NodeEvent::Timeout(*leader))
            }
            Event::Ask { core, peer } => self.take(alloc, *core, NodeEvent::AskFrom(*peer)),
            Event::Deliver { packet } => self.deliver(alloc, *packet),
            Event::Lose { packet } => Ok(self.lose(*packet)),
            Event::Pump => self.calm(alloc, 1),
            Event::Calm { pumps } => self.calm(alloc, *pumps),
            Event::Hold { core } => {
                self.network.hold(*core);
                Ok(EventOutcome::Done)
            }
            Event::Free { core } => {
                self.network.free(*core);
                Ok(EventOutcome::Done)
            }
            Event::Drop { core } => {
                self.network.drop_for(*core);
                Ok(EventOutcome::Done)
            }
            Event::Restart { core } => self.restart(*core),
            Event::Crash { core, calls } => Ok(self.crash(*core, *calls)),
            Event::Bytes { core, bytes } => {
                let _setup = self.members.setup();
                self.take(alloc, *core, NodeEvent::Packet(bytes.copy()?))
            }
        }
    }

    // Delivers a packet to its core, also one that was delivered or lost before (a duplicate).
    // rule: Network: A delivered packet is taken by its core, whether or not it still waits
    // rule: Recovery: A missing packet is reported before the disk is asked
    fn deliver(&mut self, alloc: Global, packet: u64) -> Result<EventOutcome, NoMemory>
        requires { RefinesSome M.spec M.refines self.old }
        ensures happened { IfOk result (Follows M.spec M.refines self.old self.new
            (λ W w. addressee w packet) (λ W w. delivers W w packet)) }
        ensures same { self.new.setup ≡ self.old.setup }
    {
        let Some(sent) = self.network.packet(packet) else {
            return Ok(EventOutcome::Lost(Why::NoPacket));
        };
        let core = sent.to;
        let bytes = sent.bytes.copy()?;
        self.network.settle(packet);
        self.take(alloc, core, NodeEvent::Packet(bytes))
    }

    // Loses a packet: it is no longer in flight.
    // rule: Network: A lost packet waits no more
    fn lose(&mut self, packet: u64) -> EventOutcome
        ensures happened { Follows M.spec M.refines self.old self.new
            by_none (λ W w. loses W w packet (nth w.held.net.network.packets packet)) result }
        ensures same { self.new.setup ≡ self.old.setup }
    {
        match self.network.packet(packet) {
            Some(_) => {
                self.network.settle(packet);
                EventOutcome::Done
            }
            None => EventOutcome::Lost(Why::NoPacket),
        }
    }

    // The packets in flight for cores that are not held, ascending.
    fn due(&mut self, alloc: Global) -> Result<Vec<u64>, NoMemory>
        ensures same { self.new ≡ self.old }
        ensures found { IfOk result (λ packets. packets.items ≡ due self.old.network) }
    {
        self.network.due(alloc)
    }

    // Delivers these packets in order. Stops if a delivery reveals evidence.
    fn deliver_each(&mut self, alloc: Global, packets: &[u64]) -> Result<EventOutcome, NoMemory>
        requires { RefinesSome M.spec M.refines self.old }
        ensures happened { IfOk result (Follows M.spec M.refines self.old self.new
            (λ W w. reader_of_each W packets.now w) (λ W w. delivers_each W packets.now w)) }
        ensures same { self.new.setup ≡ self.old.setup }
    {
        for packet in packets {
            if let EventOutcome::Ended(end) = self.deliver(alloc, *packet)? {
                return Ok(EventOutcome::Ended(end));
            }
        }
        Ok(EventOutcome::Done)
    }

    // At most `most` pumps. Stops early if nothing is in flight, or if a delivery reveals evidence.
    // rule: Network: A calm is n pumps, fewer if one finds nothing or ends the run
    fn calm(&mut self, alloc: Global, most: u32) -> Result<EventOutcome, NoMemory>
        requires { RefinesSome M.spec M.refines self.old }
        ensures happened { IfOk result (Follows M.spec M.refines self.old self.new
            (λ W w. reader_of_calm W most w) (λ W w. calms W most w)) }
        ensures same { self.new.setup ≡ self.old.setup }
    {
        for done in 0..most {
            let packets = self.due(alloc)?;
            if packets.len() == 0 {
                return Ok(EventOutcome::Done);
            }
            if let EventOutcome::Ended(end) = self.deliver_each(alloc, packets.as_slice())? {
                return Ok(EventOutcome::Ended(end));
            }
        }
        Ok(EventOutcome::Done)
    }

    // Restarts a core: it recovers from what its disk has synced. Packets in flight for it stay, and so does whether it
    // is held.
    // rule: Recovery: A recovered core is that of its kept events; it sends nothing and its packets still wait
    fn restart(&mut self, core: u32) -> Result<EventOutcome, NoMemory>
        requires core { core < cores_of self.old.setup }
        requires standing { RefinesSome M.spec M.refines self.old }
        ensures happened { IfOk result (Follows M.spec M.refines self.old self.new by_none (λ W w. W.restart w core)) }
        ensures same { self.new.setup ≡ self.old.setup }
    {
        let node = &mut self.nodes[core as usize];
        node.restart();
        make_anew(node)?;
        Ok(EventOutcome::Done)
    }

    // Lets the next `calls` calls of a core's disk succeed. All later ones fail until the core is restarted.
    // rule: Recovery: After a crash n more disk calls of a core pass, and all others fail until it recovers
    fn crash(&mut self, core: u32, calls: u32) -> EventOutcome
        requires { core < cores_of self.old.setup }
        ensures happened { Follows M.spec M.refines self.old self.new
            by_none (λ W w. done (with_disk w core (fused (w.disks core) calls))) result }
        ensures same { self.new.setup ≡ self.old.setup }
    {
        self.nodes[core as usize].fuse(calls as u64);
        EventOutcome::Done
    }

    /// The set-up of the cluster.
    pub fn setup(&self) -> &Setup
        ensures same { result.now ≡ self.now.setup }
        ensures good { IsSetupOf M.spec result.now }
    {
        self.members.setup()
    }

    /// The packets that were sent, by number.
    pub fn packets(&self) -> &[Sent]
        ensures shown { InMachines M.spec M.refines self.now (λ w. result.now ≡ w.held.net.network.packets) }
        ensures between { AreBetweenCores (cores_of self.now.setup) result.now }
    {
        self.network.packets()
    }

    /// The kept node that a core runs.
    pub fn node(&self, core: u32) -> &Kept<M, MemoryDisk>
        requires { core < cores_of self.now.setup }
        ensures at { slice_get self.now.nodes core ≡ Some result.now }
        ensures shown { InMachines M.spec M.refines self.now (λ w. ShowsCore M.spec self.now.setup
            (node_of self.now.setup core) result.now (w.held.net.cores core)) }
        ensures same { (result.now.setup ≡ self.now.setup) × (result.now.me.0 ≡ node_of self.now.setup core) }
    {
        &self.nodes[core as usize]
    }
}
