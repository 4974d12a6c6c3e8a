//! The lines of events.
ghost use Rattle.std.specs.Prelude.{◌≡◌, ◌≢◌, ◌<◌, ◌≤◌, ◌^◌, ◌+◌, ℕ, List, [], ◌∷◌, IfOk, IfSome, IfNone, IsTrue, ◌↔◌, decimal};
ghost use Rattle.hex.specs.Hex.{IsBytes};
ghost use Rattle.iss_request.specs.Setup.{IsGoodSetup};
ghost use Rattle.iss_schedule.specs.Cores.{cores_of};
ghost use Rattle.iss_schedule.specs.Events.{event_words, spell_event, IsInRange, IsPayload};
ghost use Rattle.iss_schedule.specs.Names.{text_of_name};
ghost use Rattle.iss_schedule.specs.Reads.{Reads, IsWithin, last_number};
ghost use Rattle.iss_schedule.specs.Words.{word_of};

use crate::names::{Name, name_of};
use crate::schedules::Event;
use crate::words::{Words, bytes_of, number_of, number_within};
use iss_request::bytes::Bytes;
use iss_request::errors::NoMemory;
use iss_request::ids::NodeId;
use iss_request::setups::{Kind, Setup};
use std::alloc::Global;

// A set-up in range, against which the numbers of an event's line are checked.
#[derive(Drop)]
struct Ranges<'a> {
    setup: &'a Setup,
    ghost cores: { cores_of setup.now ≤ 67 },
    ghost nodes: { setup.now.n ≤ 64 },
    ghost clients: { setup.now.clients ≤ 256 },
    ghost keys: { setup.now.keys ≤ 20 },
}

// The number in the next word, if it is in range.
fn number_in(words: &mut Words, low: u32, end: u32) -> Option<u32>
    ensures some { IfSome result (λ n. words.old ≡ decimal n ∷ words.new) }
    ensures range { IfSome result (IsWithin low end) }
    ensures none { IfNone result ((n : ℕ) (ws : List (List ℕ)) → IsWithin low end n → words.old ≢ decimal n ∷ ws) }
{
    let word = words.next()?;
    number_within(word, low, end)
}

// The number in the last word, if it is in range.
fn last_number_in(words: &mut Words, low: u32, end: u32) -> Option<u32>
    ensures { Reads last_number (IsWithin low end) words.old result }
{
    let number = number_in(words, low, end)?;
    if words.is_done() { Some(number) } else { None }
}

// The number of the packet in the last word.
fn packet_in(words: &mut Words) -> Option<u64>
    ensures { Reads last_number (λ n. n < 2 ^ 64) words.old result }
{
    let word = words.next()?;
    let number = number_of(word)?;
    if words.is_done() { Some(number) } else { None }
}

/// The same bytes, with the proof that each is below 256.
pub fn bytes_from(all: Vec<u8>) -> Bytes
    ensures same { result ≡ all.items }
    ensures bytes { IsBytes result }
{
    Bytes::of(all)
}

/// The bytes in the last word.
pub fn bytes_in(alloc: Global, words: &mut Words) -> Result<Option<Bytes>, NoMemory>
    ensures { IfOk result (Reads (λ bytes. word_of bytes ∷ []) IsBytes words.old) }
{
    let Some(word) = words.next() else {
        return Ok(None);
    };
    let Some(bytes) = bytes_of(alloc, word)? else {
        return Ok(None);
    };
    if words.is_done() {
        Ok(Some(bytes_from(bytes)))
    } else {
        Ok(None)
    }
}

// The number of pumps in the last word.
fn pumps_in(words: &mut Words) -> Option<u32>
    ensures { Reads last_number (λ pumps. (1 ≤ pumps) × (pumps ≤ 1000)) words.old result }
{
    last_number_in(words, 1, 1001)
}

// The number of disk calls in the last word that still succeed.
// rule: Schedules: A crash lets 0 to 1,000 disk calls of a core pass
fn calls_in(words: &mut Words) -> Option<u32>
    ensures { Reads last_number (λ calls. calls ≤ 1000) words.old result }
{
    last_number_in(words, 0, 1001)
}

// The payload in the last word.
fn payload_in(alloc: Global, words: &mut Words) -> Result<Option<Bytes>, NoMemory>
    ensures { IfOk result (Reads (λ payload. word_of payload ∷ []) IsPayload words.old) }
{
    let Some(payload) = bytes_in(alloc, words)? else {
        return Ok(None);
    };
    if payload.len() <= 256 {
        Ok(Some(payload))
    } else {
        Ok(None)
    }
}

/// Whether the set-up's module is in the crash model.
pub fn is_stopping(setup: &Setup) -> bool
    ensures { IsTrue result ↔ (setup.now.kind ≡ Kind.Stopping) }
{
    match setup.kind {
        Kind::Byzantine => false,
        Kind::Stopping => true,
    }
}

impl<'a> Ranges<'a> {
    // The number of cores of the cluster.
    // rule: Schedules: A faulty node has a second core, numbered after the nodes
    fn cores(&self) -> u32
        ensures { result ≡ cores_of self.now.setup.now }
    {
        self.setup.n + self.setup.faulty.as_slice().len() as u32
    }

    // The core in the last word.
    fn core_in(&self, words: &mut Words) -> Option<u32>
        ensures { Reads last_number (λ core. core < cores_of self.now.setup.now) words.old result }
    {
        last_number_in(words, 0, self.cores())
    }

    // The core and the node in the last two words.
    fn core_and_node_in(&self, words: &mut Words) -> Option<(u32, NodeId)>
        ensures some { IfSome result (λ pair. words.old ≡ decimal pair.0 ∷ decimal pair.1.0 ∷ []) }
        ensures range { IfSome result (λ pair.
            (pair.0 < cores_of self.now.setup.now) × (pair.1.0 < self.now.setup.now.n)) }
        ensures none { IfNone result ((core node : ℕ) → core < cores_of self.now.setup.now →
            node < self.now.setup.now.n → words.old ≢ decimal core ∷ decimal node ∷ []) }
    {
        let core = number_in(words, 0, self.cores())?;
        let node = last_number_in(words, 0, self.setup.n)?;
        Some((core, NodeId(node as u8)))
    }

    // The arguments of a proposal.
    fn propose_in(&self, words: &mut Words) -> Option<Event>
        ensures { Reads event_words (IsInRange self.now.setup.now) (text_of_name Name.Propose ∷ words.old) result }
    {
        let core = self.core_in(words)?;
        Some(Event::Propose { core })
    }

    // The arguments of a delivery.
    fn deliver_in(&self, words: &mut Words) -> Option<Event>
        ensures { Reads event_words (IsInRange self.now.setup.now) (text_of_name Name.Deliver ∷ words.old) result }
    {
        let packet = packet_in(words)?;
        Some(Event::Deliver { packet })
    }

    // The arguments of a loss.
    fn lose_in(&self, words: &mut Words) -> Option<Event>
        ensures { Reads event_words (IsInRange self.now.setup.now) (text_of_name Name.Lose ∷ words.old) result }
    {
        let packet = packet_in(words)?;
        Some(Event::Lose { packet })
    }

    // The arguments of a calm.
    fn calm_in(&self, words: &mut Words) -> Option<Event>
        ensures { Reads event_words (IsInRange self.now.setup.now) (text_of_name Name.Calm ∷ words.old) result }
    {
        let pumps = pumps_in(words)?;
        Some(Event::Calm { pumps })
    }

    // The arguments of a hold.
    fn hold_in(&self, words: &mut Words) -> Option<Event>
        ensures { Reads event_words (IsInRange self.now.setup.now) (text_of_name Name.Hold ∷ words.old) result }
    {
        let core = self.core_in(words)?;
        Some(Event::Hold { core })
    }

    // The arguments of a release.
    fn free_in(&self, words: &mut Words) -> Option<Event>
        ensures { Reads event_words (IsInRange self.now.setup.now) (text_of_name Name.Free ∷ words.old) result }
    {
        let core = self.core_in(words)?;
        Some(Event::Free { core })
    }

    // The arguments of a drop.
    fn drop_in(&self, words: &mut Words) -> Option<Event>
        ensures { Reads event_words (IsInRange self.now.setup.now) (text_of_name Name.Drop ∷ words.old) result }
    {
        let core = self.core_in(words)?;
        Some(Event::Drop { core })
    }

    // The arguments of a restart.
    fn restart_in(&self, words: &mut Words) -> Option<Event>
        ensures { Reads event_words (IsInRange self.now.setup.now) (text_of_name Name.Restart ∷ words.old) result }
    {
        let core = self.core_in(words)?;
        Some(Event::Restart { core })
    }

    // The arguments of a timeout.
    fn timeout_in(&self, words: &mut Words) -> Option<Event>
        ensures { Reads event_words (IsInRange self.now.setup.now) (text_of_name Name.Timeout ∷ words.old) result }
    {
        let (core, leader) = self.core_and_node_in(words)?;
        Some(Event::Timeout { core, leader })
    }

    // The arguments of an ask.
    // rule: Schedules: An ask names one of the cores and one of the nodes
    fn ask_in(&self, words: &mut Words) -> Option<Event>
        ensures { Reads event_words (IsInRange self.now.setup.now) (text_of_name Name.Ask ∷ words.old) result }
    {
        let (core, peer) = self.core_and_node_in(words)?;
        Some(Event::Ask { core, peer })
    }

    // The arguments of a crash.
    fn crash_in(&self, words: &mut Words) -> Option<Event>
        ensures { Reads event_words (IsInRange self.now.setup.now) (text_of_name Name.Crash ∷ words.old) result }
    {
        let core = number_in(words, 0, self.cores())?;
        let calls = calls_in(words)?;
        Some(Event::Crash { core, calls })
    }

    // The arguments of a request.
    fn request_in(&self, alloc: Global, words: &mut Words) -> Result<Option<Event>, NoMemory>
        ensures { IfOk result (Reads event_words (IsInRange self.now.setup.now)
            (text_of_name Name.Request ∷ words.old)) }
    {
        let Some(core) = number_in(words, 0, self.cores()) else {
            return Ok(None);
        };
        let Some(client) = number_in(words, 0, self.setup.clients) else {
            return Ok(None);
        };
        let Some(number) = number_in(words, 0, 1 << self.setup.keys) else {
            return Ok(None);
        };
        let Some(payload) = payload_in(alloc, words)? else {
            return Ok(None);
        };
        Ok(Some(Event::Request {
            core,
            client: client as u8,
            number,
            payload,
        }))
    }

    // The arguments of an injection of bytes.
    fn injection_in(&self, alloc: Global, words: &mut Words) -> Result<Option<Event>, NoMemory>
        ensures { IfOk result (Reads event_words (IsInRange self.now.setup.now)
            (text_of_name Name.Bytes ∷ words.old)) }
    {
        if is_stopping(self.setup) {
            return Ok(None);
        }
        let Some(core) = number_in(words, 0, self.cores()) else {
            return Ok(None);
        };
        let Some(bytes) = bytes_in(alloc, words)? else {
            return Ok(None);
        };
        Ok(Some(Event::Bytes { core, bytes }))
    }

    // The event with this name and these words as arguments.
    fn event_in(
        &self,
        alloc: Global,
        name: Name,
        words: &mut Words,
    ) -> Result<Option<Event>, NoMemory>
        ensures { IfOk result (Reads event_words (IsInRange self.now.setup.now)
            (text_of_name name ∷ words.old)) }
    {
        match name {
            Name::Request => self.request_in(alloc, words),
            Name::Propose => Ok(self.propose_in(words)),
            Name::Timeout => Ok(self.timeout_in(words)),
            Name::Ask => Ok(self.ask_in(words)),
            Name::Deliver => Ok(self.deliver_in(words)),
            Name::Lose => Ok(self.lose_in(words)),
            Name::Pump => Ok(words.is_done().then_some(Event::Pump)),
            Name::Calm => Ok(self.calm_in(words)),
            Name::Hold => Ok(self.hold_in(words)),
            Name::Free => Ok(self.free_in(words)),
            Name::Drop => Ok(self.drop_in(words)),
            Name::Restart => Ok(self.restart_in(words)),
            Name::Crash => Ok(self.crash_in(words)),
            Name::Bytes => self.injection_in(alloc, words),
        }
    }
}

/// The event that a line encodes, if it is in range.
pub fn event_of(alloc: Global, setup: &Setup, line: &[u8]) -> Result<Option<Event>, NoMemory>
    requires good { IsGoodSetup setup.now }
    ensures { IfOk result (Reads spell_event (IsInRange setup.now) line.now) }
{
    let mut words = Words::of(line);
    let Some(word) = words.next() else {
        return Ok(None);
    };
    let Some(name) = name_of(word) else {
        return Ok(None);
    };
    Ranges { setup }.event_in(alloc, name, &mut words)
}
