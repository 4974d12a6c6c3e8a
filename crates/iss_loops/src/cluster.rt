// What a loop sees of a cluster.
ghost use Rattle.std.specs.Prelude.{◌≡◌, ◌<◌, ◌++◌, ◌∷◌, [], false, Bool, List, IfOk, OnOk};
ghost use Rattle.iss_loops.specs.Behavior.{AreNodes, Behavior, HaveEnds, StaysFresh, is_over};
ghost use Rattle.iss_loops.specs.Loop.{number_from};
ghost use Rattle.iss_loops.specs.Traces.{IsNext, is_within_limits};
ghost use Rattle.iss_request.specs.Setup.{IsGoodSetup};
ghost use Rattle.iss_schedule.specs.declared.schedules.Event.{Event as ScheduleEvent};

use iss_network::Sent;
use iss_request::{NoMemory, NodeId, Seq, Setup};
use iss_schedule::Event;

/// A cluster to which events happen, and the trace of these events. Once it ran out of memory it must not be used.
pub trait TracedCluster {
    /// What it does, as functions of the events that happened to it.
    ghost behavior: { Self → Behavior };

    /// The events that happened to it, oldest first.
    ghost events: { Self → List ScheduleEvent };

    /// It ran out of memory.
    ghost stale: { Self → Bool };

    /// Its set-up.
    fn setup(&self) -> &Setup
        ensures same { result.now ≡ (behavior self.now).setup }
        ensures good { IsGoodSetup result.now };

    /// Whether the trace stays within its limits with this event.
    fn fits(&self, event: &Event) -> bool
        ensures { result ≡ is_within_limits (behavior self.now).setup (events self.now ++ event.now ∷ []) };

    /// The event happens.
    fn event(&mut self, event: Event) -> Result<(), NoMemory>
        requires fresh { stale self.old ≡ false }
        requires next { IsNext (behavior self.old) (events self.old) event }
        ensures happened { OnOk result (events self.new ≡ events self.old ++ event ∷ []) }
        ensures kept { OnOk result (StaysFresh (behavior self.old) (behavior self.new) (stale self.new)) };

    /// Whether nothing more may happen to it: an event showed evidence, a forged claim or a collision, or memory ran
    /// out.
    fn is_over(&self) -> bool
        ensures { result ≡ is_over (behavior self.now) (events self.now) (stale self.now) };

    /// Whether a core leads its epoch and has a free slot to propose at.
    fn castable(&self, core: u32) -> bool
        requires going { is_over (behavior self.now) (events self.now) (stale self.now) ≡ false }
        requires core { core < (behavior self.now).setup.n }
        ensures { result ≡ (behavior self.now).castable (events self.now) core };

    /// The leaders whose segments a core has not filled, ascending.
    fn unfilled(&self, core: u32) -> Result<Seq<NodeId>, NoMemory>
        requires going { is_over (behavior self.now) (events self.now) (stale self.now) ≡ false }
        requires core { core < (behavior self.now).setup.n }
        ensures leaders { IfOk result (λ leaders. leaders ≡ (behavior self.now).unfilled (events self.now) core) }
        ensures nodes { IfOk result (λ leaders. AreNodes (behavior self.now).setup.n leaders) };

    /// The packets that were sent, by number.
    fn packets(&self) -> &[Sent]
        ensures sent { stale self.now ≡ false → result.now ≡ (behavior self.now).packets (events self.now) }
        ensures ends { HaveEnds result.now };

    /// The number of the first packet that was sent to a core with these bytes.
    fn number_of(&self, core: u32, packet: &[u8]) -> Option<u64>
        ensures { stale self.now ≡ false →
            result ≡ number_from 0 core packet.now ((behavior self.now).packets (events self.now)) };
}
