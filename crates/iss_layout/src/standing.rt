//! What the leader policies carry from epoch to epoch in place of the log.
ghost use Rattle.std.specs.Prelude.{◌≡◌, ◌<◌, ◌≤◌, ◌∷◌, ◌-◌, [], ℕ, suc, List, length, map, max, nat_le};
ghost use Rattle.std.specs.List.{All, filter};
ghost use Rattle.std.proofs.Props.{props};
ghost use Rattle.iss_request.specs.Setup.{IsGoodSetup};
ghost use Rattle.iss_request.specs.declared.setups.Setup.{Setup};
ghost use Rattle.iss_layout.specs.Layout.{Ended, IsSlotOf, IsStanding, carried, doubled, is_slot_of_leader, leads, past_all};
ghost use Rattle.iss_layout.specs.Internal.Standings.{behind, changed, shown};

use crate::layout::Layout;
use iss_request::{NodeId, Setup, Slot};
use std::marker::Model;

/// The most nodes of a good set-up: 3f+1 with f at most 3.
pub const MOST_NODES: usize = 10;

// What is known of a node: its weight, its ban (in epochs), and the greatest slot that became nil under it.
#[derive(Clone, Copy, Debug)]
pub(crate) struct Record {
    weight: u32,
    pub(crate) ban: u32,
    pub(crate) worst: Option<Slot>,
}

/// What the ended epochs show of each node. Contracts see it as the list of the nodes' conducts.
#[derive(Drop, Debug)]
pub struct Standing {
    nodes: [Record; MOST_NODES],
}

impl Model for Standing {
    ghost use Rattle.std.specs.Prelude.{◌≡◌, List, length, map};
    ghost use Rattle.iss_layout.specs.Layout.{Conduct};
    ghost use Rattle.iss_layout.specs.Internal.Standings.{shown};

    ghost Value = { List Conduct };

    ghost view = { λ s. map shown s.nodes };

    ghost invariant = { λ s. length s.nodes ≡ 10 };
}

impl Standing {
    /// Before the end of the first epoch nothing is known of any node.
    pub fn new() -> Standing
        ensures { (s : Setup) → IsStanding s [] result }
    {
        Standing {
            nodes: [Record {
                weight: 0,
                ban: 0,
                worst: None,
            }; MOST_NODES],
        }
    }

    /// Takes into account an epoch that has ended: its division, and its slots that became nil.
    pub fn advance(&mut self, setup: &Setup, layout: &Layout, nil_slots: &[Slot])
        requires good { IsGoodSetup setup.now }
        requires nil_slots { All (λ s. IsSlotOf layout.now s.0) nil_slots.now }
        ensures { (past : List Ended) → IsStanding setup.now past self.old →
            IsStanding setup.now (record { plan = layout.now; nils = nil_slots.now } ∷ past) self.new }
    {
        change_all(&mut self.nodes, setup.n, &Outcome { layout, nil_slots });
    }

    /// What is known of a node.
    pub(crate) fn known(&self, node: NodeId) -> Record
        requires { node.0 < 10 }
        ensures { shown result ≡ carried self.now node.0 }
    {
        self.nodes[node.0 as usize]
    }
}

/// Whether there is a slot `worst`, and it is not before `slot`.
pub(crate) fn is_past(worst: Option<Slot>, slot: Slot) -> bool
    ensures { result ≡ nat_le (suc slot.0) (behind worst) }
{
    match worst {
        None => false,
        Some(other) => slot.0 <= other.0,
    }
}

// The later of two slots, of which the first may be missing.
fn later(worst: Option<Slot>, slot: Slot) -> Option<Slot>
    ensures { behind result ≡ max (suc slot.0) (behind worst) }
{
    if is_past(worst, slot) {
        worst
    } else {
        Some(slot)
    }
}

// An epoch that has ended, and its slots that became nil.
#[derive(Drop)]
struct Outcome<'a> {
    layout: &'a Layout,
    nil_slots: &'a [Slot],
    ghost inside: { All (λ s. IsSlotOf layout.now s.0) nil_slots.now } by { Prim.hlevel props },
}

impl<'a> Outcome<'a> {
    // The greatest nil slot under the node.
    fn worst_under(&self, node: NodeId) -> Option<Slot>
        ensures { behind result ≡
            past_all (filter (is_slot_of_leader self.now.layout.now node.0) self.now.nil_slots.now) }
    {
        let mut worst = None;
        for slot in self.nil_slots {
            if self.layout.segment_of(*slot) == node {
                worst = later(worst, *slot);
            }
        }
        worst
    }
}

fn doubled(weight: u32) -> u32
    ensures { result ≡ doubled weight }
{
    if weight == 0 {
        1
    } else if weight < 32 {
        2 * weight
    } else {
        64
    }
}

// What is known of a node after an epoch. `worst` is the greatest slot that became nil under it there.
// rule: Layout: A leader with a nil slot is banned for its weight, which doubles up to 64; else it loses one
fn changed(known: Record, led: bool, worst: Option<Slot>) -> Record
    ensures { shown result ≡ changed (shown known) led (behind worst) }
{
    let kept = match worst {
        Some(slot) => later(known.worst, slot),
        None => known.worst,
    };
    if !led {
        return Record {
            weight: known.weight,
            ban: less(known.ban),
            worst: kept,
        };
    }
    if worst.is_none() {
        return Record {
            weight: less(known.weight),
            ban: 0,
            worst: kept,
        };
    }
    let weight = doubled(known.weight);
    Record {
        weight,
        ban: weight,
        worst: kept,
    }
}

fn less(count: u32) -> u32
    ensures { result ≡ count - 1 }
{
    if count == 0 { 0 } else { count - 1 }
}

// Takes into account how an epoch ended for each of the first `count` nodes.
fn change_all(nodes: &mut [Record; MOST_NODES], count: u32, ended: &Outcome)
    requires size { length nodes.old ≡ 10 }
    requires few { count ≤ 10 }
    ensures size { length nodes.new ≡ 10 }
    ensures changed { (i : ℕ) → i < count → carried (map shown nodes.new) i ≡
        changed (carried (map shown nodes.old) i) (leads ended.now.layout.now i)
        (past_all (filter (is_slot_of_leader ended.now.layout.now i) ended.now.nil_slots.now)) }
{
    for i in 0..count {
        let node = NodeId(i as u8);
        let led = ended.layout.leads(node);
        let worst = ended.worst_under(node);
        let known = nodes[i as usize];
        nodes[i as usize] = changed(known, led, worst);
    }
}
