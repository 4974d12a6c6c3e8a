//! The turns of a leader: the proposals that it made.
ghost use Rattle.std.specs.Prelude.{◌≡◌, ◌∷◌, List, [], OnOk};
ghost use Rattle.hs_views.specs.Views.{Turn, is_own_turn};
ghost use Rattle.hs_views.specs.Turns.{AreTurns, last_of, own_of};

use hs_tree::Poll;
use iss_request::NoMemory;
use std::alloc::Global;
use std::collections::BTreeSet;

/// The key of a turn: its view, and the digest of the node proposed in it.
#[derive(PartialEq, Eq, PartialOrd, Ord, Drop)]
pub struct Own {
    pub view: u32,
    pub digest: [u8; 32],
}

/// The last turn, and how many slots the branch of its node fills.
#[derive(Clone, Copy)]
pub struct Last {
    pub view: u32,
    pub digest: [u8; 32],
    pub slots: usize,
}

impl Last {
    /// The votes of this phase for the turn's node.
    pub fn poll(&self, phase: u8) -> Poll
        ensures { result ≡ record { phase = phase; view = self.now.view; digest = self.now.digest } }
    {
        Poll {
            phase,
            view: self.view,
            digest: self.digest,
        }
    }
}

/// All turns of a leader.
#[derive(Drop)]
pub struct Turns {
    all: BTreeSet<Own>,
    last: Option<Last>,
}

impl Turns {
    /// No turns.
    pub fn new(alloc: Global) -> Turns
        ensures { AreTurns result [] }
    {
        Turns {
            all: BTreeSet::new(alloc),
            last: None,
        }
    }

    /// Whether this digest was proposed in this view.
    pub fn has(&self, view: u32, digest: &[u8; 32]) -> bool
        ensures { (ts : List Turn) → AreTurns self.now ts → result ≡ is_own_turn ts view digest.now }
    {
        let own = Own {
            view,
            digest: *digest,
        };
        self.all.contains(&own)
    }

    /// The newest turn.
    pub fn last(&self) -> Option<Last>
        ensures { (ts : List Turn) → AreTurns self.now ts → result ≡ last_of ts }
    {
        self.last
    }

    /// Adds a turn, which becomes the newest. The only error is out of memory.
    pub fn add(&mut self, turn: Last) -> Result<(), NoMemory>
        ensures { OnOk result ((t : Turn) (ts : List Turn) → own_of t ≡ turn → AreTurns self.old ts →
            AreTurns self.new (t ∷ ts)) }
    {
        let digest = turn.digest;
        let own = Own {
            view: turn.view,
            digest,
        };
        self.all.insert(own)?;
        self.last = Some(turn);
        Ok(())
    }
}
