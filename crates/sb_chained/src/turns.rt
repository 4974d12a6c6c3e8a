//! The turns of a leader, and where in each round a branch was full first.
ghost use Rattle.std.specs.Prelude.{◌≡◌, ◌∷◌, List, [], OnOk};
ghost use Rattle.iss_sb.specs.declared.effects.Params.{Params};
ghost use Rattle.sb_chained.specs.Rules.{full_turn, is_full};
ghost use Rattle.hs_views.specs.Views.{Turn, is_own_turn, round_of};
ghost use Rattle.hs_views.specs.Turns.{last_of, own_of};
ghost use Rattle.sb_chained.specs.Tallies.{AreTurns, Fills};

use hs_views::Last;
use iss_request::NoMemory;
use std::alloc::Global;
use std::collections::BTreeMap;

/// The turns of a leader, and for each round the view of the first one whose branch is full.
#[derive(Drop)]
pub struct Turns {
    made: hs_views::Turns,
    full: BTreeMap<u16, u32>,
}

impl Turns {
    /// No turns.
    pub fn new(alloc: Global) -> Turns
        ensures { (p : Params) → AreTurns p result [] }
    {
        Turns {
            made: hs_views::Turns::new(alloc),
            full: BTreeMap::new(alloc),
        }
    }

    /// Whether this digest was proposed in this view.
    pub fn has(&self, view: u32, digest: &[u8; 32]) -> bool
        ensures { (p : Params) (ts : List Turn) → AreTurns p self.now ts → result ≡ is_own_turn ts view digest.now }
    {
        self.made.has(view, digest)
    }

    /// The newest turn.
    pub fn last(&self) -> Option<Last>
        ensures { (p : Params) (ts : List Turn) → AreTurns p self.now ts → result ≡ last_of ts }
    {
        self.made.last()
    }

    /// The view of the round's first turn whose branch is full.
    pub fn full(&self, round: u16) -> Option<u32>
        ensures { (p : Params) (ts : List Turn) → AreTurns p self.now ts → result ≡ full_turn p ts round }
    {
        match self.full.get(&round) {
            Some(view) => Some(*view),
            None => None,
        }
    }

    // Records the view for its round, if its branch is full and none was recorded before. The only error is out of
    // memory.
    fn fill(&mut self, round: u16, view: u32, full: bool) -> Result<(), NoMemory>
        ensures { OnOk result (Fills self.old self.new round view full) }
    {
        if !full {
            return Ok(());
        }
        if self.full.contains_key(&round) {
            return Ok(());
        }
        self.full.insert(round, view)?;
        Ok(())
    }

    /// Adds a turn, which becomes the newest. The only error is out of memory.
    pub fn add(&mut self, turn: Last, round: u16, full: bool) -> Result<(), NoMemory>
        ensures { OnOk result ((p : Params) (t : Turn) (ts : List Turn) → own_of t ≡ turn →
            round ≡ round_of t.view → full ≡ is_full p t.slots → AreTurns p self.old ts →
            AreTurns p self.new (t ∷ ts)) }
    {
        self.fill(round, turn.view, full)?;
        self.made.add(turn)?;
        Ok(())
    }
}
