// Which calls of a memory disk fail.
ghost use Rattle.std.specs.Prelude.{◌≡◌, is_ok, IsErr};
ghost use Rattle.iss_disk.specs.Calls.{HasCause, Runs};
ghost use Rattle.iss_disk.specs.Fates.{passes_of};

use crate::Failed;

/// Which of the next calls succeed.
#[derive(Debug, Drop)]
pub enum Fate {
    /// All.
    Sound,
    /// The first n; all later ones fail.
    Fused(u64),
    /// As listed; the first `made` outcomes are used up. After the list all succeed.
    Scripted { made: usize, outcomes: Vec<bool> },
}

impl Fate {
    // Makes one call: it succeeds, or counts as a fault.
    #[inline(always)]
    pub(crate) fn take(&mut self, faults: &mut u64) -> Result<(), Failed>
        ensures cause { HasCause faults.old faults.new (IsErr result) }
        ensures device { Runs 1 (passes_of self.old) (passes_of self.new) (is_ok result) }
    {
        if self.next() {
            return Ok(());
        }
        *faults = faults.saturating_add(1);
        Err(Failed)
    }

    // Whether the next call succeeds.
    #[inline(always)]
    fn next(&mut self) -> bool
        ensures { Runs 1 (passes_of self.old) (passes_of self.new) result }
    {
        match self {
            Fate::Sound => true,
            Fate::Fused(0) => false,
            Fate::Fused(calls) => {
                *calls -= 1;
                true
            }
            Fate::Scripted { made, outcomes } => match outcomes.get(*made) {
                Some(passes) => {
                    *made += 1;
                    *passes
                }
                None => true,
            },
        }
    }
}
