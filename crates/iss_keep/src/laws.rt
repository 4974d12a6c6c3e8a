//! What holds for a node over all crashes and restarts. Each law is a call without a body; the caller gets its
//! `ensures`.
ghost use Rattle.std.specs.Prelude.{◌≡◌, ◌++◌, ℕ, List, reverse};
ghost use Rattle.iss_base.specs.Lists.{Extends};
ghost use Rattle.iss_keep.specs.Cores.{stored_of};
ghost use Rattle.iss_keep.specs.Internal.Makings.{AreApart, makings_from, makings_of};
ghost use Rattle.iss_keep.specs.Recovery.{AddsDeed, OfEachHistory, RecoversAll, RecoversOneOfTwo, deeds_of};
ghost use Rattle.iss_model.specs.Courses.{core_of as core_after};
ghost use Rattle.iss_model.specs.Frames.{frame_of};
ghost use Rattle.iss_rules.specs.Concrete.{rules_of};
ghost use Rattle.iss_rules.specs.Formats.{formats_of};
ghost use Rattle.iss_rules.specs.Setups.{IsSetupOf};
ghost use Rattle.iss_theorems.specs.Leaves.{SignsOnceEach, core_behind};
ghost use Rattle.iss_rules.specs.declared.events.NodeEvent.{NodeEvent};
ghost use Rattle.iss_request.specs.declared.setups.Setup.{Setup};

use iss_journal::a_file_has_one_reading;
use iss_rebuilt::journals_recover;
use iss_sb::Sequenced;
use iss_theorems::leaves_sign_once;

/// What a replica stored leads back to it, though the journal shows of it only what stays.
pub fn a_journal_recovers<M: Sequenced>()
    ensures { OfEachHistory M.spec (RecoversAll M.spec) }
{
    journals_recover::<M>();
}

/// A crash while the last event of a history is journaled recovers the core from before the event or the core after
/// it. The crash image is any that `Kept::take` allows (`Writes`); `reopen` reads the entries in it.
pub fn a_crash_leaves_one_of_two<M: Sequenced>()
    ensures { OfEachHistory M.spec (RecoversOneOfTwo M.spec) }
{
    a_file_has_one_reading();
    journals_recover::<M>();
}

/// Later events never change what earlier ones produced (`again`). No leaf is used by two events, over all restarts
/// (`apart`).
pub fn leaves_are_of_one_entry<M: Sequenced>()
    ensures again { (s : Setup) (me : ℕ) (events more : List NodeEvent) →
        makings_of s M.spec me (events ++ more) ≡ makings_of s M.spec me events
        ++ makings_from s M.spec me more (core_after (formats_of s M.spec) (rules_of s) M.spec me (reverse events)) }
    ensures apart { (s : Setup) (me : ℕ) (events : List NodeEvent) → AreApart 0 (makings_of s M.spec me events) }
{}

/// No leaf signs two statements, over all crashes and restarts.
///
/// `signs`: each used leaf has one statement. Every signature of the node by that leaf is over that statement, or was
/// received from elsewhere. `core`: the life that events give ends in the core that stored them. `taken`: an accepted
/// event is the next deed. `again`: later events do not change earlier deeds.
// rule: Signatures: A node signs at most one statement with each leaf
pub fn leaves_are_of_one_statement<M: Sequenced>()
    ensures signs { (s : Setup) → IsSetupOf M.spec s → (me : ℕ) (events : List NodeEvent) →
        SignsOnceEach (frame_of s M.spec) me (deeds_of s M.spec me events) }
    ensures core { (s : Setup) (me : ℕ) (events : List NodeEvent) →
        core_behind (deeds_of s M.spec me events) ≡ (stored_of s M.spec me events).core }
    ensures taken { (s : Setup) (me : ℕ) (events : List NodeEvent) → AddsDeed s M.spec me events }
    ensures again { (s : Setup) (me : ℕ) (events more : List NodeEvent) →
        Extends (deeds_of s M.spec me events) (deeds_of s M.spec me (more ++ events)) }
{
    leaves_sign_once::<M>();
}
