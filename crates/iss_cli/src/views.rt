//! What orders show of a schedule's run.
ghost use Rattle.std.specs.Prelude.{◌≡◌, IfOk};
ghost use Rattle.iss_cli.specs.Views.{IsShown, outcome_of, text_in};
ghost use Rattle.iss_model.specs.Courses.{Course};
ghost use Rattle.iss_replay.specs.Refines.{ReportRefinesRun, end_kept};
ghost use Rattle.iss_rules.specs.Setups.{IsSetupOf};
ghost use Rattle.iss_theorems.specs.Headline.{IsWhole, course_after};

use crate::answers::Answer;
use crate::checked::CheckedSchedule;
use crate::status::Outcome;
use iss_replay::{Report, replay, summary, text};
use iss_replies::replies;
use iss_request::{Bytes, NoMemory};
use iss_sb::Sequenced;
use iss_world::ends::Evidence;
use sb_chained::Chained;
use sb_hotstuff::HotStuff;
use sb_pbft::Pbft;
use sb_raft::Raft;
use sb_relay::Relay;
use std::alloc::Global;

/// What is shown of a run.
#[derive(Clone, Copy, Debug, PartialEq, Eq)]
pub enum View {
    /// Lost events, logs, and how the run ended.
    Full,
    /// How far each log is, the digest of the report, and how the run ended.
    Summary,
    /// The replies of correct nodes to the requests of their logs.
    Replied,
}

/// A view of a schedule's run under the module that it names. The headline holds for the run: prefix, integrity, no
/// loss and certified checkpoints, as `IsWhole` in `iss_theorems` defines them, over all crashes and recoveries (ISS,
/// whole protocol). There is no assumption on signatures or SHA-256: a run that violates one stops, and the view ends
/// with the evidence. The only error is out of memory.
pub fn show(alloc: Global, view: View, schedule: &CheckedSchedule) -> Result<Answer, NoMemory>
    ensures { IfOk result (IsShown view schedule.now) }
{
    match schedule.schedule().setup.module {
        1 => show_under::<Relay>(alloc, view, schedule),
        2 => show_under::<Raft>(alloc, view, schedule),
        3 => show_under::<Pbft>(alloc, view, schedule),
        4 => show_under::<HotStuff>(alloc, view, schedule),
        5 => show_under::<Chained>(alloc, view, schedule),
        _ => unreachable!(),
    }
}

// A view of a schedule's run under this module.
fn show_under<M: Sequenced>(
    alloc: Global,
    view: View,
    schedule: &CheckedSchedule,
) -> Result<Answer, NoMemory>
    requires { IsSetupOf M.spec schedule.now.setup }
    ensures printed { IfOk result (λ a. a.printed ≡ text_in view schedule.now.setup M.spec
        (course_after schedule.now.setup M.spec schedule.now.events)) }
    ensures outcome { IfOk result (λ a. a.outcome ≡
        outcome_of (course_after schedule.now.setup M.spec schedule.now.events).ended) }
    ensures whole { IsWhole schedule.now.setup M.spec schedule.now.events }
{
    let report = replay::<M>(alloc, schedule.schedule())?;
    Ok(Answer {
        printed: write_view(alloc, view, &report)?,
        outcome: outcome_of(&report.ended),
    })
}

// What is shown of a run.
fn write_view<M: Sequenced>(
    alloc: Global,
    view: View,
    report: &Report<M>,
) -> Result<Bytes, NoMemory>
    ensures { IfOk result (λ bytes. (p : Course M.Msg) →
        ReportRefinesRun M.spec M.refines report.now.world report.now.drops report.now.ended p →
        bytes ≡ text_in view report.now.world.simulation.setup M.spec p) }
{
    match view {
        View::Full => text(alloc, report),
        View::Summary => summary(alloc, report),
        View::Replied => replies(alloc, report),
    }
}

/// The outcome of a run.
// rule: Program: A run that ends with evidence exits with 6 or 7, and reports the logs before it
pub fn outcome_of(ended: &Option<(u64, Evidence)>) -> Outcome
    ensures { result ≡ outcome_of (end_kept ended.now) }
{
    match ended {
        None => Outcome::Done,
        Some((_, Evidence::Forged(_))) => Outcome::Forged,
        Some((_, Evidence::Collision { .. })) => Outcome::Collision,
    }
}
