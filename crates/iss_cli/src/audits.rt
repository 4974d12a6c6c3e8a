//! The log that a core exports after a schedule's run, and the audit of such a text.
ghost use Rattle.std.specs.Prelude.{◌≡◌, ◌<◌, ℕ, IfOk, List};
ghost use Rattle.iss_audit.specs.Exports.{IsCertifiedText};
ghost use Rattle.iss_audit.specs.declared.exports.Export.{Export as ModelExport};
ghost use Rattle.iss_cli.specs.Answers.{IsAudited, IsOfSchedule};
ghost use Rattle.iss_cli.specs.Auditing.{AreOfRuns, IsExportedUnder, IsOfCore, certified_answer, fault_word, refused_epoch};
ghost use Rattle.iss_cli.specs.Views.{Under, outcome_of};
ghost use Rattle.iss_export.specs.Exporting.{IsExported};
ghost use Rattle.iss_rules.specs.Setups.{IsSetupOf};
ghost use Rattle.iss_theorems.specs.Headline.{IsWhole, course_after};

use crate::answers::{Answer, refuse_line};
use crate::checked::CheckedSchedule;
use crate::running::refuse_configuration;
use crate::status::Outcome;
use crate::views::outcome_of;
use iss_audit::{AuditError, EpochFault, Export, check_text, quorums_signed_each_epoch};
use iss_certified::certified_logs_are_of_the_run;
use iss_export::{certified, export};
use iss_replay::replay;
use iss_replay::words::{put_number, put_text};
use iss_request::{Bytes, NoMemory};
use iss_sb::Sequenced;
use iss_schedule::{ReadError, read};
use sb_chained::Chained;
use sb_hotstuff::HotStuff;
use sb_pbft::Pbft;
use sb_raft::Raft;
use sb_relay::Relay;
use std::alloc::Global;

/// The answer to an input that must be a schedule: what a core of its cluster exports after its run, or the first bad
/// line. The only error is out of memory.
pub fn export_core(alloc: Global, core: u32, input: &[u8]) -> Result<Answer, NoMemory>
    ensures { IfOk result (IsOfSchedule (IsOfCore core) input.now) }
{
    match read(alloc, input) {
        Ok(schedule) => export_of(alloc, core, &CheckedSchedule::of(schedule)),
        Err(ReadError::BadLine { line, why }) => refuse_line(alloc, line, why),
        Err(ReadError::NoMemory) => Err(NoMemory),
    }
}

// What a core exports after the run of a schedule, if there is a node with its number.
// rule: Program: What is no configuration, or has no such node, exits with 11
fn export_of(alloc: Global, core: u32, schedule: &CheckedSchedule) -> Result<Answer, NoMemory>
    ensures { IfOk result (IsOfCore core schedule.now) }
{
    if core >= schedule.schedule().setup.n {
        return refuse_configuration(alloc);
    }
    export_by_module(alloc, core, schedule)
}

// What a core exports after the run of a schedule under the module that it names.
fn export_by_module(
    alloc: Global,
    core: u32,
    schedule: &CheckedSchedule,
) -> Result<Answer, NoMemory>
    requires { core < schedule.now.setup.n }
    ensures { IfOk result (λ a. Under schedule.now.setup.module (IsExportedUnder core schedule.now a)) }
{
    match schedule.schedule().setup.module {
        1 => export_under::<Relay>(alloc, core, schedule),
        2 => export_under::<Raft>(alloc, core, schedule),
        3 => export_under::<Pbft>(alloc, core, schedule),
        4 => export_under::<HotStuff>(alloc, core, schedule),
        5 => export_under::<Chained>(alloc, core, schedule),
        _ => unreachable!(),
    }
}

// What a core exports after the run of a schedule under this module.
fn export_under<M: Sequenced>(
    alloc: Global,
    core: u32,
    schedule: &CheckedSchedule,
) -> Result<Answer, NoMemory>
    requires good { IsSetupOf M.spec schedule.now.setup }
    requires core { core < schedule.now.setup.n }
    ensures printed { IfOk result
        (λ a. IsExported schedule.now.setup M.spec schedule.now.events core a.printed) }
    ensures outcome { IfOk result (λ a. a.outcome ≡
        outcome_of (course_after schedule.now.setup M.spec schedule.now.events).ended) }
    ensures whole { IsWhole schedule.now.setup M.spec schedule.now.events }
{
    let schedule = schedule.schedule();
    let report = replay::<M>(alloc, schedule)?;
    Ok(Answer {
        printed: export(alloc, schedule, &report, core)?,
        outcome: outcome_of(&report.ended),
    })
}

/// What an auditor may conclude of a certified log, for every module that a schedule can name.
pub fn certified_logs_are_of_runs()
    ensures { (bytes : List ℕ) (x : ModelExport) → IsCertifiedText bytes x → AreOfRuns x }
{
    certified_logs_are_of_the_run::<Relay>();
    certified_logs_are_of_the_run::<Raft>();
    certified_logs_are_of_the_run::<Pbft>();
    certified_logs_are_of_the_run::<HotStuff>();
    certified_logs_are_of_the_run::<Chained>();
}

/// The answer to an input that must be the text of an exported log: the log, if it is certified; otherwise the first
/// bad line, or the first bad epoch. A certified log is signed by quorums. It is a log of each run with its header,
/// for an auditor who trusts f + 1 nodes. The only error is out of memory.
pub fn audit(alloc: Global, input: &[u8]) -> Result<Answer, NoMemory>
    ensures { IfOk result (IsAudited input.now) }
{
    quorums_signed_each_epoch();
    certified_logs_are_of_runs();
    match check_text(alloc, input) {
        Ok(export) => certify(alloc, &export),
        Err(AuditError::BadLine { line, why }) => refuse_line(alloc, line, why),
        Err(AuditError::BadEpoch { epoch, why }) => refuse_epoch(alloc, epoch.0, why),
        Err(AuditError::NoMemory) => Err(NoMemory),
    }
}

// The answer to a certified log.
fn certify(alloc: Global, export: &Export) -> Result<Answer, NoMemory>
    ensures { IfOk result (λ a. a ≡ certified_answer export.now) }
{
    Ok(Answer {
        printed: certified(alloc, export)?,
        outcome: Outcome::Done,
    })
}

// The answer to an exported log of which this epoch is the first that is not certified.
// rule: Program: An exported log that is not certified exits with 12
fn refuse_epoch(alloc: Global, epoch: u64, why: EpochFault) -> Result<Answer, NoMemory>
    ensures { IfOk result (λ a. a ≡ refused_epoch epoch why) }
{
    let mut printed = Vec::new(alloc);
    put_text(&mut printed, b"refused epoch ")?;
    put_number(&mut printed, epoch)?;
    put_text(&mut printed, b" ")?;
    put_text(&mut printed, name_of(why))?;
    put_text(&mut printed, b"\n")?;
    Ok(Answer {
        printed: Bytes::of(printed),
        outcome: Outcome::Uncertified,
    })
}

fn name_of(why: EpochFault) -> &'static [u8]
    ensures { result.now ≡ fault_word why }
{
    match why {
        EpochFault::BadCert => b"BadCert",
        EpochFault::WrongChain => b"WrongChain",
    }
}
