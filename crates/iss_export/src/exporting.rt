//! The text that a core exports after a run.
ghost use Rattle.std.specs.Prelude.{◌≡◌, ◌<◌, ◌≤◌, ℕ, IfOk, OnOk, Option, false, length, take, drop};
ghost use Rattle.iss_export.specs.Exporting.{HasExported, HasPut, IsExported, IsWritten};
ghost use Rattle.iss_keep.specs.State.{KeptRefinesCore};
ghost use Rattle.iss_model.specs.Courses.{Course};
ghost use Rattle.iss_model.specs.Node.{Core};
ghost use Rattle.iss_replay.specs.Refines.{ReportRefinesRun};
ghost use Rattle.iss_rules.specs.Setups.{IsSetupOf};
ghost use Rattle.iss_certified.specs.Exported.{certs_shown};
ghost use Rattle.iss_schedule.specs.Events.{AreInRange};
ghost use Rattle.iss_schedule.specs.Schedules.{IsKnown};
ghost use Rattle.iss_theorems.specs.Headline.{course_after};
ghost use Rattle.iss_theorems.specs.Readers.{reader_after};
ghost use Rattle.iss_world.specs.Refines.{AreStale};

use iss_audit::{put_epoch, put_last};
use iss_certified::exports_are_certified;
use iss_disk::MemoryDisk;
use iss_keep::Kept;
use iss_replay::Report;
use iss_request::{Bytes, Epoch, NoMemory, Setup, Value};
use iss_sb::Sequenced;
use iss_schedule::{Schedule, put_header};
use std::alloc::Global;

/// The text that a core exports after the run of a schedule: the epochs of its log with the certificates that it keeps,
/// up to the first without one. What a correct node exports is certified, if it is short enough to be audited. The only
/// error is out of memory.
// rule: Audit: A core exports its epochs up to the first without a certificate or with an empty slot
pub fn export<M: Sequenced>(
    alloc: Global,
    schedule: &Schedule,
    report: &Report<M>,
    core: u32,
) -> Result<Bytes, NoMemory>
    requires good { IsSetupOf M.spec schedule.now.setup }
    requires known { IsKnown schedule.now.setup }
    requires range { AreInRange schedule.now.setup schedule.now.events }
    requires same { report.now.world.simulation.setup ≡ schedule.now.setup }
    requires core { core < schedule.now.setup.n }
    ensures { IfOk result (λ bytes. ReportRefinesRun M.spec M.refines report.now.world report.now.drops report.now.ended
        (course_after schedule.now.setup M.spec schedule.now.events) →
        AreStale report.now.world (course_after schedule.now.setup M.spec schedule.now.events).state
        (reader_after schedule.now.setup M.spec schedule.now.events) →
        IsExported schedule.now.setup M.spec schedule.now.events core bytes) }
{
    exports_are_certified::<M>();
    write(alloc, &schedule.setup, report, core)
}

// Writes the text that a core exports.
fn write<M: Sequenced>(
    alloc: Global,
    setup: &Setup,
    report: &Report<M>,
    core: u32,
) -> Result<Bytes, NoMemory>
    requires same { report.now.world.simulation.setup ≡ setup.now }
    requires core { core < setup.now.n }
    ensures { IfOk result (λ bytes. (p : Course M.Msg) (reader : Option ℕ) →
        ReportRefinesRun M.spec M.refines report.now.world report.now.drops report.now.ended p →
        AreStale report.now.world p.state reader → IsWritten setup.now M.spec p.state reader core bytes) }
{
    let mut out = Vec::new(alloc);
    put_header(&mut out, setup)?;
    put_epochs(alloc, &mut out, report, core)?;
    put_last(&mut out)?;
    Ok(Bytes::of(out))
}

// Writes the epochs that a core exports: none if it is silent.
fn put_epochs<M: Sequenced>(
    alloc: Global,
    out: &mut Vec<u8>,
    report: &Report<M>,
    core: u32,
) -> Result<(), NoMemory>
    requires { core < report.now.world.simulation.setup.n }
    ensures { OnOk result ((p : Course M.Msg) (reader : Option ℕ) →
        ReportRefinesRun M.spec M.refines report.now.world report.now.drops report.now.ended p →
        AreStale report.now.world p.state reader → HasExported report.now.world.simulation.setup M.spec p.state
        reader core out.old.items out.new.items) }
{
    let world = &report.world;
    let node = world.node(core);
    if is_silent(node) {
        return Ok(());
    }
    put_kept(alloc, out, world.setup(), node, world.entries(core))
}

// Whether a core exports no epoch: its disk has failed, or it read the evidence that ended the run.
// rule: Audit: A core exports nothing after its disk failed, or if evidence was found in what it took
fn is_silent<M: Sequenced>(node: &Kept<M, MemoryDisk>) -> bool
    ensures { result ≡ node.now.stale }
{
    node.stale()
}

// Writes the epochs of this log for which the node keeps a certificate, up to the first for which it keeps none.
fn put_kept<M: Sequenced>(
    alloc: Global,
    out: &mut Vec<u8>,
    setup: &Setup,
    node: &Kept<M, MemoryDisk>,
    log: &[Value],
) -> Result<(), NoMemory>
    requires { 0 < setup.now.epoch }
    ensures { OnOk result ((c : Core M.Msg) → KeptRefinesCore M.spec M.refines node.now c →
        HasPut setup.now (certs_shown c false) log.now out.old.items out.new.items) }
{
    let slots = setup.epoch as usize;
    let mut rest = log;
    let mut number = 0;
    'epochs: while rest.len() >= slots {
        let Some(cert) = node.cert_at(Epoch(number)) else {
            return Ok(());
        };
        put_epoch(alloc, out, setup.version, before(rest, slots), cert)?;
        rest = behind(rest, slots);
        number += 1;
    }
    Ok(())
}

// The first `count` values.
fn before(values: &[Value], count: usize) -> &[Value]
    requires { count ≤ length values.now }
    ensures { result.now ≡ take count values.now }
{
    &values[..count]
}

// The values after the first `count`.
fn behind(values: &[Value], count: usize) -> &[Value]
    requires { count ≤ length values.now }
    ensures { result.now ≡ drop count values.now }
{
    &values[count..]
}
