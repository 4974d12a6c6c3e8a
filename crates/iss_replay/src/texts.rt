//! The text of a report.
ghost use Rattle.std.specs.Prelude.{◌≡◌, ◌<◌, ◌++◌, IfOk, List, OnOk, reverse};
ghost use Rattle.iss_model.specs.Courses.{Course};
ghost use Rattle.iss_theorems.specs.Headline.{course_after};
ghost use Rattle.iss_rules.specs.Setups.{IsSetupOf};
ghost use Rattle.iss_replay.specs.Report.{IsReport, block_of, drop_lines, node_blocks, text_of};
ghost use Rattle.iss_replay.specs.Refines.{ReportRefinesRun, end_kept};
ghost use Rattle.iss_replay.specs.Text.{end_line};
ghost use Rattle.iss_schedule.specs.Events.{AreInRange};
ghost use Rattle.iss_schedule.specs.declared.schedules.Event.{Event};
ghost use Rattle.iss_world.specs.Refines.{RefinesRun};

use crate::lines::{put_collision, put_drop, put_forged, put_node, put_ok};
use crate::replays::Report;
use iss_request::{Bytes, NoMemory, NodeId};
use iss_rules::Why;
use iss_sb::Sequenced;
use iss_theorems::restarts_change_nothing;
use iss_world::World;
use iss_world::claims::is_correct;
use iss_world::ends::Evidence;
use std::alloc::Global;

/// The text of a report: a line for each lost event, the block of each correct node, and the last line. If the report
/// is that of a schedule, the headline holds for its run (`reports`, see `IsReport`). The only error is out of memory.
pub fn text<M: Sequenced>(alloc: Global, report: &Report<M>) -> Result<Bytes, NoMemory>
    ensures tells { IfOk result
        (λ bytes. (p : Course M.Msg) →
        ReportRefinesRun M.spec M.refines report.now.world report.now.drops report.now.ended p →
        bytes ≡ text_of report.now.world.simulation.setup M.spec p) }
    ensures reports { IfOk result (λ bytes. IsSetupOf M.spec report.now.world.simulation.setup →
        (events : List Event) → AreInRange report.now.world.simulation.setup events →
        ReportRefinesRun M.spec M.refines report.now.world report.now.drops report.now.ended
        (course_after report.now.world.simulation.setup M.spec events) →
        IsReport report.now.world.simulation.setup M.spec events bytes) }
{
    restarts_change_nothing::<M>();
    write(alloc, report)
}

// Writes the text of a report.
fn write<M: Sequenced>(alloc: Global, report: &Report<M>) -> Result<Bytes, NoMemory>
    ensures { IfOk result (λ bytes. (p : Course M.Msg) →
        ReportRefinesRun M.spec M.refines report.now.world report.now.drops report.now.ended p →
        bytes ≡ text_of report.now.world.simulation.setup M.spec p) }
{
    let mut out = Vec::new(alloc);
    put_drops(&mut out, report.drops.as_slice())?;
    put_nodes(&mut out, &report.world)?;
    put_end(alloc, &mut out, &report.ended)?;
    Ok(Bytes::of(out))
}

// Writes a line for each lost event.
fn put_drops(out: &mut Vec<u8>, drops: &[(u64, Why)]) -> Result<(), NoMemory>
    ensures { OnOk result (out.new.items ≡ out.old.items ++ drop_lines (reverse drops.now)) }
{
    for drop in drops {
        put_drop(out, drop.0, drop.1)?;
    }
    Ok(())
}

// Writes the block of each correct node, ascending.
fn put_nodes<M: Sequenced>(out: &mut Vec<u8>, world: &World<M>) -> Result<(), NoMemory>
    ensures { OnOk result ((p : Course M.Msg) → RefinesRun M.spec M.refines world.now p →
        out.new.items ≡ out.old.items
        ++ node_blocks world.now.simulation.setup M.spec p.state.held.net world.now.simulation.setup.n) }
{
    let nodes = world.setup().n;
    for node in 0..nodes {
        put_block(out, world, node)?;
    }
    Ok(())
}

// Writes the block of a node if it is correct.
// rule: Reports: A faulty node has no block
fn put_block<M: Sequenced>(out: &mut Vec<u8>, world: &World<M>, node: u32) -> Result<(), NoMemory>
    requires { node < world.now.simulation.setup.n }
    ensures { OnOk result ((p : Course M.Msg) → RefinesRun M.spec M.refines world.now p →
        out.new.items ≡ out.old.items ++ block_of world.now.simulation.setup M.spec p.state.held.net node) }
{
    if !is_correct(world.setup(), node) {
        return Ok(());
    }
    put_node(out, NodeId(node as u8), world.epoch(node), world.log(node))
}

/// Writes the last line. The only error is out of memory.
pub fn put_end(
    alloc: Global,
    out: &mut Vec<u8>,
    ended: &Option<(u64, Evidence)>,
) -> Result<(), NoMemory>
    ensures { OnOk result (out.new.items ≡ out.old.items ++ end_line (end_kept ended.now)) }
{
    match ended {
        None => put_ok(out),
        Some((event, Evidence::Forged(claim))) => put_forged(alloc, out, *event, claim),
        Some((event, Evidence::Collision { first, second })) => {
            put_collision(alloc, out, *event, first.as_slice(), second.as_slice())
        }
    }
}
