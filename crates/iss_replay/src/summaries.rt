//! The summary of a report. The only error is out of memory.
ghost use Rattle.std.specs.Prelude.{◌≡◌, ◌<◌, ◌++◌, IfOk, OnOk, reverse};
ghost use Rattle.iss_model.specs.Courses.{Course};
ghost use Rattle.iss_replay.specs.Refines.{ReportRefinesRun};
ghost use Rattle.iss_replay.specs.Text.{digest_line, first_line};
ghost use Rattle.iss_replay.specs.Summary.{line_of, node_lines, summary_of};
ghost use Rattle.iss_world.specs.Refines.{RefinesRun};

use crate::lines::put_node_line;
use crate::replays::Report;
use crate::texts::{put_end, text};
use crate::words::{put_bytes, put_text};
use iss_log::Log;
use iss_request::{Bytes, Epoch, NoMemory, NodeId};
use iss_sb::Sequenced;
use iss_world::World;
use iss_world::claims::is_correct;
use sha2::{Digest, Sha256};
use std::alloc::Global;

/// The summary of a report: how far each correct node's log is, the digest of the report's text, and how the run ended.
pub fn summary<M: Sequenced>(alloc: Global, report: &Report<M>) -> Result<Bytes, NoMemory>
    ensures { IfOk result
        (λ bytes. (p : Course M.Msg) →
        ReportRefinesRun M.spec M.refines report.now.world report.now.drops report.now.ended p →
        bytes ≡ summary_of report.now.world.simulation.setup M.spec p) }
{
    let whole = text(alloc, report)?;
    let mut out = Vec::new(alloc);
    put_node_lines(&mut out, &report.world)?;
    put_digest(alloc, &mut out, whole.as_slice())?;
    put_end(alloc, &mut out, &report.ended)?;
    Ok(Bytes::of(out))
}

// Writes the first line of each correct node's block, ascending.
fn put_node_lines<M: Sequenced>(out: &mut Vec<u8>, world: &World<M>) -> Result<(), NoMemory>
    ensures { OnOk result ((p : Course M.Msg) → RefinesRun M.spec M.refines world.now p →
        out.new.items ≡ out.old.items
        ++ node_lines world.now.simulation.setup M.spec p.state.held.net world.now.simulation.setup.n) }
{
    let nodes = world.setup().n;
    for node in 0..nodes {
        put_line(out, world, node)?;
    }
    Ok(())
}

// Writes the first line of a node's block if it is correct.
fn put_line<M: Sequenced>(out: &mut Vec<u8>, world: &World<M>, node: u32) -> Result<(), NoMemory>
    requires { node < world.now.simulation.setup.n }
    ensures { OnOk result ((p : Course M.Msg) → RefinesRun M.spec M.refines world.now p →
        out.new.items ≡ out.old.items ++ line_of world.now.simulation.setup M.spec p.state.held.net node) }
{
    if !is_correct(world.setup(), node) {
        return Ok(());
    }
    put_first_line(out, NodeId(node as u8), world.epoch(node), world.log(node))
}

// Writes the first line of a node's block.
fn put_first_line(out: &mut Vec<u8>, node: NodeId, epoch: Epoch, log: &Log) -> Result<(), NoMemory>
    ensures { OnOk result (out.new.items ≡ out.old.items ++ first_line node.0 epoch.0 (reverse log.now.entries)) }
{
    let slots = log.entries().len() as u64;
    put_node_line(out, node, epoch, slots, log.requests())
}

// Writes the line with the digest of a report.
// rule: Reports: A summary has the digest of the whole report
fn put_digest(alloc: Global, out: &mut Vec<u8>, report: &[u8]) -> Result<(), NoMemory>
    ensures { OnOk result (out.new.items ≡ out.old.items ++ digest_line report.now) }
{
    let digest = Sha256::digest(report);
    put_text(out, b"digest ")?;
    put_bytes(alloc, out, &digest)?;
    put_text(out, b"\n")
}
