//! The text of a run's replies.
ghost use Rattle.std.specs.Prelude.{◌≡◌, ◌<◌, ◌++◌, IfOk, OnOk, map};
ghost use Rattle.iss_model.specs.Courses.{Course};
ghost use Rattle.iss_schedule.specs.Words.{ended};
ghost use Rattle.iss_replay.specs.Refines.{ReportRefinesRun};
ghost use Rattle.iss_theorems.specs.Headline.{shown};
ghost use Rattle.iss_world.specs.Refines.{RefinesRun};
ghost use Rattle.iss_answers.specs.Lines.{reply_line};
ghost use Rattle.iss_believed.specs.Believed.{made_by, replies_of_nodes, text_of_run};

use iss_answers::put_replies;
use iss_replay::Report;
use iss_request::{Bytes, NoMemory, NodeId};
use iss_sb::Sequenced;
use iss_schedule::put_header;
use iss_texts::put_last;
use iss_world::World;
use iss_world::claims::is_correct;
use std::alloc::Global;

/// The text of a run's replies: those of each correct node to the requests of its log. The only error is out of memory.
// rule: Replies: The replies of a run are those of each correct node to the requests of its printed log
pub fn replies<M: Sequenced>(alloc: Global, report: &Report<M>) -> Result<Bytes, NoMemory>
    ensures { IfOk result (λ bytes. (p : Course M.Msg) →
        ReportRefinesRun M.spec M.refines report.now.world report.now.drops report.now.ended p →
        bytes ≡ text_of_run report.now.world.simulation.setup M.spec p) }
{
    let mut out = Vec::new(alloc);
    put_header(&mut out, report.world.setup())?;
    put_nodes(alloc, &mut out, &report.world)?;
    put_last(&mut out)?;
    Ok(Bytes::of(out))
}

// Writes the replies of each correct node, ascending.
fn put_nodes<M: Sequenced>(
    alloc: Global,
    out: &mut Vec<u8>,
    world: &World<M>,
) -> Result<(), NoMemory>
    ensures { OnOk result ((p : Course M.Msg) → RefinesRun M.spec M.refines world.now p →
        out.new.items ≡ out.old.items ++ ended (map reply_line (replies_of_nodes world.now.simulation.setup
        (shown world.now.simulation.setup M.spec p.state.held) world.now.simulation.setup.n))) }
{
    let nodes = world.setup().n;
    for node in 0..nodes {
        put_node(alloc, out, world, node)?;
    }
    Ok(())
}

// Writes the replies of a node if it is correct.
fn put_node<M: Sequenced>(
    alloc: Global,
    out: &mut Vec<u8>,
    world: &World<M>,
    node: u32,
) -> Result<(), NoMemory>
    requires { node < world.now.simulation.setup.n }
    ensures { OnOk result ((p : Course M.Msg) → RefinesRun M.spec M.refines world.now p →
        out.new.items ≡ out.old.items ++ ended (map reply_line (made_by world.now.simulation.setup
        (shown world.now.simulation.setup M.spec p.state.held) node))) }
{
    if !is_correct(world.setup(), node) {
        return Ok(());
    }
    put_replies(
        alloc,
        out,
        world.setup(),
        NodeId(node as u8),
        world.log(node),
    )
}
