//! The orders that run nodes over links: all nodes of a cluster, or one node with its journal.
ghost use Rattle.std.specs.Prelude.{◌≡◌, ◌<◌, ◌≤◌, ◌++◌, ◌∷◌, codes, IfOk, IfSome, IsErrOf, None, Ok, OnOk};
ghost use Rattle.iss_cli.specs.Running.{IsConfigOf, IsOfCluster, IsOfConfig, IsOfNode, IsOfNodeOrder, IsPrintedRun, IsStarted, damaged_answer, devices, log_answer, refused_configuration};
ghost use Rattle.iss_cli.specs.Views.{Under, outcome_of};
ghost use Rattle.iss_config.specs.Configs.{setup_of};
ghost use Rattle.iss_config.specs.declared.configs.Config.{Config as ModelConfig};
ghost use Rattle.iss_disk.specs.Calls.{HasCause as HasDiskCause};
ghost use Rattle.iss_links.specs.Calls.{HasCause};
ghost use Rattle.iss_model.specs.Courses.{Course};
ghost use Rattle.iss_replay.specs.Refines.{ReportRefinesRun, end_kept};
ghost use Rattle.iss_replay.specs.Report.{text_of as text_of_run};
ghost use Rattle.iss_rules.specs.Setups.{IsSetupOf};
ghost use Rattle.iss_schedule.specs.Schedules.{text_of};
ghost use Rattle.iss_words.specs.declared.orders.Order.TheVariants.{Cluster as ModelCluster, Node as ModelNode};

use crate::answers::Answer;
use crate::checked::CheckedConfig;
use crate::status::Outcome;
use crate::views::outcome_of;
use iss_cluster::{NodeFailure, RunningNode, Traced, cluster, node, start_node};
use iss_config::{Config, ConfigError};
use iss_disk::{Disk, EndError};
use iss_links::Links;
use iss_loops::{LoopError, NodeError};
use iss_replay::lines::put_ok;
use iss_replay::text;
use iss_replay::words::{put_number, put_text};
use iss_request::{Bytes, NoMemory, NodeId};
use iss_sb::Sequenced;
use iss_schedule::{MOST_BYTES, write};
use iss_words::NodeOrder;
use sb_chained::Chained;
use sb_hotstuff::HotStuff;
use sb_pbft::Pbft;
use sb_raft::Raft;
use sb_relay::Relay;
use std::alloc::Global;

// ---- configurations

// The configuration that the input is, if it is one. The only error is out of memory.
// rule: Program: What is no configuration, or has no such node, exits with 11
fn read_config(alloc: Global, input: &[u8]) -> Result<Option<CheckedConfig>, NoMemory>
    ensures some { IfOk result (λ found. IfSome found (IsConfigOf input.now)) }
    ensures none { result ≡ Ok None → (c : ModelConfig) → ¬ IsConfigOf input.now c }
{
    if input.len() > MOST_BYTES {
        return Ok(None);
    }
    match Config::read(alloc, input) {
        Ok(config) => Ok(Some(CheckedConfig::of(config))),
        Err(ConfigError::BadConfig) => Ok(None),
        Err(ConfigError::NoMemory) => Err(NoMemory),
    }
}

/// The answer to an input that is no configuration, or whose cluster has no node that the words name. The only error is
/// out of memory.
pub fn refuse_configuration(alloc: Global) -> Result<Answer, NoMemory>
    ensures { IfOk result (λ a. a ≡ refused_configuration) }
{
    let mut printed = Vec::new(alloc);
    put_text(&mut printed, b"refused configuration\n")?;
    Ok(Answer {
        printed: Bytes::of(printed),
        outcome: Outcome::RefusedConfiguration,
    })
}

// How many nodes the cluster has. The only error is out of memory.
fn nodes_of(alloc: Global, config: &CheckedConfig) -> Result<u32, NoMemory>
    ensures same { IfOk result (λ n. n ≡ (setup_of config.now).n) }
    ensures few { IfOk result (λ n. n ≤ 10) }
{
    Ok(config.config().setup(alloc)?.n)
}

// ---- all nodes of a cluster

/// The answer to an input that must be a configuration: the trace of its cluster's nodes, which run over links, and the
/// report of that trace. Where the links fail there is no answer.
pub fn run_cluster<L: Links>(
    alloc: Global,
    port: u16,
    input: &[u8],
    links: &mut L,
) -> Result<Answer, LoopError>
    requires { port ≤ 65000 }
    ensures ok { IfOk result (IsOfConfig
        (λ c a. Under c.module (IsOfCluster c (L.ends links.old) (L.ends links.new) a)) input.now) }
    ensures started { IsErrOf result LoopError.LinksFault → IsStarted (ModelCluster port) input.now }
    ensures cause { HasCause (L.faults links.old) (L.faults links.new) (IsErrOf result LoopError.LinksFault) }
    ensures refused { IfOk result (λ a. a.outcome ≡ Outcome.RefusedConfiguration → links.new ≡ links.old) }
{
    match read_config(alloc, input)? {
        Some(config) => run_nodes(alloc, port, &config, links),
        None => Ok(refuse_configuration(alloc)?),
    }
}

// The same for a configuration.
fn run_nodes<L: Links>(
    alloc: Global,
    port: u16,
    config: &CheckedConfig,
    links: &mut L,
) -> Result<Answer, LoopError>
    requires { port ≤ 65000 }
    ensures ok { IfOk result (λ a. Under config.now.module
        (IsOfCluster config.now (L.ends links.old) (L.ends links.new) a)) }
    ensures cause { HasCause (L.faults links.old) (L.faults links.new) (IsErrOf result LoopError.LinksFault) }
{
    let nodes = nodes_of(alloc, config)?;
    links.attach(port, 0, nodes)?;
    run_nodes_by_module(alloc, config, links)
}

// The same under the module that the configuration names, with attached links.
fn run_nodes_by_module<L: Links>(
    alloc: Global,
    config: &CheckedConfig,
    links: &mut L,
) -> Result<Answer, LoopError>
    ensures ok { IfOk result (λ a. Under config.now.module
        (IsOfCluster config.now (L.ends links.old) (L.ends links.new) a)) }
    ensures cause { HasCause (L.faults links.old) (L.faults links.new) (IsErrOf result LoopError.LinksFault) }
{
    match config.config().module {
        1 => run_nodes_under::<Relay, L>(alloc, config, links),
        2 => run_nodes_under::<Raft, L>(alloc, config, links),
        3 => run_nodes_under::<Pbft, L>(alloc, config, links),
        4 => run_nodes_under::<HotStuff, L>(alloc, config, links),
        5 => run_nodes_under::<Chained, L>(alloc, config, links),
        _ => unreachable!(),
    }
}

// The same under this module.
fn run_nodes_under<M: Sequenced, L: Links>(
    alloc: Global,
    config: &CheckedConfig,
    links: &mut L,
) -> Result<Answer, LoopError>
    requires { IsSetupOf M.spec (setup_of config.now) }
    ensures ok { IfOk result (λ a. IsOfCluster config.now (L.ends links.old) (L.ends links.new) a M.Msg M.spec) }
    ensures cause { HasCause (L.faults links.old) (L.faults links.new) (IsErrOf result LoopError.LinksFault) }
{
    let traced = cluster::<M, L>(alloc, config.config(), links)?;
    Ok(print_traced(alloc, &traced)?)
}

// The text of a trace, and behind the line `report` its report. The only error is out of memory.
// rule: Program: A cluster prints the trace of its nodes, a line, and the report of that trace
fn print_traced<M: Sequenced>(alloc: Global, traced: &Traced<M>) -> Result<Answer, NoMemory>
    ensures printed { IfOk result (λ a. (p : Course M.Msg) →
        ReportRefinesRun M.spec M.refines traced.now.report.world traced.now.report.drops traced.now.report.ended p →
        a.printed ≡ text_of traced.now.trace ++ codes "report" ++ 10
        ∷ text_of_run traced.now.report.world.simulation.setup M.spec p) }
    ensures outcome { IfOk result (λ a. a.outcome ≡ outcome_of (end_kept traced.now.report.ended)) }
{
    let trace = write(alloc, &traced.trace)?;
    let report = text(alloc, &traced.report)?;
    let printed = join_report(alloc, trace.as_slice(), report.as_slice())?;
    Ok(Answer {
        printed,
        outcome: outcome_of(&traced.report.ended),
    })
}

// A trace, the line `report`, and a report. The only error is out of memory.
fn join_report(alloc: Global, trace: &[u8], report: &[u8]) -> Result<Bytes, NoMemory>
    ensures { IfOk result (λ bytes. bytes ≡ trace.now ++ codes "report" ++ 10 ∷ report.now) }
{
    let mut printed = Vec::new(alloc);
    put_text(&mut printed, trace)?;
    put_text(&mut printed, b"report\n")?;
    put_text(&mut printed, report)?;
    Ok(Bytes::of(printed))
}

// ---- one node

/// The answer to an input that must be a configuration: the log of one of its cluster's nodes, which runs over links
/// and keeps a journal, or where the journal is damaged. Where the links or the disk fail there is no answer.
pub fn run_node<L: Links, D: Disk>(
    alloc: Global,
    order: NodeOrder<'_>,
    input: &[u8],
    links: &mut L,
    disk: &mut D,
) -> Result<Answer, NodeError>
    requires { order.port ≤ 65000 }
    ensures ok { IfOk result (IsOfConfig
        (IsOfNodeOrder order.entry (devices (L.ends links.old) (D.state disk.old))
        (devices (L.ends links.new) (D.state disk.new))) input.now) }
    ensures links_fail { IsErrOf result NodeError.LinksFault → IsStarted (ModelNode order.entry) input.now }
    ensures disk_fails { IsErrOf result NodeError.DiskFault → IsStarted (ModelNode order.entry) input.now }
    ensures links { HasCause (L.faults links.old) (L.faults links.new) (IsErrOf result NodeError.LinksFault) }
    ensures disk { HasDiskCause (D.state disk.old).faults (D.state disk.new).faults
        (IsErrOf result NodeError.DiskFault) }
    ensures refused { IfOk result (λ a. a.outcome ≡ Outcome.RefusedConfiguration →
        (links.new ≡ links.old) × (disk.new ≡ disk.old)) }
{
    match read_config(alloc, input)? {
        Some(config) => run_one(alloc, order, &config, links, disk),
        None => Ok(refuse_configuration(alloc)?),
    }
}

// The same for a configuration.
fn run_one<L: Links, D: Disk>(
    alloc: Global,
    order: NodeOrder<'_>,
    config: &CheckedConfig,
    links: &mut L,
    disk: &mut D,
) -> Result<Answer, NodeError>
    requires { order.port ≤ 65000 }
    ensures ok { IfOk result
        (IsOfNodeOrder order.entry (devices (L.ends links.old) (D.state disk.old))
        (devices (L.ends links.new) (D.state disk.new)) config.now) }
    ensures links_fail { IsErrOf result NodeError.LinksFault → order.entry.node < (setup_of config.now).n }
    ensures disk_fails { IsErrOf result NodeError.DiskFault → order.entry.node < (setup_of config.now).n }
    ensures links { HasCause (L.faults links.old) (L.faults links.new) (IsErrOf result NodeError.LinksFault) }
    ensures disk { HasDiskCause (D.state disk.old).faults (D.state disk.new).faults
        (IsErrOf result NodeError.DiskFault) }
    ensures refused { IfOk result (λ a. a.outcome ≡ Outcome.RefusedConfiguration →
        (links.new ≡ links.old) × (disk.new ≡ disk.old)) }
{
    if order.node >= nodes_of(alloc, config)? {
        return Ok(refuse_configuration(alloc)?);
    }
    run_existing(alloc, order, config, links, disk)
}

// The same for a node of the cluster.
fn run_existing<L: Links, D: Disk>(
    alloc: Global,
    order: NodeOrder<'_>,
    config: &CheckedConfig,
    links: &mut L,
    disk: &mut D,
) -> Result<Answer, NodeError>
    requires port { order.port ≤ 65000 }
    requires node { order.node < (setup_of config.now).n }
    ensures ok { IfOk result (λ a. Under config.now.module (IsOfNode config.now order.entry.node (L.ends links.old)
        (L.ends links.new) ((D.state disk.old).files order.entry.file.now) (D.state disk.new).history a)) }
    ensures links { HasCause (L.faults links.old) (L.faults links.new) (IsErrOf result NodeError.LinksFault) }
    ensures disk { HasDiskCause (D.state disk.old).faults (D.state disk.new).faults
        (IsErrOf result NodeError.DiskFault) }
{
    // Its values are in range: there are at most ten nodes.
    let _config = config.config();
    attach(order, links, disk)?;
    let me = NodeId(order.node as u8);
    run_by_module(alloc, config, me, links, disk)
}

// Makes the node's end, and its journal the disk's current file.
fn attach<L: Links, D: Disk>(
    order: NodeOrder<'_>,
    links: &mut L,
    disk: &mut D,
) -> Result<(), NodeError>
    requires port { order.port ≤ 65000 }
    requires node { order.node < 10 }
    ensures ends { OnOk result (L.ends links.new ≡ L.ends links.old) }
    ensures file { OnOk result ((D.state disk.new).history ≡ (D.state disk.old).files order.entry.file.now) }
    ensures links { HasCause (L.faults links.old) (L.faults links.new) (IsErrOf result NodeError.LinksFault) }
    ensures disk { HasDiskCause (D.state disk.old).faults (D.state disk.new).faults
        (IsErrOf result NodeError.DiskFault) }
{
    links.attach(order.port, order.node, 1)?;
    match disk.attach(order.file) {
        Ok(()) => Ok(()),
        Err(EndError::Failed) => Err(NodeError::DiskFault),
        Err(EndError::NoMemory) => Err(NodeError::NoMemory),
    }
}

// The log of a node of the cluster, whose end and journal are attached, under the module that the configuration names.
fn run_by_module<L: Links, D: Disk>(
    alloc: Global,
    config: &CheckedConfig,
    me: NodeId,
    links: &mut L,
    disk: &mut D,
) -> Result<Answer, NodeError>
    requires { me.0 < (setup_of config.now).n }
    ensures ok { IfOk result (λ a. Under config.now.module (IsOfNode config.now me.0 (L.ends links.old)
        (L.ends links.new) (D.state disk.old).history (D.state disk.new).history a)) }
    ensures links { HasCause (L.faults links.old) (L.faults links.new) (IsErrOf result NodeError.LinksFault) }
    ensures disk { HasDiskCause (D.state disk.old).faults (D.state disk.new).faults
        (IsErrOf result NodeError.DiskFault) }
{
    match config.config().module {
        1 => run_node_under::<Relay, L, D>(alloc, config, me, links, disk),
        2 => run_node_under::<Raft, L, D>(alloc, config, me, links, disk),
        3 => run_node_under::<Pbft, L, D>(alloc, config, me, links, disk),
        4 => run_node_under::<HotStuff, L, D>(alloc, config, me, links, disk),
        5 => run_node_under::<Chained, L, D>(alloc, config, me, links, disk),
        _ => unreachable!(),
    }
}

// The same under this module.
fn run_node_under<M: Sequenced, L: Links, D: Disk>(
    alloc: Global,
    config: &CheckedConfig,
    me: NodeId,
    links: &mut L,
    disk: &mut D,
) -> Result<Answer, NodeError>
    requires good { IsSetupOf M.spec (setup_of config.now) }
    requires me { me.0 < (setup_of config.now).n }
    ensures ok { IfOk result (λ a. IsOfNode config.now me.0 (L.ends links.old) (L.ends links.new)
        (D.state disk.old).history (D.state disk.new).history a M.Msg M.spec) }
    ensures links { HasCause (L.faults links.old) (L.faults links.new) (IsErrOf result NodeError.LinksFault) }
    ensures disk { HasDiskCause (D.state disk.old).faults (D.state disk.new).faults
        (IsErrOf result NodeError.DiskFault) }
{
    let config = config.config();
    let fresh = start_node::<M>(alloc, config, me)?;
    let mut running = RunningNode::of(fresh, disk);
    let ran = node(alloc, config, links, &mut running);
    // The disk is given back.
    let _disk = running.into_disk();
    print_ran(alloc, ran)
}

// What came of a node's loop.
fn print_ran(alloc: Global, ran: Result<Bytes, NodeFailure>) -> Result<Answer, NodeError>
    ensures printed { IsPrintedRun ran result }
    ensures links { IsErrOf ran NodeFailure.LinksFault → IsErrOf result NodeError.LinksFault }
{
    match ran {
        Ok(block) => Ok(print_log(alloc, block.as_slice())?),
        Err(NodeFailure::Damaged { at }) => Ok(print_damage(alloc, at)?),
        Err(NodeFailure::LinksFault) => Err(NodeError::LinksFault),
        Err(NodeFailure::DiskFault) => Err(NodeError::DiskFault),
        Err(NodeFailure::NoMemory) => Err(NodeError::NoMemory),
    }
}

// The block of a node's log, and the last line of a report. The only error is out of memory.
// rule: Program: A node prints its log as a block of a report
fn print_log(alloc: Global, block: &[u8]) -> Result<Answer, NoMemory>
    ensures { IfOk result (λ a. a ≡ log_answer block.now) }
{
    let mut printed = Vec::new(alloc);
    put_text(&mut printed, block)?;
    put_ok(&mut printed)?;
    Ok(Answer {
        printed: Bytes::of(printed),
        outcome: Outcome::Done,
    })
}

// Where a journal is damaged. The only error is out of memory.
// rule: Program: A damaged journal exits with 10, and its offset is printed
fn print_damage(alloc: Global, at: u64) -> Result<Answer, NoMemory>
    ensures { IfOk result (λ a. a ≡ damaged_answer at) }
{
    let mut printed = Vec::new(alloc);
    put_text(&mut printed, b"damaged ")?;
    put_number(&mut printed, at)?;
    put_text(&mut printed, b"\n")?;
    Ok(Answer {
        printed: Bytes::of(printed),
        outcome: Outcome::DamagedJournal,
    })
}
