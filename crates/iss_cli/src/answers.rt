//! The answers of the program to each order and its input.
ghost use Rattle.std.specs.Prelude.{◌≡◌, ◌↔◌, IfOk, IsErrOf, IsTrue};
ghost use Rattle.iss_disk.specs.Calls.{HasCause as HasDiskCause};
ghost use Rattle.iss_links.specs.Calls.{HasCause};
ghost use Rattle.iss_cli.specs.Answers.{IsAnswer, IsOfSchedule, Reads, refused_line, refused_words, why_word};
ghost use Rattle.iss_cli.specs.Running.{HasPorts, IsStarted, UsesDisk, UsesLinks, devices};
ghost use Rattle.iss_cli.specs.Views.{IsShown};
ghost use Rattle.iss_cli.specs.declared.views.View.TheVariants.{Summary};
ghost use Rattle.iss_lab.specs.Generated.{generated};

use crate::audits::{audit, export_core};
use crate::believing::{believe, reply};
use crate::checked::CheckedSchedule;
use crate::running::{run_cluster, run_node};
use crate::status::Outcome;
use crate::views::{View, show};
use iss_disk::Disk;
use iss_lab::generate;
use iss_links::Links;
use iss_loops::NodeError;
use iss_replay::words::{put_number, put_text};
use iss_request::{Bytes, NoMemory};
use iss_schedule::{LineFault, ReadError, read};
use iss_words::Order;
use std::alloc::Global;

/// The bytes to print, and the outcome once they are printed.
#[derive(Drop)]
pub struct Answer {
    pub printed: Bytes,
    pub outcome: Outcome,
}

/// Whether the order reads the input.
pub fn reads(order: Order<'_>) -> bool
    ensures { IsTrue result ↔ Reads order.entry }
{
    match order {
        Order::Replay => true,
        Order::Lab { .. } => false,
        Order::Replies | Order::Answers => true,
        Order::Export { .. } | Order::Audit => true,
        Order::Cluster { .. } | Order::Node(_) => true,
    }
}

/// The answer to an order and the input. Only running nodes use the links, and only a node with a journal uses the
/// disk. A fault of theirs is the error, or out of memory.
pub fn respond<L: Links, D: Disk>(
    alloc: Global,
    order: Order<'_>,
    input: &[u8],
    links: &mut L,
    disk: &mut D,
) -> Result<Answer, NodeError>
    requires { HasPorts order }
    ensures ok { IfOk result (IsAnswer order.entry (devices (L.ends links.old) (D.state disk.old))
        (devices (L.ends links.new) (D.state disk.new)) input.now) }
    ensures links_fail { IsErrOf result NodeError.LinksFault → UsesLinks order.entry × IsStarted order.entry input.now }
    ensures disk_fails { IsErrOf result NodeError.DiskFault → UsesDisk order.entry × IsStarted order.entry input.now }
    ensures links { HasCause (L.faults links.old) (L.faults links.new) (IsErrOf result NodeError.LinksFault) }
    ensures disk { HasDiskCause (D.state disk.old).faults (D.state disk.new).faults
        (IsErrOf result NodeError.DiskFault) }
    ensures same_links { ¬ UsesLinks order.entry → links.new ≡ links.old }
    ensures same_disk { ¬ UsesDisk order.entry → disk.new ≡ disk.old }
    ensures refused { IfOk result (λ a. a.outcome ≡ Outcome.RefusedConfiguration →
        (links.new ≡ links.old) × (disk.new ≡ disk.old)) }
{
    match order {
        Order::Replay => Ok(show_input(alloc, View::Full, input)?),
        Order::Lab { number, events } => Ok(show_generated(alloc, number, events)?),
        Order::Replies => Ok(reply(alloc, input)?),
        Order::Answers => Ok(believe(alloc, input)?),
        Order::Export { core } => Ok(export_core(alloc, core, input)?),
        Order::Audit => Ok(audit(alloc, input)?),
        Order::Cluster { port } => Ok(run_cluster(alloc, port, input, links)?),
        Order::Node(order) => run_node(alloc, order, input, links, disk),
    }
}

/// The answer to an input that must be a schedule: a view of its run, or the first bad line.
pub fn show_input(alloc: Global, view: View, input: &[u8]) -> Result<Answer, NoMemory>
    ensures { IfOk result (IsOfSchedule (IsShown view) input.now) }
{
    match read(alloc, input) {
        Ok(schedule) => show(alloc, view, &CheckedSchedule::of(schedule)),
        Err(ReadError::BadLine { line, why }) => refuse_line(alloc, line, why),
        Err(ReadError::NoMemory) => Err(NoMemory),
    }
}

// The summary of the run of a generated schedule.
fn show_generated(alloc: Global, number: u64, events: u32) -> Result<Answer, NoMemory>
    ensures { IfOk result (IsShown Summary (generated number events)) }
{
    let schedule = generate(alloc, number, events)?;
    show(alloc, View::Summary, &CheckedSchedule::of(schedule))
}

/// The answer to words that ask for nothing. The only error is out of memory.
pub fn refuse_words(alloc: Global) -> Result<Answer, NoMemory>
    ensures { IfOk result (λ answer. answer ≡ refused_words) }
{
    let mut printed = Vec::new(alloc);
    put_text(&mut printed, b"refused words\n")?;
    Ok(Answer {
        printed: Bytes::of(printed),
        outcome: Outcome::RefusedWords,
    })
}

/// The answer to an input whose first bad line has this number, from 1. The only error is out of memory.
pub fn refuse_line(alloc: Global, line: u32, why: LineFault) -> Result<Answer, NoMemory>
    ensures { IfOk result (λ answer. answer ≡ refused_line line why) }
{
    let mut printed = Vec::new(alloc);
    put_text(&mut printed, b"refused line ")?;
    put_number(&mut printed, line as u64)?;
    put_text(&mut printed, b" ")?;
    put_text(&mut printed, name_of(why))?;
    put_text(&mut printed, b"\n")?;
    Ok(Answer {
        printed: Bytes::of(printed),
        outcome: Outcome::RefusedInput,
    })
}

fn name_of(why: LineFault) -> &'static [u8]
    ensures { result.now ≡ why_word why }
{
    match why {
        LineFault::Cut => b"Cut",
        LineFault::Form => b"Form",
        LineFault::Faulty => b"Faulty",
        LineFault::Injected => b"Injected",
        LineFault::Range => b"Range",
        LineFault::Size => b"Size",
    }
}
