//! The top call.
ghost use Rattle.std.specs.Prelude.{◌≡◌, ◌≤◌, ◌+◌, map, string_bytes, IfErr, IfOk, IsErrOf};
ghost use Rattle.iss_cli.specs.Answers.{Reads};
ghost use Rattle.iss_cli.specs.Calls.{Ends, HasNone, IsAnswerTo, IsAnswered, IsUnanswered, KeepsJournal, Prints, ReadsInput, RunsNodes};
ghost use Rattle.iss_cli.specs.Ends.{HasCause, Drains};
ghost use Rattle.iss_cli.specs.Running.{HasPorts, UsesDisk, UsesLinks, devices};
ghost use Rattle.iss_disk.specs.Calls.{HasCause as HasDiskCause};

use crate::answers::{Answer, reads, refuse_words, respond};
use crate::ends::{Sink, Source};
use crate::errors::{AnswerError, EndError, status_without};
use crate::input::read_up_to;
use crate::output::write_all;
use crate::status::{Outcome, Status};
use iss_disk::Disk;
use iss_links::Links;
use iss_words::{Order, WordsError, read_words};
use std::alloc::Global;

/// The most bytes that are read: one more than the longest schedule, so that a longer input is noticed.
pub const MOST_TAKEN: usize = 16_777_217;

// How many bytes are read at a time.
const PIECE: usize = 65_536;

/// The program: the words ask for an order, and its answer to the input is printed (`IsAnswer` has a line for each
/// order). What is printed of a run is the run of the whole schedule, and the headline holds for it. An order reads the
/// input to its end, or not at all. Each read but the last gives some bytes. Only nodes that run use the links, and
/// only a node with a journal uses the disk.
///
/// Errors are detected in the order words, source, input, links, disk, sink. Memory may run out at any point.
// rule: Program: Each exit status comes exactly where its cause does
// rule: Program: Links and disk stay as they are unless nodes run
pub fn run<I: Source, O: Sink, L: Links, D: Disk>(
    alloc: Global,
    words: &[String],
    input: &mut I,
    out: &mut O,
    links: &mut L,
    disk: &mut D,
) -> Status
    ensures printed { Ends (map string_bytes words.now) (I.left input.old) (I.left input.new)
        (devices (L.ends links.old) (D.state disk.old))
        (devices (L.ends links.new) (D.state disk.new)) (O.held out.old) (O.held out.new) result }
    ensures taken { Drains 16777217 (I.left input.old) (I.left input.new) }
    ensures empty { I.empties input.new ≤ I.empties input.old + 1 }
    ensures unread { ¬ ReadsInput (map string_bytes words.now) → input.new ≡ input.old }
    ensures same_links { ¬ RunsNodes (map string_bytes words.now) → links.new ≡ links.old }
    ensures same_disk { ¬ KeepsJournal (map string_bytes words.now) → disk.new ≡ disk.old }
    ensures refused { result ≡ Status.Answered Outcome.RefusedConfiguration →
        (links.new ≡ links.old) × (disk.new ≡ disk.old) }
    ensures source { HasCause (I.faults input.old) (I.faults input.new) (result ≡ Status.SourceFailed) }
    ensures sink { HasCause (O.faults out.old) (O.faults out.new) (result ≡ Status.SinkFailed) }
    ensures links { HasCause (L.faults links.old) (L.faults links.new) (result ≡ Status.LinksFailed) }
    ensures disk { HasDiskCause (D.state disk.old).faults (D.state disk.new).faults (result ≡ Status.DiskFailed) }
{
    match answer(alloc, words, input, links, disk) {
        Ok(answer) => print(out, &answer),
        Err(error) => status_without(error),
    }
}

// The answer to the words and the input.
fn answer<I: Source, L: Links, D: Disk>(
    alloc: Global,
    words: &[String],
    input: &mut I,
    links: &mut L,
    disk: &mut D,
) -> Result<Answer, AnswerError>
    ensures ok { IfOk result (IsAnswered (map string_bytes words.now) (I.left input.old) (I.left input.new)
        (devices (L.ends links.old) (D.state disk.old))
        (devices (L.ends links.new) (D.state disk.new))) }
    ensures err { IfErr result (IsUnanswered (map string_bytes words.now) (I.left input.old) (I.left input.new)) }
    ensures taken { Drains 16777217 (I.left input.old) (I.left input.new) }
    ensures empty { I.empties input.new ≤ I.empties input.old + 1 }
    ensures unread { ¬ ReadsInput (map string_bytes words.now) → input.new ≡ input.old }
    ensures same_links { ¬ RunsNodes (map string_bytes words.now) → links.new ≡ links.old }
    ensures same_disk { ¬ KeepsJournal (map string_bytes words.now) → disk.new ≡ disk.old }
    ensures refused { IfOk result (λ a. a.outcome ≡ Outcome.RefusedConfiguration →
        (links.new ≡ links.old) × (disk.new ≡ disk.old)) }
    ensures source { HasCause (I.faults input.old) (I.faults input.new) (IsErrOf result AnswerError.SourceFailed) }
    ensures links { HasCause (L.faults links.old) (L.faults links.new) (IsErrOf result AnswerError.LinksFailed) }
    ensures disk { HasDiskCause (D.state disk.old).faults (D.state disk.new).faults
        (IsErrOf result AnswerError.DiskFailed) }
{
    match read_words(alloc, words) {
        Ok(order) => answer_order(alloc, order, input, links, disk),
        Err(WordsError::Refused) => Ok(refuse_words(alloc)?),
        Err(WordsError::NoMemory) => Err(AnswerError::NoMemory),
    }
}

// The answer to an order and the input.
fn answer_order<I: Source, L: Links, D: Disk>(
    alloc: Global,
    order: Order<'_>,
    input: &mut I,
    links: &mut L,
    disk: &mut D,
) -> Result<Answer, AnswerError>
    requires { HasPorts order }
    ensures ok { IfOk result (IsAnswerTo order.entry (I.left input.old) (I.left input.new)
        (devices (L.ends links.old) (D.state disk.old))
        (devices (L.ends links.new) (D.state disk.new))) }
    ensures err { IfErr result (HasNone order.entry (I.left input.old) (I.left input.new)) }
    ensures taken { Drains 16777217 (I.left input.old) (I.left input.new) }
    ensures empty { I.empties input.new ≤ I.empties input.old + 1 }
    ensures unread { ¬ Reads order.entry → input.new ≡ input.old }
    ensures same_links { ¬ UsesLinks order.entry → links.new ≡ links.old }
    ensures same_disk { ¬ UsesDisk order.entry → disk.new ≡ disk.old }
    ensures refused { IfOk result (λ a. a.outcome ≡ Outcome.RefusedConfiguration →
        (links.new ≡ links.old) × (disk.new ≡ disk.old)) }
    ensures source { HasCause (I.faults input.old) (I.faults input.new) (IsErrOf result AnswerError.SourceFailed) }
    ensures links { HasCause (L.faults links.old) (L.faults links.new) (IsErrOf result AnswerError.LinksFailed) }
    ensures disk { HasDiskCause (D.state disk.old).faults (D.state disk.new).faults
        (IsErrOf result AnswerError.DiskFailed) }
{
    if !reads(order) {
        return Ok(respond(alloc, order, &[], links, disk)?);
    }
    let bytes = read_up_to(alloc, input, MOST_TAKEN, PIECE)?;
    Ok(respond(alloc, order, &bytes, links, disk)?)
}

// Prints an answer, and returns how the call ends.
fn print<O: Sink>(out: &mut O, answer: &Answer) -> Status
    ensures printed { Prints answer.now (O.held out.old) (O.held out.new) result }
    ensures sink { HasCause (O.faults out.old) (O.faults out.new) (result ≡ Status.SinkFailed) }
{
    match write_all(out, answer.printed.as_slice()) {
        Ok(()) => Status::Answered(answer.outcome),
        Err(EndError::Failed) => Status::SinkFailed,
        Err(EndError::NoMemory) => Status::NoMemory,
    }
}
