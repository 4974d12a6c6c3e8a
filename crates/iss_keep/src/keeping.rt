// One event of a node with an attached journal: reserve room for the entry, step the node, append the entry or the
// snapshot that takes its place.
ghost use Rattle.std.specs.Prelude.{◌≡◌, ◌∷◌, [], length, IfOk, OnOk};
ghost use Rattle.iss_keep.specs.Entries.{spell_event};
ghost use Rattle.iss_keep.specs.Internal.Keeping.{HasAppended, HasEnded, HasJournaled, MayAppend, MayEnd, MayStep};
ghost use Rattle.iss_keep.specs.Internal.Keeping.{entry_kept, released};
ghost use Rattle.iss_node.specs.declared.answers.Answer.TheVariants.{Taken as Node_taken};
ghost use Rattle.iss_node.specs.declared.answers.Outcome.{Outcome};

use crate::entries::{ASK, PACKET, PROPOSE, TIMEOUT};
use iss_disk::{Disk, EndError};
use iss_journal::Journal;
use iss_node::{Answer, Node};
use iss_request::{Bytes, Epoch, NoMemory, NodeId};
use iss_rules::NodeEvent;
use iss_sb::Sequenced;
use std::alloc::Global;

// The entry of an event: its kind byte, and its content. That of a packet is its bytes, which are shared, not copied,
// if they support that.
#[derive(Drop)]
struct Entry {
    kind: u8,
    content: Bytes,
}

// The content that is one byte: the number of a node.
#[inline(always)]
fn content_of(alloc: Global, node: NodeId) -> Result<Bytes, NoMemory>
    ensures { IfOk result (λ content. content ≡ node.0 ∷ []) }
{
    Ok(Bytes::of(Vec::from_slice(alloc, &[node.0])?))
}

// The entry of an event.
#[inline(always)]
fn entry_of(alloc: Global, event: &NodeEvent) -> Result<Entry, NoMemory>
    ensures { IfOk result (λ entry. entry.kind ∷ entry.content ≡ spell_event event.now) }
{
    let (kind, content) = match event {
        NodeEvent::Packet(bytes) => (PACKET, bytes.copy()?),
        NodeEvent::Propose => (PROPOSE, Bytes::new(alloc)),
        NodeEvent::Timeout(leader) => (TIMEOUT, content_of(alloc, *leader)?),
        NodeEvent::AskFrom(peer) => (ASK, content_of(alloc, *peer)?),
    };
    Ok(Entry { kind, content })
}

// The length of an entry, in bytes.
#[inline(always)]
fn entry_len(entry: &Entry) -> u64
    ensures { result ≡ length (entry.now.kind ∷ entry.now.content) }
{
    entry.content.as_slice().len() as u64 + 1
}

// The bytes of a snapshot, which its outcome and the journal share from now on: they are not copied. Without memory the
// outcome loses them.
#[inline(always)]
fn share(entered: &mut Option<Bytes>) -> Result<Option<Bytes>, NoMemory>
    ensures same { OnOk result (entered.new ≡ entered.old) }
    ensures shared { IfOk result (λ snapshot. snapshot ≡ entered.old) }
{
    let Some(bytes) = entered.take() else {
        return Ok(None);
    };
    let bytes = bytes.into_shared()?;
    *entered = Some(bytes.copy()?);
    Ok(Some(bytes))
}

// Appends the entry of an accepted event, or in its place the snapshot of the node that entered an epoch. The room of a
// snapshot is made first: without it nothing is appended.
// rule: Persistence: The snapshot of a node that entered an epoch takes the place of the event that ended the last one
#[inline(always)]
fn append_entry<D: Disk>(
    journal: &mut Journal<D>,
    entry: Entry,
    entered: &mut Option<Bytes>,
) -> Result<(), EndError>
    requires { MayAppend journal.old (entry_kept entered.old (entry.kind ∷ entry.content)) }
    ensures { HasAppended D.state (entry.kind ∷ entry.content) entered.old entered.new journal.old journal.new result }
{
    let Ok(snapshot) = share(entered) else {
        return Err(EndError::NoMemory);
    };
    match snapshot {
        Some(bytes) => journal.append(&[], bytes),
        None => journal.append(&[entry.kind], entry.content),
    }
}

// Appends as `append_entry` does. If that fails, the node retreats to its earlier number of slots and epoch.
// rule: Recovery: An event takes four disk calls, and is kept only if all four pass
// rule: Persistence: An event is kept before its outcome is handed out
#[inline(always)]
fn append_or_retreat<M: Sequenced, D: Disk>(
    node: &mut Node<M>,
    journal: &mut Journal<D>,
    entry: Entry,
    entered: &mut Option<Bytes>,
    savepoint: (usize, Epoch),
) -> Result<(), EndError>
    requires { MayEnd journal.old (entry_kept entered.old (entry.kind ∷ entry.content)) node.old savepoint.0
        savepoint.1.0 }
    ensures appended { HasAppended D.state (entry.kind ∷ entry.content) entered.old entered.new journal.old journal.new
        result }
    ensures ended { (outcome : Outcome) →
        HasEnded outcome savepoint.0 savepoint.1.0 node.old node.new (released (Node_taken outcome) result) }
{
    match append_entry(journal, entry, entered) {
        Ok(()) => Ok(()),
        Err(EndError::Failed) => {
            node.retreat(savepoint.0, savepoint.1);
            Err(EndError::Failed)
        }
        Err(EndError::NoMemory) => {
            node.retreat(savepoint.0, savepoint.1);
            Err(EndError::NoMemory)
        }
    }
}

// Applies `event`. If the node accepted it, appends its entry to the journal, or the snapshot that takes its place. The
// node's answer is left in `made`.
// rule: Persistence: A dropped event changes nothing and is not kept
#[inline(always)]
fn apply_then_append<M: Sequenced, D: Disk>(
    alloc: Global,
    node: &mut Node<M>,
    journal: &mut Journal<D>,
    event: NodeEvent,
    entry: Entry,
    made: &mut Answer,
) -> Result<(), EndError>
    requires step { MayStep M.spec M.refines node.old journal.old }
    requires entry { entry.kind ∷ entry.content ≡ spell_event event }
    ensures { HasJournaled D.state M.spec M.refines event node.old node.new journal.old journal.new made.new result }
{
    let slots = node.log().entries().len();
    let epoch = node.epoch();
    *made = node.take(alloc, event);
    match made {
        Answer::Taken(outcome) => {
            append_or_retreat(node, journal, entry, &mut outcome.entered, (slots, epoch))
        }
        _ => Ok(()),
    }
}

/// Reserves room for the entry, applies `event`, and appends the entry if the node accepted the event, or the snapshot
/// that takes its place. Room comes first: an accepted event fails for memory only where its snapshot finds none. The
/// node consumes the event, so its entry is made before.
/// The node's answer is large; it is left in `made`, to be moved only once.
// rule: Persistence: Room for the entry is reserved before the node steps
#[inline(always)]
pub(crate) fn journal_and_apply<M: Sequenced, D: Disk>(
    alloc: Global,
    node: &mut Node<M>,
    journal: &mut Journal<D>,
    event: NodeEvent,
    made: &mut Answer,
) -> Result<(), EndError>
    requires { MayStep M.spec M.refines node.old journal.old }
    ensures { HasJournaled D.state M.spec M.refines event node.old node.new journal.old journal.new made.new result }
{
    let Ok(entry) = entry_of(alloc, &event) else {
        return Err(EndError::NoMemory);
    };
    if journal.reserve(entry_len(&entry)).is_err() {
        return Err(EndError::NoMemory);
    }
    apply_then_append(alloc, node, journal, event, entry, made)
}
