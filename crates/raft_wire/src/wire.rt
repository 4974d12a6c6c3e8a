//! The bytes of the messages.
ghost use Rattle.std.specs.Prelude.{◌≡◌, ◌<◌, ◌^◌, ℕ, List, Bool, length, IfOk, OnOk, Err};
ghost use Rattle.std.specs.List.{flat_map};
ghost use Rattle.iss_request.specs.Fields.{IsRead, IsUnreadable, and_bytes};
ghost use Rattle.raft_wire.specs.Entries.{spell_entry};
ghost use Rattle.raft_wire.specs.Messages.{append_row, ask_row, parse, parse_append, parse_ask};
ghost use Rattle.raft_wire.specs.Messages.{parse_flag, parse_reply, parse_vote, reply_row, spell, vote_row};

use crate::entries::{Entry, read_entries, write_entries};
use crate::messages::Message;
use iss_request::{DecodeError, Fields, NoMemory, Writer};
use std::alloc::Global;

const NO_MESSAGE: u8 = 0;

const APPEND: u8 = 1;

const REPLY: u8 = 2;

const ASK_VOTE: u8 = 3;

const VOTE: u8 = 4;

/// Writes a message: its number, then its fields. One without an encoding is written as number 0, which no reader
/// accepts. The only error is out of memory.
// rule: Raft: A message has one encoding, and an error names the first field that does not fit
pub fn write(msg: &Message, out: &mut Writer) -> Result<(), NoMemory>
    ensures { OnOk result (out.new ≡ and_bytes out.old (spell out.old.version msg.now)) }
{
    match msg {
        Message::Append {
            term,
            previous,
            previous_term,
            commit,
            entries,
        } => {
            if entries.len() > u32::MAX as usize {
                return out.put_u8(NO_MESSAGE);
            }
            let entries = entries.as_slice();
            let previous = Place {
                index: *previous,
                term: *previous_term,
            };
            write_append(*term, previous, *commit, entries, out)
        }
        Message::Reply { term, ok, index } => write_reply(*term, *ok, *index, out),
        Message::AskVote {
            term,
            last,
            last_term,
        } => write_ask(*term, *last, *last_term, out),
        Message::Vote { term, granted } => write_vote(*term, *granted, out),
    }
}

// An entry's place in a log.
#[derive(Clone, Copy)]
struct Place {
    index: u32,
    term: u16,
}

fn write_append(
    term: u16,
    previous: Place,
    commit: u32,
    entries: &[Entry],
    out: &mut Writer,
) -> Result<(), NoMemory>
    requires { length entries.now < 2 ^ 32 }
    ensures { OnOk result (out.new ≡ and_bytes out.old
        (append_row term previous.index previous.term commit (length entries.now)
        (flat_map (spell_entry out.old.version) entries.now))) }
{
    out.put_u8(APPEND)?;
    out.put_u16(term)?;
    out.put_u32(previous.index)?;
    out.put_u16(previous.term)?;
    out.put_u32(commit)?;
    out.put_u32(entries.len() as u32)?;
    write_entries(entries, out)
}

fn write_reply(term: u16, ok: bool, index: u32, out: &mut Writer) -> Result<(), NoMemory>
    ensures { OnOk result (out.new ≡ and_bytes out.old (reply_row term ok index)) }
{
    out.put_u8(REPLY)?;
    out.put_u16(term)?;
    out.put_u8(ok as u8)?;
    out.put_u32(index)
}

fn write_ask(term: u16, last: u32, last_term: u16, out: &mut Writer) -> Result<(), NoMemory>
    ensures { OnOk result (out.new ≡ and_bytes out.old (ask_row term last last_term)) }
{
    out.put_u8(ASK_VOTE)?;
    out.put_u16(term)?;
    out.put_u32(last)?;
    out.put_u16(last_term)
}

fn write_vote(term: u16, granted: bool, out: &mut Writer) -> Result<(), NoMemory>
    ensures { OnOk result (out.new ≡ and_bytes out.old (vote_row term granted)) }
{
    out.put_u8(VOTE)?;
    out.put_u16(term)?;
    out.put_u8(granted as u8)
}

/// Reads a message. `BadField` has the position of the first bad field.
pub fn read(alloc: Global, f: &mut Fields) -> Result<Message, DecodeError>
    ensures ok { IfOk result (λ m. IsRead (parse f.old.version) f.old f.new m) }
    ensures bad { (at : ℕ) → result ≡ Err (DecodeError.BadField at) → IsUnreadable (parse f.old.version) f.old at }
{
    let no_message = f.bad_field();
    let number = f.read_u8()?;
    match number {
        APPEND => read_append(alloc, f),
        REPLY => read_reply(f),
        ASK_VOTE => read_ask(f),
        VOTE => read_vote(f),
        _ => Err(no_message),
    }
}

fn read_append(alloc: Global, f: &mut Fields) -> Result<Message, DecodeError>
    ensures ok { IfOk result (λ m. IsRead (parse_append f.old.version) f.old f.new m) }
    ensures bad { (at : ℕ) → result ≡ Err (DecodeError.BadField at) →
        IsUnreadable (parse_append f.old.version) f.old at }
{
    let term = f.read_u16()?;
    let previous = f.read_u32()?;
    let previous_term = f.read_u16()?;
    let commit = f.read_u32()?;
    let count = f.read_u32()?;
    let entries = read_entries(alloc, count, f)?;
    Ok(Message::Append {
        term,
        previous,
        previous_term,
        commit,
        entries,
    })
}

// Reads a byte that is 0 or 1.
fn read_flag(f: &mut Fields) -> Result<bool, DecodeError>
    ensures ok { IfOk result (λ b. IsRead parse_flag f.old f.new b) }
    ensures bad { (at : ℕ) → result ≡ Err (DecodeError.BadField at) → IsUnreadable parse_flag f.old at }
{
    let no_flag = f.bad_field();
    let byte = f.read_u8()?;
    if byte > 1 {
        return Err(no_flag);
    }
    Ok(byte == 1)
}

fn read_reply(f: &mut Fields) -> Result<Message, DecodeError>
    ensures ok { IfOk result (λ m. IsRead parse_reply f.old f.new m) }
    ensures bad { (at : ℕ) → result ≡ Err (DecodeError.BadField at) → IsUnreadable parse_reply f.old at }
{
    let term = f.read_u16()?;
    let ok = read_flag(f)?;
    let index = f.read_u32()?;
    Ok(Message::Reply { term, ok, index })
}

fn read_ask(f: &mut Fields) -> Result<Message, DecodeError>
    ensures ok { IfOk result (λ m. IsRead parse_ask f.old f.new m) }
    ensures bad { (at : ℕ) → result ≡ Err (DecodeError.BadField at) → IsUnreadable parse_ask f.old at }
{
    let term = f.read_u16()?;
    let last = f.read_u32()?;
    let last_term = f.read_u16()?;
    Ok(Message::AskVote {
        term,
        last,
        last_term,
    })
}

fn read_vote(f: &mut Fields) -> Result<Message, DecodeError>
    ensures ok { IfOk result (λ m. IsRead parse_vote f.old f.new m) }
    ensures bad { (at : ℕ) → result ≡ Err (DecodeError.BadField at) → IsUnreadable parse_vote f.old at }
{
    let term = f.read_u16()?;
    let granted = read_flag(f)?;
    Ok(Message::Vote { term, granted })
}
