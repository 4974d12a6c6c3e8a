//! What a log entry (Raft) or a tree node (HotStuff) holds, and its encoding.
ghost use Rattle.std.specs.Prelude.{◌≡◌, ℕ, IfOk, OnOk, Err};
ghost use Rattle.iss_request.specs.Fields.{IsRead, IsUnreadable, and_bytes};
ghost use Rattle.iss_sb.specs.Content.{parse_content, spell_content};

use iss_request::{
    Batch, DecodeError, Fields, NoMemory, Writer, read_batch_value, write_batch_value,
};
use std::alloc::Global;

const NIL: u8 = 0;

const HOLDS: u8 = 1;

const MARK: u8 = 2;

/// What a log entry or a tree node holds for a slot.
#[derive(Drop)]
pub enum Content {
    /// Nil: the slot gets no batch.
    Nil,
    /// A batch.
    Holds(Batch),
    /// The mark of a new leader, which fills no slot.
    Mark,
}

impl Content {
    /// A copy. The only error is out of memory.
    pub fn copy(&self) -> Result<Content, NoMemory>
        ensures { IfOk result (λ w. w ≡ self.now) }
    {
        match self {
            Content::Nil => Ok(Content::Nil),
            Content::Holds(batch) => Ok(Content::Holds(batch.copy()?)),
            Content::Mark => Ok(Content::Mark),
        }
    }
}

/// Appends the encoding: the kind, and the value of a batch. The only error is out of memory.
pub fn write_content(content: &Content, out: &mut Writer) -> Result<(), NoMemory>
    ensures { OnOk result (out.new ≡ and_bytes out.old (spell_content out.old.version content.now)) }
{
    match content {
        Content::Nil => out.put_u8(NIL),
        Content::Holds(batch) => {
            out.put_u8(HOLDS)?;
            write_batch_value(batch, out)
        }
        Content::Mark => out.put_u8(MARK),
    }
}

/// Decodes a content. `BadField` names the kind if there is no such kind, and the value if it is no batch.
// rule: Raft: An entry holds nil, a batch or a mark
pub fn read_content(alloc: Global, f: &mut Fields) -> Result<Content, DecodeError>
    ensures ok { IfOk result (λ w. IsRead (parse_content f.old.version) f.old f.new w) }
    ensures bad { (at : ℕ) → result ≡ Err (DecodeError.BadField at) →
        IsUnreadable (parse_content f.old.version) f.old at }
{
    let no_kind = f.bad_field();
    let kind = f.read_u8()?;
    match kind {
        NIL => Ok(Content::Nil),
        HOLDS => {
            let batch = read_batch_value(alloc, f)?;
            Ok(Content::Holds(batch))
        }
        MARK => Ok(Content::Mark),
        _ => Err(no_kind),
    }
}
