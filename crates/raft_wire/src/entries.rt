//! Log entries and their bytes.
ghost use Rattle.std.specs.Prelude.{◌≡◌, ℕ, IfOk, OnOk, Err};
ghost use Rattle.std.specs.List.{flat_map};
ghost use Rattle.iss_request.specs.Fields.{IsRead, IsUnreadable, and_bytes};
ghost use Rattle.iss_request.specs.Parsing.{times};
ghost use Rattle.raft_wire.specs.Entries.{parse_entry, spell_entry};

use iss_request::{DecodeError, Fields, NoMemory, Seq, Writer};
use iss_sb::{Content, read_content, write_content};
use std::alloc::Global;

/// A log entry: the term in which a leader created it, and its content.
#[derive(Drop)]
pub struct Entry {
    pub term: u16,
    pub what: Content,
}

impl Entry {
    /// A copy. The only error is out of memory.
    pub fn copy(&self) -> Result<Entry, NoMemory>
        ensures { IfOk result (λ e. e ≡ self.now) }
    {
        let what = self.what.copy()?;
        Ok(Entry {
            term: self.term,
            what,
        })
    }
}

/// Writes an entry: its term, then its content. The only error is out of memory.
pub fn write_entry(entry: &Entry, out: &mut Writer) -> Result<(), NoMemory>
    ensures { OnOk result (out.new ≡ and_bytes out.old (spell_entry out.old.version entry.now)) }
{
    out.put_u16(entry.term)?;
    write_content(&entry.what, out)
}

/// Writes entries in sequence. The only error is out of memory.
pub fn write_entries(entries: &[Entry], out: &mut Writer) -> Result<(), NoMemory>
    ensures { OnOk result (out.new ≡ and_bytes out.old (flat_map (spell_entry out.old.version) entries.now)) }
{
    for entry in entries {
        write_entry(entry, out)?;
    }
    Ok(())
}

/// Reads an entry. `BadField` has the position of the first bad field.
pub fn read_entry(alloc: Global, f: &mut Fields) -> Result<Entry, DecodeError>
    ensures ok { IfOk result (λ e. IsRead (parse_entry f.old.version) f.old f.new e) }
    ensures bad { (at : ℕ) → result ≡ Err (DecodeError.BadField at) →
        IsUnreadable (parse_entry f.old.version) f.old at }
{
    let term = f.read_u16()?;
    let what = read_content(alloc, f)?;
    Ok(Entry { term, what })
}

/// Reads `count` entries. `BadField` has the position of the first bad field.
pub fn read_entries(alloc: Global, count: u32, f: &mut Fields) -> Result<Seq<Entry>, DecodeError>
    ensures ok { IfOk result (λ es. IsRead (times count (parse_entry f.old.version)) f.old f.new es) }
    ensures bad { (at : ℕ) → result ≡ Err (DecodeError.BadField at) →
        IsUnreadable (times count (parse_entry f.old.version)) f.old at }
{
    let mut entries = Seq::new(alloc);
    for _ in 0..count {
        let entry = read_entry(alloc, f)?;
        entries.push(entry)?;
    }
    Ok(entries)
}
