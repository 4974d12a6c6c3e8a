// One file of a memory disk.
ghost use Rattle.std.specs.Prelude.{◌≡◌, ◌+◌, ◌-◌, ◌<◌, ◌≤◌, ◌++◌, min, max, true, false, List, ℕ, length, take, drop, vec_len, vec_capacity, IfOk, OnOk, [], ◌∷◌};
ghost use Rattle.iss_disk.specs.File.{settled, overwritten, wrote, shortened, synced, restarted};
ghost use Rattle.iss_disk.specs.States.{states, after, newest, is_pending, calls_of, IsStored};
ghost use Rattle.iss_disk.specs.Internal.Lists.{HasSpare, IsNow};
ghost use Rattle.iss_disk.specs.NoteViews.{calls_in, room_in};
ghost use Rattle.iss_disk.specs.declared.call.Call.{Call};
ghost use Rattle.iss_disk.specs.declared.call.Recent.{Recent};

use crate::NoMemory;
use crate::call::{Call, Recent};
use crate::notes::Notes;
use std::alloc::{AllocError, Global};

// The most bytes that an append may write and still be recorded as one number.
const LONGEST_NOTED: usize = 4_294_967_295;

// Up to this many bytes are copied one by one.
const FEW_BYTES: usize = 16;

/// A file in memory, with the list of the calls on it and the bytes that they removed, so that each call can be undone.
#[derive(Drop)]
pub struct StoredFile {
    pub(crate) name: Vec<u8>,
    pub(crate) content: Vec<u8>,
    // What was synced is the content up to `same`, then the bytes of `behind`, then the content from `resumes` on. The
    // bytes of `behind` were overwritten or cut off after the sync. So a synced file holds its bytes once, and a sync
    // copies nothing.
    same: usize,
    behind: Vec<u8>,
    resumes: usize,
    // Whether the file was written or cut since the last sync.
    pending: bool,
    // The calls, except for the last ones, which may become one note.
    calls: Notes,
    recent: Recent,
    // The bytes that the calls removed, oldest first. Bytes that are still in the file are recorded nowhere else.
    lost: Vec<u8>,
    ghost stored: { IsStored (states (calls_of recent ++ calls_in calls) lost.items content.items)
        content.items behind.items same resumes },
    ghost waits: { pending ≡ is_pending (calls_of recent ++ calls_in calls) },
    // A sync, a restart and saving the synced bytes allocate nothing.
    ghost room_to_sync: { vec_len content ≤ vec_capacity behind },
    ghost room_to_part: { same + vec_len behind + (vec_len content - resumes) ≤ vec_capacity behind },
    ghost room_to_restart: { same + vec_len behind + (vec_len content - resumes) ≤ vec_capacity content },
    ghost call_to_restart: { pending ≡ true → length (calls_of recent) < room_in calls },
    ghost room_to_lose: { pending ≡ true → vec_len lost + vec_len content ≤ vec_capacity lost },
}

// Makes room for `more` bytes. Only the existing bytes are moved, not the spare room, as a list by itself would: the
// two lists with room for a whole file are mostly empty.
fn make_room(list: &mut Vec<u8>, more: usize) -> Result<(), NoMemory>
    ensures same { IsNow list.old.items list.old list.new }
    ensures room { OnOk result (HasSpare more list.new) }
{
    if more <= list.capacity() - list.len() {
        return Ok(());
    }
    let least = list.len().checked_add(more).ok_or(NoMemory)?;
    let mut longer = Vec::new(*list.allocator());
    longer.reserve(least.max(list.capacity().saturating_mul(2)))?;
    let _ = longer.extend_from_slice(list);
    *list = longer;
    Ok(())
}

// Writes bytes over the existing ones, from offset `at`.
fn overwrite(content: &mut Vec<u8>, at: usize, bytes: &[u8])
    requires within { at ≤ vec_len content.old }
    requires room { HasSpare (length bytes.now) content.old }
    ensures now { IsNow (overwritten at bytes.now content.old.items) content.old content.new }
    ensures longer { vec_len content.old ≤ vec_len content.new }
    ensures len { vec_len content.new ≤ max (vec_len content.old) (at + length bytes.now) }
{
    if bytes.len() <= content.len() - at {
        content[at..at + bytes.len()].copy_from_slice(bytes);
    } else {
        content.truncate(at);
        let _ = content.extend_from_slice(bytes);
    }
}

// Appends bytes. Like `put_before_some` it is rarely called and uses much of the stack, so both are not inlined.
#[cold]
#[inline(never)]
fn put_behind(behind: &mut Vec<u8>, tail: &[u8])
    requires room { HasSpare (length tail.now) behind.old }
    ensures { IsNow (behind.old.items ++ tail.now) behind.old behind.new }
{
    let _ = behind.extend_from_slice(tail);
}

// Puts bytes before existing ones.
#[cold]
#[inline(never)]
fn put_before_some(behind: &mut Vec<u8>, front: &[u8])
    requires room { HasSpare (length front.now) behind.old }
    ensures { IsNow (front.now ++ behind.old.items) behind.old behind.new }
{
    let count = behind.len();
    let _ = behind.extend_from_slice(front);
    behind.rotate_left(count);
}

// Puts bytes before the existing ones, of which there are mostly none.
fn put_before(behind: &mut Vec<u8>, front: &[u8])
    requires room { HasSpare (length front.now) behind.old }
    ensures { IsNow (front.now ++ behind.old.items) behind.old behind.new }
{
    if behind.is_empty() {
        let _ = behind.extend_from_slice(front);
    } else {
        put_before_some(behind, front);
    }
}

// Replaces everything from an offset on by these bytes.
fn put_back(content: &mut Vec<u8>, same: usize, behind: &[u8])
    requires within { same ≤ vec_len content.old }
    requires room { same + length behind.now ≤ vec_capacity content.old }
    ensures { IsNow (take same content.old.items ++ behind.now) content.old content.new }
{
    content.truncate(same);
    let _ = content.extend_from_slice(behind);
}

// Records the last calls in the list.
fn note_all(calls: &mut Notes, recent: Recent)
    requires { length (calls_of recent) ≤ room_in calls.old }
    ensures calls { calls_in calls.new ≡ calls_of recent ++ calls_in calls.old }
    ensures room { room_in calls.old ≤ room_in calls.new + length (calls_of recent) }
{
    match recent {
        Recent::Nothing => (),
        Recent::Wrote { at } => calls.push(Call::ToEnd { at, over: 0 }),
        Recent::Kept { at } => calls.push(Call::Kept { at }),
        Recent::Opening { kept } => {
            calls.push(Call::Kept { at: kept });
            calls.push(Call::Within {
                at: kept.saturating_sub(1),
                len: 1,
            });
        }
    }
}

// Records a sync of a file of `end` bytes, and returns the calls that are not in the list yet. So an append of a
// journal is one note.
#[inline(always)]
fn note_sync(calls: &mut Notes, recent: Recent, end: usize) -> Recent
    requires { length (calls_of recent) < room_in calls.old }
    ensures states { (lost content : List ℕ) → length content ≡ end →
        states (calls_of result ++ calls_in calls.new) lost content
        ≡ after synced (states (calls_of recent ++ calls_in calls.old) lost content) }
    ensures waits { is_pending (calls_of result ++ calls_in calls.new) ≡ false }
    ensures room { room_in calls.old + length (calls_of result) ≤ room_in calls.new + length (calls_of recent) + 1 }
{
    match recent {
        Recent::Wrote { at } => Recent::Kept { at },
        Recent::Opening { kept } if kept <= end && end - kept <= LONGEST_NOTED => {
            calls.push_opened((end - kept) as u32);
            Recent::Nothing
        }
        _ => {
            note_all(calls, recent);
            calls.push(Call::Synced);
            Recent::Nothing
        }
    }
}

// Appends bytes one by one.
#[inline(always)]
fn put_few(content: &mut Vec<u8>, bytes: &[u8])
    requires room { HasSpare (length bytes.now) content.old }
    ensures { IsNow (content.old.items ++ bytes.now) content.old content.new }
{
    for i in 0..bytes.len() {
        content.push_reserved(bytes[i]);
    }
}

// Appends bytes. A small entry was just written byte by byte, and a wider read of it would stall until those writes
// reach the cache. So it is copied byte by byte too.
#[inline(always)]
fn put_all(content: &mut Vec<u8>, bytes: &[u8])
    requires room { HasSpare (length bytes.now) content.old }
    ensures { IsNow (content.old.items ++ bytes.now) content.old content.new }
{
    if bytes.len() <= FEW_BYTES {
        put_few(content, bytes);
    } else {
        let _ = content.extend_from_slice(bytes);
    }
}

// Records everything from offset `at` as removed.
fn take_tail(content: &[u8], lost: &mut Vec<u8>, at: usize)
    requires within { at ≤ length content.now }
    requires room { HasSpare (length content.now - at) lost.old }
    ensures { IsNow (lost.old.items ++ drop at content.now) lost.old lost.new }
{
    let _ = lost.extend_from_slice(&content[at..]);
}

// Records the bytes that a write of `len` bytes at offset `at` replaces, and returns the call that undoes it.
// rule: Disk: Undoing a memory disk's calls gives each state that its file went through
fn take_away(content: &[u8], lost: &mut Vec<u8>, at: usize, len: usize) -> Call
    requires within { at ≤ length content.now }
    requires room { HasSpare (min len (length content.now - at)) lost.old }
    ensures undoes { (calls : List Call) (bytes : List ℕ) → length bytes ≡ len →
        states (result ∷ calls) lost.new.items (overwritten at bytes content.now)
        ≡ after (wrote at bytes) (states calls lost.old.items content.now) }
    ensures waits { (calls : List Call) → is_pending (result ∷ calls) ≡ true }
    ensures len { vec_len lost.new ≤ vec_len lost.old + min len (length content.now - at) }
    ensures capacity { vec_capacity lost.old ≤ vec_capacity lost.new }
{
    if len < content.len() - at {
        let _ = lost.extend_from_slice(&content[at..at + len]);
        return Call::Within { at, len };
    }
    let _ = lost.extend_from_slice(&content[at..]);
    Call::ToEnd {
        at,
        over: content.len() - at,
    }
}

// Saves the synced bytes at the end of the content, of which there are mostly none.
#[inline(always)]
fn close(content: &[u8], behind: &mut Vec<u8>, resumes: usize)
    requires room { HasSpare (length content.now - resumes) behind.old }
    ensures { IsNow (behind.old.items ++ drop resumes content.now) behind.old behind.new }
{
    if resumes < content.len() {
        put_behind(behind, &content[resumes..]);
    }
}

// Saves all synced bytes from offset `at` on before they change. Returns up to which offset the content is still what
// was synced.
#[inline(always)]
fn part(content: &[u8], behind: &mut Vec<u8>, same: usize, resumes: usize, at: usize) -> usize
    requires within { same ≤ length content.now }
    requires room { same + vec_len behind.old + (length content.now - resumes) ≤ vec_capacity behind.old }
    ensures before { result ≤ at }
    ensures no_more { result ≤ same }
    ensures synced { take result content.now ++ behind.new.items ≡ take same content.now
        ++ (behind.old.items ++ drop resumes content.now) }
    ensures len { result + vec_len behind.new ≡ same + vec_len behind.old + (length content.now - resumes) }
    ensures capacity { vec_capacity behind.old ≤ vec_capacity behind.new }
{
    close(content, behind, resumes);
    if at >= same {
        return same;
    }
    put_before(behind, &content[at..same]);
    at
}

impl StoredFile {
    ghost use Rattle.iss_disk.specs.Calls.{Allows, Takes, Restarts};
    ghost use Rattle.iss_disk.specs.StoredViews.{Becomes, IsAtRest, IsGate, MayWrite, history_of, room_of};

    pub(crate) fn new(alloc: Global, name: &str) -> Result<StoredFile, AllocError>
        ensures name { IfOk result (λ file. file.name.items ≡ name.now) }
        ensures empty { IfOk result (λ file. history_of file ≡ settled [] ∷ []) }
    {
        Ok(StoredFile {
            name: Vec::from_slice(alloc, name.as_bytes())?,
            content: Vec::new(alloc),
            same: 0,
            behind: Vec::new(alloc),
            resumes: 0,
            pending: false,
            calls: Notes::new(alloc),
            recent: Recent::Nothing,
            lost: Vec::new(alloc),
        })
    }

    pub(crate) fn reserve(&mut self, calls: u64, bytes: u64) -> Result<(), NoMemory>
        ensures room { OnOk result (Allows calls bytes (room_of self.new)) }
        ensures more { Takes 0 0 (room_of self.old) (room_of self.new) }
        ensures name { self.new.name.items ≡ self.old.name.items }
        ensures same { history_of self.new ≡ history_of self.old }
    {
        let bytes = bytes as usize;
        // Three more than requested: two for the last calls, and one since a restart allocates nothing.
        let calls = (calls as usize).checked_add(3).ok_or(NoMemory)?;
        self.calls.reserve(calls)?;
        self.content.reserve(bytes)?;
        let wanted = self.content.len().checked_add(bytes).ok_or(NoMemory)?;
        make_room(&mut self.lost, wanted)?;
        let apart = wanted.saturating_sub(self.behind.len());
        make_room(&mut self.behind, apart)
    }

    // Writes one byte over the last byte before what was just synced, as opening a gate does. Only that byte is saved.
    // rule: Disk: Synced bytes stay until the next sync, whatever is written over or cut off
    #[inline(always)]
    fn write_over(&mut self, at: usize, byte: u8)
        requires room { Allows 1 1 (room_of self.old) }
        requires gate { IsGate at self.old }
        ensures { Becomes (wrote at (byte ∷ [])) 1 self.old self.new }
    {
        let former = self.content[at];
        self.behind.push_reserved(former);
        self.same = at;
        self.resumes = at + 1;
        self.content[at] = byte;
        self.pending = true;
        self.recent = Recent::Opening { kept: at + 1 };
        self.lost.push_reserved(former);
    }

    // Writes bytes at the end of a file that is all synced, as an append of a journal does.
    #[inline(always)]
    fn write_behind(&mut self, bytes: &[u8])
        requires room { Allows 1 (length bytes.now) (room_of self.old) }
        requires rest { IsAtRest self.old }
        ensures { Becomes (wrote (length self.old.content.items) bytes.now) (length bytes.now) self.old self.new }
    {
        let at = self.same;
        put_all(&mut self.content, bytes);
        self.resumes = self.content.len();
        self.pending = true;
        self.recent = Recent::Wrote { at };
    }

    // Writes bytes over the existing ones, and past the end.
    #[cold]
    #[inline(never)]
    fn write_all(&mut self, at: usize, bytes: &[u8])
        requires { MayWrite at (length bytes.now) self.old }
        ensures { Becomes (wrote at bytes.now) (length bytes.now) self.old self.new }
    {
        self.same = part(&self.content, &mut self.behind, self.same, self.resumes, at);
        note_all(&mut self.calls, self.recent);
        self.recent = Recent::Nothing;
        let call = take_away(&self.content, &mut self.lost, at, bytes.len());
        overwrite(&mut self.content, at, bytes);
        self.resumes = self.content.len();
        self.pending = true;
        self.calls.push(call);
    }

    #[inline(always)]
    pub(crate) fn write(&mut self, at: usize, bytes: &[u8])
        requires { MayWrite at (length bytes.now) self.old }
        ensures { Becomes (wrote at bytes.now) (length bytes.now) self.old self.new }
    {
        let at_rest = self.behind.is_empty() && self.same == self.content.len();
        match (self.recent, bytes) {
            (Recent::Nothing, _) if at_rest && at == self.same => self.write_behind(bytes),
            (Recent::Kept { at: kept }, [byte])
                if at_rest && at < self.same && kept > at && kept - at == 1 => {
                self.write_over(at, *byte);
            }
            _ => self.write_all(at, bytes),
        }
    }

    pub(crate) fn cut(&mut self, len: usize)
        requires { MayWrite len 0 self.old }
        ensures { Becomes (shortened len) 0 self.old self.new }
    {
        self.same = part(
            &self.content,
            &mut self.behind,
            self.same,
            self.resumes,
            len,
        );
        note_all(&mut self.calls, self.recent);
        self.recent = Recent::Nothing;
        let by = self.content.len() - len;
        take_tail(&self.content, &mut self.lost, len);
        self.content.truncate(len);
        self.resumes = len;
        self.pending = true;
        self.calls.push(Call::Cut { by });
    }

    #[inline(always)]
    pub(crate) fn sync(&mut self)
        requires { 1 ≤ (room_of self.old).calls }
        ensures { Becomes synced 0 self.old self.new }
    {
        self.behind.clear();
        self.same = self.content.len();
        self.resumes = self.same;
        self.pending = false;
        self.recent = note_sync(&mut self.calls, self.recent, self.same);
    }

    /// A crash that leaves what was synced.
    pub(crate) fn restart(&mut self)
        ensures states { Restarts (history_of self.old) (history_of self.new) }
        ensures name { self.new.name.items ≡ self.old.name.items }
    {
        if self.pending {
            self.undo();
        }
    }

    // Removes what was written since the last sync, and restores what was synced.
    fn undo(&mut self)
        requires { self.old.pending ≡ true }
        ensures states { history_of self.new ≡ after restarted (history_of self.old) }
        ensures name { self.new.name.items ≡ self.old.name.items }
    {
        note_all(&mut self.calls, self.recent);
        self.recent = Recent::Nothing;
        let at = self.same;
        let over = self.content.len() - at;
        take_tail(&self.content, &mut self.lost, at);
        close(&self.content, &mut self.behind, self.resumes);
        put_back(&mut self.content, at, &self.behind);
        self.behind.clear();
        self.same = self.content.len();
        self.resumes = self.same;
        self.pending = false;
        self.calls.push(Call::Restarted { at, over });
    }
}
