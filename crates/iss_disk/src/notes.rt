// The list of the calls on a file of a memory disk.
ghost use Rattle.std.specs.Prelude.{◌≤◌, reverse, vec_len};
ghost use Rattle.iss_disk.specs.Notes.{newest_behind};

use crate::NoMemory;
use crate::call::Call;
use std::alloc::Global;

/// A call, and how many gates had been opened before it.
#[derive(Clone, Copy, Debug, Drop)]
pub struct Placed {
    pub(crate) call: Call,
    pub(crate) behind: usize,
}

/// The calls on a file. Nearly all of them are appends of a journal, each of which takes one number.
#[derive(Drop)]
pub struct Notes {
    // For each append, how many bytes it wrote after the gate that it opened.
    opened: Vec<u32>,
    // All other calls.
    others: Vec<Placed>,
    ghost placed: { newest_behind (reverse others.items) ≤ vec_len opened },
}

impl Notes {
    ghost use Rattle.std.specs.Prelude.{◌≡◌, ◌+◌, ◌≤◌, [], ◌∷◌, OnOk};
    ghost use Rattle.iss_disk.specs.NoteViews.{calls_in, room_in};
    ghost use Rattle.iss_disk.specs.declared.call.Call.{Call};

    pub(crate) fn new(alloc: Global) -> Notes
        ensures { calls_in result ≡ [] }
    {
        Notes {
            opened: Vec::new(alloc),
            others: Vec::new(alloc),
        }
    }

    // Makes room for `calls` calls.
    pub(crate) fn reserve(&mut self, calls: usize) -> Result<(), NoMemory>
        ensures room { OnOk result (calls ≤ room_in self.new) }
        ensures no_less { room_in self.old ≤ room_in self.new }
        ensures same { calls_in self.new ≡ calls_in self.old }
    {
        self.opened.reserve(calls)?;
        self.others.reserve(calls)?;
        Ok(())
    }

    // Records an append: `len` bytes written at the end and synced, then the gate before them opened and synced.
    // rule: Disk: A note keeps its calls in their order
    #[inline(always)]
    pub(crate) fn push_opened(&mut self, len: u32)
        requires { 1 ≤ room_in self.old }
        ensures calls { calls_in self.new ≡ Call.Opened len ∷ calls_in self.old }
        ensures room { room_in self.old ≤ room_in self.new + 1 }
    {
        self.opened.push_reserved(len);
    }

    // Records another call.
    pub(crate) fn push(&mut self, call: Call)
        requires { 1 ≤ room_in self.old }
        ensures calls { calls_in self.new ≡ call ∷ calls_in self.old }
        ensures room { room_in self.old ≤ room_in self.new + 1 }
    {
        self.others.push_reserved(Placed {
            call,
            behind: self.opened.len(),
        });
    }
}
