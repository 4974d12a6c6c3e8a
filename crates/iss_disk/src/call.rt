// The calls that a memory disk records for a file.

/// A call that changed or synced a file, with what is needed to undo it. The bytes that it removed are kept in a
/// separate list.
#[derive(Clone, Copy, Debug, PartialEq, Eq)]
pub enum Call {
    /// A write from offset `at` to the end of the file. It replaced the last `over` bytes.
    ToEnd { at: usize, over: usize },
    /// A write of `len` bytes at offset `at`, over as many existing bytes.
    Within { at: usize, len: usize },
    /// The last `by` bytes were cut off.
    Cut { by: usize },
    /// A write from offset `at`, where the file ended, followed by a sync.
    Kept { at: usize },
    /// A journal's append: `len` bytes written at the end and synced, then one byte written over the byte before them,
    /// and synced.
    Opened { len: usize },
    /// A sync.
    Synced,
    /// A crash that left what was synced. It removed the last `over` bytes, which began at offset `at`.
    Restarted { at: usize, over: usize },
}

/// The last calls on a file, while they may still turn out to be one append of a journal, which is recorded as one
/// note.
#[derive(Clone, Copy, Debug, PartialEq, Eq)]
pub enum Recent {
    /// All calls are in the list.
    Nothing,
    /// A write from offset `at`, where the file ended.
    Wrote { at: usize },
    /// Such a write, followed by a sync.
    Kept { at: usize },
    /// Such a write and a sync, then a write of one byte over the byte before offset `kept`.
    Opening { kept: usize },
}
