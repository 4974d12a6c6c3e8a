// Room that a journal keeps for later entries.
ghost use Rattle.std.specs.Prelude.{◌≡◌, ◌+◌, ◌≤◌, ◌<◌};

/// Room for `entries` entries, the next of which has fewer than `limit` bytes. No room if `limit` is 0.
#[derive(Clone, Copy, Debug, Drop)]
pub(crate) struct Reserved {
    pub(crate) entries: u64,
    pub(crate) limit: u64,
}

// The room that is left after an entry of `bytes` bytes, which takes six more: a gate, four bytes of length and a
// closed gate.
#[inline(always)]
pub(crate) fn left_behind(reserved: Reserved, bytes: u64) -> Reserved
    ensures { 0 < result.limit → (reserved.entries ≡ result.entries + 1) × (1 ≤ result.entries)
        × (reserved.limit ≡ result.limit + 6 + bytes) }
{
    if reserved.entries <= 1 {
        return Reserved {
            entries: 0,
            limit: 0,
        };
    }
    Reserved {
        entries: reserved.entries - 1,
        limit: reserved.limit.saturating_sub(bytes).saturating_sub(6),
    }
}
