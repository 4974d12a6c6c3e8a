//! The places of a cache: sets of a few entries. The hash of an entry selects its set.

ghost use Rattle.std.specs.Prelude.{◌≡◌, ◌<◌, length, slice_get};

use std::alloc::AllocFailed;

/// How many entries a set has.
pub const SET: usize = 4;

/// Puts an entry first; the last one is dropped.
pub(crate) fn put_first<T: Drop>(places: &mut [Option<T>], thing: T)
    requires { 0 < length places.old }
    ensures { slice_get places.new 0 ≡ Some (Some thing) }
{
    places.rotate_right(1);
    places[0] = Some(thing);
}

/// Fills the places with empty entries, as far as memory allows.
pub(crate) fn fill_places<T: Drop>(
    places: &mut Vec<Option<T>>,
    most: usize,
) -> Result<(), AllocFailed<Option<T>>> {
    for _i in places.len()..most {
        places.push(None)?;
    }
    Ok(())
}

/// Continues a hash with one more word. The result depends on each bit of both.
pub(crate) fn hash_on(hash: u64, word: u64) -> u64 {
    let mixed = (hash ^ word).wrapping_mul(0x9e37_79b9_7f4a_7c15);
    mixed ^ (mixed >> 32)
}

/// The eight bytes at a place, as a number. It is 0 if there are fewer.
pub(crate) fn word_at(bytes: &[u8], place: usize) -> u64 {
    let Some(rest) = bytes.get(place..) else {
        return 0;
    };
    match rest.first_chunk::<8>() {
        Some(word) => u64::from_le_bytes(*word),
        None => 0,
    }
}
