//! Heights of keys, and how long a signature is.
ghost use Rattle.std.specs.Prelude.{◌≡◌, ◌≤◌};
ghost use Rattle.iss_base.specs.Heights.{digests_of_height, has_two_levels, is_height};

/// Whether a key may have this height.
// rule: Signatures: A key's height is from 2 to 20
pub fn is_height(height: u8) -> bool
    ensures { result ≡ is_height height }
{
    2 <= height && height <= 20
}

/// Whether a key of this height has two levels: a top tree, with a bottom tree of height 10 under each of its leaves.
pub fn has_two_levels(height: u8) -> bool
    ensures { result ≡ has_two_levels height }
{
    12 < height
}

/// How many digests of 32 bytes a signature by a key of this height has. They follow its height and its leaf's number.
#[tactic(auto, unfolding(crate::specs::Heights::digests_of_height))]
pub fn digests_of_height(height: u8) -> usize
    ensures value { result ≡ digests_of_height height }
    ensures few { result ≤ 389 }
{
    if has_two_levels(height) {
        134 + height as usize
    } else {
        67 + height as usize
    }
}
