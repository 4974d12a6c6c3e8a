//! Heights with their ranges: that of a key, and that of one of its trees.

ghost use Rattle.std.specs.Prelude.{◌≡◌, ◌-◌, ◌<◌, ◌≤◌};
ghost use Rattle.iss_base.specs.Heights.{IsHeight};

use iss_base::heights::has_two_levels;

// The height of a bottom tree.
const BOTTOM: u8 = 10;

/// The height of a key.
#[derive(Clone, Copy)]
pub struct Height {
    pub levels: u8,
    ghost is_height: { IsHeight levels },
}

/// The height of a tree. No tree is higher than 12.
#[derive(Clone, Copy)]
pub struct TreeHeight {
    pub levels: u8,
    ghost small: { levels ≤ 12 },
}

impl Height {
    /// The height of the key's only or its top tree.
    pub fn of_top(self) -> TreeHeight
        ensures two { 12 < self.levels → result.levels ≡ self.levels - 10 }
        ensures one { self.levels ≤ 12 → result.levels ≡ self.levels }
    {
        if has_two_levels(self.levels) {
            TreeHeight {
                levels: self.levels - BOTTOM,
            }
        } else {
            TreeHeight {
                levels: self.levels,
            }
        }
    }
}

impl TreeHeight {
    /// The height of a bottom tree.
    pub fn of_bottom() -> TreeHeight
        ensures { result.levels ≡ 10 }
    {
        TreeHeight { levels: BOTTOM }
    }
}
