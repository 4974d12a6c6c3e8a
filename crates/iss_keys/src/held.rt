//! The trees of a key, which may be shared with a directory.

ghost use Rattle.std.specs.Prelude.{◌≡◌};

use crate::levels::KeyTrees;
use std::marker::Model;
use std::rc::Rc;

#[derive(Drop)]
enum Held {
    Own(KeyTrees),
    Shared(Rc<KeyTrees>),
}

/// The trees of a key, with one owner or several.
#[derive(Drop)]
pub struct HeldTrees {
    held: Held,
}

impl Model for HeldTrees {
    ghost use Rattle.iss_keys.specs.Levels.{KeySeed};

    ghost Value = { KeySeed };

    ghost use Rattle.iss_keys.specs.Internal.Held.{seed_in};

    ghost view = { λ t. seed_in t.held };
}

impl HeldTrees {
    /// Trees with one owner.
    pub fn own(trees: KeyTrees) -> HeldTrees
        ensures { result ≡ trees }
    {
        HeldTrees {
            held: Held::Own(trees),
        }
    }

    /// Trees with several owners.
    pub fn shared(trees: Rc<KeyTrees>) -> HeldTrees
        ensures { result ≡ trees.value }
    {
        HeldTrees {
            held: Held::Shared(trees),
        }
    }

    /// The trees.
    pub fn trees(&self) -> &KeyTrees
        ensures { result.now ≡ self.now }
    {
        match &self.held {
            Held::Own(trees) => trees,
            Held::Shared(trees) => trees.as_ref(),
        }
    }
}
