//! A hashed string, as the book of strings keeps it. Most of the bytes that a cluster hashes are of values, which the
//! logs hold anyway: as a value a string shares its requests with them.
ghost use Rattle.std.specs.Prelude.{◌≡◌, IfOk, IsTrue};
ghost use Rattle.iss_request.specs.Formats.{value_string};

use iss_request::{Bytes, NoMemory, Value, value_string};
use std::alloc::Global;
use std::marker::Model;

// What is kept of a string.
#[derive(Drop)]
enum Held {
    // all of it
    Copy(Bytes),
    // the value whose string it is, in a version of the formats
    Shared { version: u8, value: Value },
}

/// A hashed string, which contracts see as its bytes.
#[derive(Drop)]
pub(crate) struct Text {
    held: Held,
}

impl Model for Text {
    ghost use Rattle.std.specs.Prelude.{ℕ, List};
    ghost use Rattle.iss_world.specs.Internal.Texts.{held_string};

    ghost Value = { List ℕ };

    ghost view = { λ t. held_string t.held };
}

impl Text {
    /// The string with these bytes.
    pub(crate) fn of_bytes(string: Bytes) -> Text
        ensures { result ≡ string }
    {
        Text {
            held: Held::Copy(string),
        }
    }

    /// The string of a value.
    pub(crate) fn of_value(version: u8, value: &Value) -> Result<Text, NoMemory>
        ensures { IfOk result (λ t. t ≡ value_string version value.now) }
    {
        Ok(Text {
            held: Held::Shared {
                version,
                value: value.copy()?,
            },
        })
    }

    /// Whether these bytes are kept as they are.
    pub(crate) fn copies(&self, bytes: &[u8]) -> bool
        ensures { IsTrue result → self.now ≡ bytes.now }
    {
        match &self.held {
            Held::Copy(all) => all.as_slice() == bytes,
            Held::Shared { .. } => false,
        }
    }

    /// The bytes.
    pub(crate) fn bytes(&self, alloc: Global) -> Result<Bytes, NoMemory>
        ensures { IfOk result (λ b. b ≡ self.now) }
    {
        match &self.held {
            Held::Copy(bytes) => bytes.copy(),
            Held::Shared { version, value } => value_string(alloc, *version, value),
        }
    }
}
