//! The digest of a node without allocation: the parts of its string go to the hasher one by one.
ghost use Rattle.std.specs.Prelude.{◌≡◌};
ghost use Rattle.iss_request.specs.Digest.{digest};
ghost use Rattle.hs_tree.specs.Tree.{plain_string, string_in, value_digest, value_of, viewed_string};

use crate::signing::{NODE, VIEWED_NODE, kind_of};
use iss_request::{Value, batch_digest, digest_of};
use iss_sb::Content;
use sha2::{Digest, Sha256};

// The digest of the content's value, zeros for a mark.
fn value_digest(version: u8, what: &Content) -> [u8; 32]
    ensures { result ≡ value_digest version (value_of what.now) }
{
    match what {
        Content::Nil => digest_of(version, &Value::Nil),
        Content::Holds(batch) => batch_digest(version, batch),
        Content::Mark => [0; 32],
    }
}

/// The digest of the node with this parent and content; in chained HotStuff, of the one with this view.
pub fn digest_of_node(version: u8, view: Option<u32>, parent: &[u8; 32], what: &Content) -> [u8; 32]
    ensures { result ≡ digest (string_in version view parent.now what.now) }
{
    match view {
        None => plain_digest(version, parent, what),
        Some(view) => viewed_digest(version, view, parent, what),
    }
}

// rule: HotStuff: A node's digest covers its parent, its kind and the digest of its value
fn plain_digest(version: u8, parent: &[u8; 32], what: &Content) -> [u8; 32]
    ensures { result ≡ digest (plain_string version 0 parent.now what.now) }
{
    let held = value_digest(version, what);
    let mut hasher = Sha256::new();
    hasher.update([NODE]);
    hasher.update(parent);
    hasher.update([kind_of(what)]);
    hasher.update(held);
    hasher.finalize()
}

// rule: Chained HotStuff: A node's digest covers its view
fn viewed_digest(version: u8, view: u32, parent: &[u8; 32], what: &Content) -> [u8; 32]
    ensures { result ≡ digest (viewed_string version view parent.now what.now) }
{
    let held = value_digest(version, what);
    let mut hasher = Sha256::new();
    hasher.update([VIEWED_NODE]);
    hasher.update(view.to_be_bytes());
    hasher.update(parent);
    hasher.update([kind_of(what)]);
    hasher.update(held);
    hasher.finalize()
}
