//! A directory's keys, and those that it hands out, compared with another program's results at height 2. Numbers,
//! heights and leaves are parameters, so that the tactics evaluate no key.
ghost use Rattle.std.specs.Prelude.{◌<◌, ◌≤◌, ◌^◌, IfSome, length, slice_get};
ghost use Rattle.iss_base.specs.Heights.{IsHeight};

use iss_keys::{Directory, Keys, PublicKey};
use sha2::{Digest, Sha256};
use std::alloc::Global;
use std::test::Fail;

// The root of node 0, and the digest of its signature of one zero byte with leaf 1.
const ROOT_NODE_0: &[u8] = b"\x96\x71\x08\x3a\xf5\xdd\x53\xd3\xbb\xd4\x27\xf4\x70\xb9\xba\x27\
      \xe6\x2d\xd4\x22\x0b\x25\xe4\x1c\xc9\x5b\x5a\x0f\x31\xfd\xfb\x1f";

const SIGNED_NODE_0: &[u8] = b"\xfb\x31\x89\x14\x23\xb1\xbb\x80\x88\xe0\x3a\x00\x0b\x8a\x92\x95\
      \x98\x3b\xd9\x52\xa4\x2f\x17\x92\xe4\x57\x31\x25\xe0\x8c\xa7\x61";

// The root of client 2.
const ROOT_CLIENT_2: &[u8] = b"\x66\x8c\xe5\x95\xb7\x89\x2b\xfb\x1f\x1f\x22\x0d\x21\x06\x6f\xdf\
      \x7f\xde\x43\x7c\xcf\x38\x44\x2d\x27\x21\x6f\xfc\x36\x4c\xb3\x04";

fn has_root(key: Option<PublicKey>, root: &[u8]) -> bool {
    match key {
        Some(key) => key.root().as_slice() == root,
        None => false,
    }
}

// Whether a directory of two nodes and three clients has the keys of their numbers, and no others.
fn has_roots(all: &Directory) -> bool {
    has_root(all.node_key(0), ROOT_NODE_0)
        && has_root(all.client_key(2), ROOT_CLIENT_2)
        && all.node_key(2).is_none()
        && all.client_key(3).is_none()
}

// Whether this is node 0's signature of a zero byte with leaf 1, and the directory finds that, and that it is not
// node 1's.
fn is_of_node_0(all: &Directory, signature: &[u8]) -> bool {
    Sha256::digest(signature).as_slice() == SIGNED_NODE_0
        && all.verify_node(0, &[0], signature)
        && !all.verify_node(1, &[0], signature)
}

// Whether a key of node 0 of which one leaf is used signs a zero byte as it should.
fn signs_by(all: &Directory, keys: &mut Keys) -> Result<bool, Fail> {
    let left = keys.left();
    let signature = keys.sign(&[0])?;
    Ok(left == 3 && is_of_node_0(all, &signature))
}

// Whether a directory has its keys, and node 0 signs with leaf 1.
fn signs_as_known(alloc: Global, all: &Directory, next: u32) -> Result<bool, Fail>
    requires node { 0 < length all.now.nodes }
    requires next { IfSome (slice_get all.now.nodes 0) (λ key. next ≤ 2 ^ key.height) }
{
    if !has_roots(all) {
        return Ok(false);
    }
    let mut keys = all.keys_of_node_at(alloc, 0, next);
    signs_by(all, &mut keys)
}

// The same with a directory of its own.
fn is_as_known(alloc: Global, nodes: u32, clients: u32, height: u8, next: u32) -> Result<bool, Fail>
    requires some { 0 < nodes }
    requires nodes { nodes ≤ 256 }
    requires clients { clients ≤ 256 }
    requires height { IsHeight height }
    requires next { next ≤ 4 }
{
    let all = Directory::make(alloc, nodes, clients, height)?;
    signs_as_known(alloc, &all, next)
}

#[test]
fn directories_have_and_hand_out_the_keys_of_their_numbers(rt: HostRuntime) -> Result<(), Fail> {
    assert!(rt; is_as_known(rt.alloc(), 2, 3, 2, 1)?);
    Ok(())
}
