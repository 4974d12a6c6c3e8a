//! Keys and their signatures of one zero byte, compared with another program's results: the scheme in a few lines of
//! Python with its own SHA-256. Secrets, heights and leaves are parameters: the tactics would evaluate a literal key,
//! and a tree of four leaves takes some 4,000 digests.
ghost use Rattle.std.specs.Prelude.{◌≤◌};
ghost use Rattle.iss_base.specs.Heights.{IsHeight};

use iss_keys::{Keys, SignError, verify};
use sha2::{Digest, Sha256};
use std::alloc::Global;
use std::process::Abort;
use std::test::Fail;

// The root over 32 zero bytes, at height 2, and the digest of the signature with leaf 1.
const ROOT_2: &[u8] = b"\xde\x82\x0b\x79\x82\x91\x8d\xac\xcb\x71\xe1\x5e\x13\xd5\x60\x6d\
      \xeb\xc3\xcd\x55\xb7\xb4\xeb\xcb\x7e\x50\x4e\x41\xb6\x9c\x93\x8f";

const SIGNED_2_AT_1: &[u8] = b"\x0d\xbe\x69\x4f\xe5\x93\xcc\x78\xe5\x26\x08\x2b\x5f\xf0\x09\xdf\
      \x09\x7b\xe2\x94\xee\x28\xdb\x9d\x88\xf2\x83\x5e\xc6\xd4\x39\x58";

// The root at height 13, and the digests of the signatures with leaf 0 and with leaf 1024, the first of another
// bottom tree.
const ROOT_13: &[u8] = b"\x18\x7a\x2a\xe5\xc5\x16\xa5\xf7\xb9\x3e\x5d\x04\x5a\x37\x67\x27\
      \xe6\xf8\xee\xa5\x32\x6d\x27\x93\xfe\x48\x6b\x5c\xa9\xb0\xfe\x88";

const SIGNED_13_AT_0: &[u8] = b"\xf0\x32\x6e\x91\x32\x43\xb9\xf7\x60\x11\xa6\x1a\x2b\xfe\x2a\xba\
      \xc6\x6a\x0c\x18\x1b\xfb\xce\xb5\xd6\x1e\x5e\x72\x44\xbe\x6d\x0c";

const SIGNED_13_AT_1024: &[u8] = b"\x3d\x1d\x39\x55\x1c\x07\x06\x03\x84\x47\x29\x65\x39\xca\x6b\xb5\
      \xb4\xc4\xa0\x27\xc7\x85\x90\x2e\x51\x29\x46\x38\x4e\xc9\x17\x11";

// A key of this height with this many leaves used.
fn key_at(alloc: Global, secret: [u8; 32], height: u8, next: u32) -> Result<Keys, Fail>
    requires height { IsHeight height }
    requires next { next ≤ 4 }
{
    Ok(Keys::make_at(alloc, secret, height, next)?)
}

// The key of 32 zero bytes.
fn key(alloc: Global, height: u8) -> Result<Keys, Fail>
    requires height { IsHeight height }
{
    key_at(alloc, [0; 32], height, 0)
}

// The digest of the last of this many signatures. That one verifies for a zero byte, and not for another byte.
fn last_digest(rt: &impl Abort, keys: &mut Keys, count: u32) -> Result<[u8; 32], SignError> {
    for _i in 1..count {
        let _earlier = keys.sign(&[0])?;
    }
    let public = keys.public();
    let signature = keys.sign(&[0])?;
    assert!(rt; verify(&public, &[0], &signature));
    assert!(rt; !verify(&public, &[1], &signature));
    Ok(Sha256::digest(&signature))
}

// Checks the digest of the last of this many signatures, and how many leaves are left.
fn check_last(
    rt: &impl Abort,
    keys: &mut Keys,
    count: u32,
    digest: &[u8],
    left: u32,
) -> Result<(), SignError> {
    let last = last_digest(rt, keys, count)?;
    assert!(rt; last.as_slice() == digest && keys.left() == left);
    Ok(())
}

// Checks a key of which no leaf is used.
fn check_key(rt: &impl Abort, keys: &Keys, height: u8, root: &[u8], left: u32) {
    let public = keys.public();
    assert!(rt;
        public.height() == height && public.root().as_slice() == root && keys.left() == left
    );
}

fn check_four(rt: &impl Abort, keys: &mut Keys) -> Result<(), Fail> {
    check_key(rt, keys, 2, ROOT_2, 4);
    let _first = last_digest(rt, keys, 1)?;
    check_last(rt, keys, 1, SIGNED_2_AT_1, 2)?;
    let _third = last_digest(rt, keys, 1)?;
    let _fourth = last_digest(rt, keys, 1)?;
    assert!(rt; matches!(keys.sign(&[0]), Err(SignError::Spent)));
    assert!(rt; keys.left() == 0);
    Ok(())
}

#[test]
fn four_signatures_and_no_fifth(rt: HostRuntime) -> Result<(), Fail> {
    let mut keys = key(rt.alloc(), 2)?;
    check_four(&rt, &mut keys)
}

fn check_two_trees(rt: &impl Abort, keys: &mut Keys) -> Result<(), Fail> {
    check_key(rt, keys, 13, ROOT_13, 8192);
    check_last(rt, keys, 1, SIGNED_13_AT_0, 8191)?;
    check_last(rt, keys, 1024, SIGNED_13_AT_1024, 7167)?;
    Ok(())
}

// A key with two levels. A bottom tree takes a quarter second.
#[test]
fn the_signature_after_a_bottom_tree_is_by_the_next(rt: HostRuntime) -> Result<(), Fail> {
    let mut keys = key(rt.alloc(), 13)?;
    check_two_trees(&rt, &mut keys)
}
