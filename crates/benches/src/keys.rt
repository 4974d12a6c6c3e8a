//! Keys: trees, signatures and verifications. For a literal count, height or secret the tactics would evaluate the
//! keys. So these are parameters, and come from functions without contracts.
ghost use Rattle.iss_base.specs.Heights.{IsHeight};

use crate::times::print_since;
use iss_keys::{Keys, PublicKey, verify};
use std::alloc::Global;
use std::test::Fail;
use std::time::Instant;

// The signed statement.
const STATEMENT: &[u8; 16] = b"0123456789abcdef";

fn key(alloc: Global, secret: [u8; 32], height: u8) -> Result<Keys, Fail>
    requires { IsHeight height }
{
    Ok(Keys::make(alloc, secret, height)?)
}

fn public_of(keys: &Keys) -> PublicKey {
    keys.public()
}

// A key is ready when its public root is computed. Above height 12 it has two levels of trees.
fn time_tree(rt: &HostRuntime, what: &str, height: u8) -> Result<(), Fail>
    requires { IsHeight height }
{
    let start = Instant::now(rt)?;
    let keys = key(rt.alloc(), [7; 32], height)?;
    let public = public_of(&keys);
    print_since(rt, what, start, u32::from(public.height()))
}

fn signatures(alloc: Global, keys: &mut Keys, count: u32) -> Result<Vec<Vec<u8>>, Fail> {
    let mut all = Vec::new(alloc);
    for _ in 0..count {
        all.push(keys.sign(STATEMENT)?)?;
    }
    Ok(all)
}

fn verified(public: &PublicKey, signatures: &[Vec<u8>]) -> u32 {
    let mut count = 0u32;
    for signature in signatures {
        if verify(public, STATEMENT, signature) {
            count = count.wrapping_add(1);
        }
    }
    count
}

fn time_signatures(rt: &HostRuntime, height: u8, count: u32) -> Result<(), Fail>
    requires { IsHeight height }
{
    let mut keys = key(rt.alloc(), [7; 32], height)?;
    let public = public_of(&keys);
    let start = Instant::now(rt)?;
    let all = signatures(rt.alloc(), &mut keys, count)?;
    print_since(rt, "sign", start, keys.left())?;
    let start = Instant::now(rt)?;
    let good = verified(&public, &all);
    print_since(rt, "check", start, good)
}

/// Prints the times of a tree of height 10, of 1,000 signatures and their checks, and of a key of height 20.
pub(crate) fn time_all(rt: &HostRuntime) -> Result<(), Fail> {
    time_tree(rt, "tree", 10)?;
    time_signatures(rt, 10, 1000)?;
    time_tree(rt, "two-levels", 20)
}

fn count_at(rt: &HostRuntime, height: u8, count: u32) -> Result<(), Fail>
    requires { IsHeight height }
{
    let mut keys = key(rt.alloc(), [7; 32], height)?;
    let public = public_of(&keys);
    let all = signatures(rt.alloc(), &mut keys, count)?;
    println!(rt;
        "{} of {count} signatures verified, {} leaves left",
        verified(&public, &all),
        keys.left()
    )?;
    Ok(())
}

/// Prints the counts of a small workload.
pub(crate) fn count_all(rt: &HostRuntime) -> Result<(), Fail> {
    count_at(rt, 2, 3)
}
