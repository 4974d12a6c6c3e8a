//! The chain of digests that identifies a log. Each value's digest is linked to the digest of the log before it.
ghost use Rattle.std.specs.Prelude.{◌≡◌, ◌≢◌, ◌+◌, length, ◌++◌, ◌∷◌, [], List, IfOk, OnErr, OnOk, slice_get};
ghost use Rattle.iss_request.specs.Digest.{digest};
ghost use Rattle.iss_request.specs.Formats.{value_string};
ghost use Rattle.iss_request.specs.declared.requests.Value.{Value};
ghost use Rattle.iss_log.specs.Chains.{IsChainOf, chain_of, link_string, next_end, strings_of};

use crate::log::size;
use iss_keys::Directory;
use iss_request::{Bytes, NoMemory, Seq, Value, sum, value_string};
use std::alloc::Global;
use std::marker::Model;

// The first byte of a link's string.
const LINK: u8 = 0x42;

/// What identifies a log: its chain digest, and the number of requests in it.
#[derive(Clone, Copy, Debug, PartialEq, Eq)]
pub struct End {
    pub chain: [u8; 32],
    pub requests: u64,
}

/// The chain digest and request count of each prefix of a log, from the empty one on, in one format version.
#[derive(Drop)]
pub struct Chains {
    alloc: Global,
    version: u8,
    ends: Vec<End>,
}

impl Model for Chains {
    ghost use Rattle.std.specs.Prelude.{length, ◌≤◌};
    ghost use Rattle.iss_log.specs.Chains.{ChainsState};

    ghost Value = { ChainsState };

    ghost view = { λ c. record { version = c.version; ends = c.ends.items } };

    ghost invariant = { λ c. 1 ≤ length c.ends.items };
}

impl Chains {
    /// The chain of the empty log. The only error is out of memory.
    pub fn new(alloc: Global, version: u8) -> Result<Chains, NoMemory>
        ensures version { IfOk result (λ c. c.version ≡ version) }
        ensures none { IfOk result (λ c. IsChainOf c []) }
    {
        let mut ends = Vec::new(alloc);
        ends.push(End {
            chain: [0; 32],
            requests: 0,
        })?;
        Ok(Chains {
            alloc,
            version,
            ends,
        })
    }

    /// The format version in which values are encoded.
    pub fn version(&self) -> u8
        ensures { result ≡ self.now.version }
    {
        self.version
    }

    /// Adds one value to the log. The strings hashed for it are appended to `hashed`. The only error is out of memory,
    /// also if the requests pass 2^64 - 1.
    pub fn join(
        &mut self,
        directory: &Directory,
        value: &Value,
        hashed: &mut Seq<Bytes>,
    ) -> Result<(), NoMemory>
        ensures joined { OnOk result ((log : List Value) → IsChainOf self.old log →
            IsChainOf self.new (log ++ value.now ∷ [])) }
        ensures hashed { OnOk result ((log : List Value) → IsChainOf self.old log
            → hashed.new ≡ hashed.old ++ strings_of self.old.version (chain_of self.old.version log) value.now) }
        ensures version { self.new.version ≡ self.old.version }
        ensures err { OnErr result (self.new ≡ self.old) }
    {
        let before = self.ends[self.ends.len() - 1];
        let end = link(self.alloc, directory, self.version, &before, value, hashed)?;
        self.ends.push(end)?;
        Ok(())
    }

    /// The number of values in the log.
    pub fn slots(&self) -> usize
        ensures { result + 1 ≡ length self.now.ends }
    {
        self.ends.len() - 1
    }

    /// What identifies the prefix with this number of values, or `None` past the log.
    pub fn end_at(&self, slots: usize) -> Option<End>
        ensures { result ≡ slice_get self.now.ends slots }
    {
        match self.ends.get(slots) {
            Some(end) => Some(*end),
            None => None,
        }
    }
}

// The string of a link: the digest of the log before, and the digest of the value.
fn link_of(alloc: Global, before: &[u8; 32], value: &[u8; 32]) -> Result<Bytes, NoMemory>
    ensures { IfOk result (λ s. s ≡ link_string before.now value.now) }
{
    let mut all = Vec::new(alloc);
    all.push(LINK)?;
    all.extend_from_slice(before)?;
    all.extend_from_slice(value)?;
    Ok(Bytes::of(all))
}

// The digest of a string, which must not be empty. The directory remembers recent digests, for example of a value that
// a module hashed.
fn digest_of(directory: &Directory, string: &Bytes) -> [u8; 32]
    ensures { string.now ≢ [] → result ≡ digest string.now }
{
    directory.digest(string.as_slice())
}

/// What identifies a log with one more value. The strings hashed for it are appended: the value's and the link's. The
/// error is out of memory, also if the requests pass 2^64 - 1.
// rule: Log: The chain of a log links the digest of each value, also of nil, to the chain before it
// rule: Log: The end of a log counts requests, not slots
pub fn link(
    alloc: Global,
    directory: &Directory,
    version: u8,
    before: &End,
    value: &Value,
    hashed: &mut Seq<Bytes>,
) -> Result<End, NoMemory>
    ensures end { IfOk result (λ end. end ≡ next_end version before.now value.now) }
    ensures hashed { OnOk result (hashed.new ≡ hashed.old ++ strings_of version before.now.chain value.now) }
{
    let requests = sum(before.requests, size(value))?;
    let string = value_string(alloc, version, value)?;
    let digest = digest_of(directory, &string);
    let link = link_of(alloc, &before.chain, &digest)?;
    let chain = digest_of(directory, &link);
    hashed.push(string)?;
    hashed.push(link)?;
    Ok(End { chain, requests })
}
