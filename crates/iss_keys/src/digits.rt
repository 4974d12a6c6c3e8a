//! The 67 digits of a statement: 64 of its digest, and three of their checksum.

ghost use Rattle.std.specs.Prelude.{◌≡◌, ◌<◌, ◌≤◌};
ghost use Rattle.iss_keys.specs.Pieces.{sum_below};
ghost use Rattle.iss_keys.specs.Chains.{statement_digest, nibble, checksum, digit};
ghost use Rattle.iss_keys.specs.Levels.{root_statement};

use crate::marks::{BOTTOM_ROOT, STATEMENT};
use sha2::{Digest, Sha256};

/// The digest of a statement, which is what a leaf signs.
pub fn digest_of_statement(statement: &[u8]) -> [u8; 32]
    ensures { result ≡ statement_digest statement.now }
{
    let mut hasher = Sha256::new();
    hasher.update([STATEMENT]);
    hasher.update(statement);
    hasher.finalize()
}

/// The digest of the statement that leaf `bottom` of a top tree signs: the root of this bottom tree.
pub fn digest_of_root(bottom: u32, root: &[u8; 32]) -> [u8; 32]
    ensures { result ≡ statement_digest (root_statement bottom root.now) }
{
    let mut hasher = Sha256::new();
    hasher.update([STATEMENT, BOTTOM_ROOT]);
    hasher.update(bottom.to_be_bytes());
    hasher.update(root);
    hasher.finalize()
}

// Hexadecimal digit `k` of a digest, the high digit of a byte first.
fn nibble_of(digest: &[u8; 32], k: usize) -> u8
    requires { k < 64 }
    ensures { result ≡ nibble digest.now k }
{
    let byte = digest[k / 2];
    if k % 2 == 0 { byte / 16 } else { byte % 16 }
}

/// The sum of 15 minus each digit of a digest.
#[tactic(auto, using(crate::proofs::ChainLemmas::sum_below_more), unfolding(crate::specs::Pieces::sum_below))]
pub fn checksum_of(digest: &[u8; 32]) -> u16
    ensures value { result ≡ checksum digest.now }
    ensures small { result ≤ 960 }
{
    let mut sum = 0u16;
    'digits: for k in 0..64 {
        sum += 15 - u16::from(nibble_of(digest, k));
    }
    sum
}

/// Digit `i` of a digest and its checksum.
// rule: Signatures: A leaf signs the digits of a statement's digest and of their checksum
#[tactic(auto, unfolding(crate::specs::Chains::digit))]
pub fn digit_of(digest: &[u8; 32], sum: u16, i: u16) -> u8
    requires { sum ≡ checksum digest.now }
    ensures { result ≡ digit digest.now i }
{
    if i < 64 {
        return nibble_of(digest, i as usize);
    }
    if i == 64 {
        return (sum / 256) as u8;
    }
    if i == 65 {
        return (sum / 16 % 16) as u8;
    }
    (sum % 16) as u8
}
