//! The validity of signatures and certificates. Nothing here allocates memory.
ghost use Rattle.std.specs.Prelude.{◌≡◌, ◌≤◌, ℕ};
ghost use Rattle.iss_checkpoint.specs.Votes.{Voters, are_signed, is_cert, is_signed, voters_of};

use crate::votes::{Cert, vote_statement};
use iss_keys::Directory;
use iss_request::Setup;
use iss_sb::Signed;

/// Whether node `by`, below `n`, validly signed the statement.
pub fn is_signed(directory: &Directory, n: u32, statement: &[u8], by: u8, sig: &[u8]) -> bool
    ensures { (w : Voters) → w.n ≡ n → w.keys ≡ directory.now.nodes → result ≡ is_signed w statement.now by sig.now }
{
    if by as u32 >= n {
        return false;
    }
    directory.verify_node(by, statement, sig)
}

// Whether signers are strictly ascending, none below `from`, each with a valid signature of the statement.
fn are_signed(
    directory: &Directory,
    n: u32,
    statement: &[u8],
    from: u16,
    signers: &[Signed],
) -> bool
    requires { from ≤ 256 }
    ensures { (w : Voters) → w.n ≡ n → w.keys ≡ directory.now.nodes →
        result ≡ are_signed w statement.now from signers.now }
{
    match signers {
        [] => true,
        [first, others @ ..] => {
            let by = first.by.0;
            if (by as u16) < from {
                return false;
            }
            if !is_signed(directory, n, statement, by, first.sig.as_slice()) {
                return false;
            }
            are_signed(directory, n, statement, by as u16 + 1, others)
        }
    }
}

/// Whether a certificate is valid: exactly a quorum of signers, strictly ascending, each signature valid.
// rule: Checkpoints: A certificate has exactly a quorum of strictly ascending signers who all signed it
// rule: Checkpoints: A certificate has a correct signer
pub fn check(setup: &Setup, directory: &Directory, cert: &Cert) -> bool
    ensures { result ≡ is_cert (voters_of setup.now directory.now) cert.now }
{
    if cert.signers.len() != setup.quorum as usize {
        return false;
    }
    let statement = vote_statement(&setup.tag, cert.epoch.0, &cert.chain, cert.requests);
    are_signed(directory, setup.n, &statement, 0, cert.signers.as_slice())
}
