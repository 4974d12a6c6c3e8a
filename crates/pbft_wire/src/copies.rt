//! Copies of certificates and ViewChanges.
ghost use Rattle.std.specs.Prelude.{◌≡◌, IfOk};

use crate::messages::{Certificate, Change};
use iss_request::{NoMemory, Seq};
use iss_sb::copy_signers;
use std::alloc::Global;

impl Certificate {
    /// A copy of the certificate.
    pub fn copy(&self, alloc: Global) -> Result<Certificate, NoMemory>
        ensures { IfOk result (λ c. c ≡ self.now) }
    {
        Ok(Certificate {
            slot: self.slot,
            view: self.view,
            value: self.value.copy()?,
            sig: self.sig.copy()?,
            prepares: copy_signers(alloc, self.prepares.as_slice())?,
        })
    }
}

impl Change {
    /// A copy of the ViewChange.
    pub fn copy(&self, alloc: Global) -> Result<Change, NoMemory>
        ensures { IfOk result (λ x. x ≡ self.now) }
    {
        Ok(Change {
            node: self.node,
            view: self.view,
            certificates: copy_certificates(alloc, self.certificates.as_slice())?,
            sig: self.sig.copy()?,
        })
    }
}

/// Copies of these certificates.
pub fn copy_certificates(
    alloc: Global,
    certificates: &[Certificate],
) -> Result<Seq<Certificate>, NoMemory>
    ensures { IfOk result (λ cs. cs ≡ certificates.now) }
{
    let mut all = Seq::new(alloc);
    for c in certificates {
        all.push(c.copy(alloc)?)?;
    }
    Ok(all)
}

/// Copies of these ViewChanges.
pub fn copy_changes(alloc: Global, changes: &[Change]) -> Result<Seq<Change>, NoMemory>
    ensures { IfOk result (λ xs. xs ≡ changes.now) }
{
    let mut all = Seq::new(alloc);
    for x in changes {
        all.push(x.copy(alloc)?)?;
    }
    Ok(all)
}
