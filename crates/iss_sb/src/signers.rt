//! Lists of signers with their signatures, strictly ascending, as in certificates.
ghost use Rattle.std.specs.Prelude.{◌≡◌, ◌≤◌, ℕ, IfOk, OnOk, Err};
ghost use Rattle.std.specs.List.{flat_map};
ghost use Rattle.iss_request.specs.Fields.{IsRead, IsUnreadable, and_bytes};
ghost use Rattle.iss_sb.specs.Signers.{are_signers, parse_signed, parse_signers, spell_signed};

use iss_request::{
    Bytes, DecodeError, Fields, NoMemory, NodeId, Seq, Writer, has_shape, read_signature,
};
use std::alloc::Global;

/// A signer and its signature.
#[derive(Drop)]
pub struct Signed {
    pub by: NodeId,
    pub sig: Bytes,
}

impl Signed {
    /// A copy. The only error is out of memory.
    pub fn copy(&self) -> Result<Signed, NoMemory>
        ensures { IfOk result (λ x. x ≡ self.now) }
    {
        Ok(Signed {
            by: self.by,
            sig: self.sig.copy()?,
        })
    }
}

/// A copy of the list. The only error is out of memory.
pub fn copy_signers(alloc: Global, signers: &[Signed]) -> Result<Seq<Signed>, NoMemory>
    ensures { IfOk result (λ xs. xs ≡ signers.now) }
{
    let mut copies = Seq::new(alloc);
    for signed in signers {
        copies.push(signed.copy()?)?;
    }
    Ok(copies)
}

/// Whether the signers are strictly ascending, none below `from`, each with a well-formed signature.
pub fn are_signers(from: u16, signers: &[Signed]) -> bool
    requires { from ≤ 256 }
    ensures { result ≡ are_signers from signers.now }
{
    match signers {
        [] => true,
        [first, others @ ..] => {
            let by = first.by.0 as u16;
            from <= by && has_shape(first.sig.as_slice()) && are_signers(by + 1, others)
        }
    }
}

fn put_signed(signed: &Signed, out: &mut Writer) -> Result<(), NoMemory>
    ensures { OnOk result (out.new ≡ and_bytes out.old (spell_signed signed.now)) }
{
    out.put_u8(signed.by.0)?;
    out.put_bytes(signed.sig.as_slice())
}

/// Appends the signers without their count. The only error is out of memory.
pub fn put_signers(signers: &[Signed], out: &mut Writer) -> Result<(), NoMemory>
    ensures { OnOk result (out.new ≡ and_bytes out.old (flat_map spell_signed signers.now)) }
{
    for signed in signers {
        put_signed(signed, out)?;
    }
    Ok(())
}

fn read_signed(alloc: Global, from: u16, f: &mut Fields) -> Result<Signed, DecodeError>
    ensures ok { IfOk result (λ x. IsRead (parse_signed from) f.old f.new x) }
    ensures bad { (at : ℕ) → result ≡ Err (DecodeError.BadField at) → IsUnreadable (parse_signed from) f.old at }
{
    let too_low = f.bad_field();
    let by = f.read_u8()?;
    if (by as u16) < from {
        return Err(too_low);
    }
    let sig = read_signature(alloc, f)?;
    Ok(Signed {
        by: NodeId(by),
        sig,
    })
}

/// Decodes `count` signers. `BadField` names the first field that does not fit, also a node that is not above the one
/// before it.
// rule: Signers: The signers of a certificate are strictly ascending, and an error names the first other
pub fn read_signers(alloc: Global, count: u8, f: &mut Fields) -> Result<Seq<Signed>, DecodeError>
    ensures ok { IfOk result (λ xs. IsRead (parse_signers count 0) f.old f.new xs) }
    ensures bad { (at : ℕ) → result ≡ Err (DecodeError.BadField at) → IsUnreadable (parse_signers count 0) f.old at }
{
    let mut signers = Seq::new(alloc);
    let mut from: u16 = 0;
    for _ in 0..count {
        let signed = read_signed(alloc, from, f)?;
        from = signed.by.0 as u16 + 1;
        signers.push(signed)?;
    }
    Ok(signers)
}
