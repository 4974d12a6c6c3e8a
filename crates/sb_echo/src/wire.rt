//! The encoding of messages, and their claims: what they say that nodes have signed.
ghost use Rattle.std.specs.Prelude.{◌≡◌, ◌↔◌, ℕ, List, ◌∷◌, [], true, IfOk, OnOk, Err};
ghost use Rattle.sb_echo.specs.declared.word.Word.{Word};
ghost use Rattle.iss_request.specs.Fields.{Good, IsRead, IsUnreadable, and_bytes};
ghost use Rattle.iss_request.specs.Formats.{is_signature};
ghost use Rattle.iss_sb.specs.Statements.{claim};
ghost use Rattle.sb_echo.specs.Echo.{IsSpelledWord, claims, parse, parse_echo, parse_say, spell, statement};

use crate::signing::{ECHO, SAY, digest_of, statement, string_of};
use crate::word::Word;
use iss_request::{
    Batch, Bytes, DecodeError, Fields, NoMemory, NodeId, Seq, Slot, Writer, has_shape,
    read_batch_value, read_signature, write_batch_value,
};
use iss_sb::{Claim, Params};
use std::alloc::Global;

/// The number of no message: bytes that start with it do not decode.
const NO_MESSAGE: u8 = 0;

/// Writes a message: its number, the slot, the batch as a value or the digest, the signature. A message without an
/// encoding is written as bytes that do not decode.
pub fn write(msg: &Word, out: &mut Writer) -> Result<(), NoMemory>
    ensures { OnOk result (out.new ≡ and_bytes out.old (spell out.old.version msg.now)) }
{
    match msg {
        Word::Say { slot, batch, sig } => {
            if !has_shape(sig.as_slice()) {
                return out.put_u8(NO_MESSAGE);
            }
            write_say(*slot, batch, sig, out)
        }
        Word::Echo { slot, digest, sig } => {
            if !has_shape(sig.as_slice()) {
                return out.put_u8(NO_MESSAGE);
            }
            write_echo(*slot, digest, sig, out)
        }
    }
}

fn write_say(slot: Slot, batch: &Batch, sig: &Bytes, out: &mut Writer) -> Result<(), NoMemory>
    requires { is_signature sig.now ≡ true }
    ensures { OnOk result (out.new ≡ and_bytes out.old (spell out.old.version (Word.Say slot batch.now sig.now))) }
{
    out.put_u8(SAY)?;
    out.put_u64(slot.0)?;
    write_batch_value(batch, out)?;
    out.put_bytes(sig.as_slice())
}

fn write_echo(slot: Slot, digest: &[u8; 32], sig: &Bytes, out: &mut Writer) -> Result<(), NoMemory>
    requires { is_signature sig.now ≡ true }
    ensures { OnOk result (out.new ≡ and_bytes out.old (spell out.old.version (Word.Echo slot digest.now sig.now))) }
{
    out.put_u8(ECHO)?;
    out.put_u64(slot.0)?;
    out.put_bytes(digest)?;
    out.put_bytes(sig.as_slice())
}

/// Reads the message at the front. `BadField` has the position of the first field that does not decode.
pub fn read(alloc: Global, f: &mut Fields) -> Result<Word, DecodeError>
    ensures ok { IfOk result (λ m. IsRead (parse f.old.version) f.old f.new m) }
    ensures bad { (at : ℕ) → result ≡ Err (DecodeError.BadField at) → IsUnreadable (parse f.old.version) f.old at }
{
    let no_message = f.bad_field();
    let number = f.read_u8()?;
    match number {
        SAY => read_say(alloc, f),
        ECHO => read_echo(alloc, f),
        _ => Err(no_message),
    }
}

fn read_say(alloc: Global, f: &mut Fields) -> Result<Word, DecodeError>
    ensures ok { IfOk result (λ m. IsRead (parse_say f.old.version) f.old f.new m) }
    ensures bad { (at : ℕ) → result ≡ Err (DecodeError.BadField at) → IsUnreadable (parse_say f.old.version) f.old at }
{
    let slot = Slot(f.read_u64()?);
    let batch = read_batch_value(alloc, f)?;
    let sig = read_signature(alloc, f)?;
    Ok(Word::Say { slot, batch, sig })
}

fn read_echo(alloc: Global, f: &mut Fields) -> Result<Word, DecodeError>
    ensures ok { IfOk result (λ m. IsRead parse_echo f.old f.new m) }
    ensures bad { (at : ℕ) → result ≡ Err (DecodeError.BadField at) → IsUnreadable parse_echo f.old at }
{
    let slot = Slot(f.read_u64()?);
    let digest = f.read_digest()?;
    let sig = read_signature(alloc, f)?;
    Ok(Word::Echo { slot, digest, sig })
}

/// What a message claims: its own signature.
// rule: Echo: A message claims its sender's signature
pub fn claims(alloc: Global, p: &Params, from: NodeId, msg: &Word) -> Result<Seq<Claim>, NoMemory>
    ensures { IfOk result (λ all. all ≡ claims p.now from.0 msg.now) }
{
    match msg {
        Word::Say { slot, batch, sig } => {
            let string = string_of(alloc, p, batch)?;
            let digest = digest_of(p, batch, &string);
            let statement = statement(alloc, p, SAY, *slot, &digest)?;
            one_claim(alloc, from, statement, sig)
        }
        Word::Echo { slot, digest, sig } => {
            let statement = statement(alloc, p, ECHO, *slot, digest)?;
            one_claim(alloc, from, statement, sig)
        }
    }
}

fn one_claim(
    alloc: Global,
    by: NodeId,
    statement: Bytes,
    sig: &Bytes,
) -> Result<Seq<Claim>, NoMemory>
    ensures { IfOk result (λ all. all ≡ claim by.0 statement sig.now ∷ []) }
{
    let mut all = Seq::new(alloc);
    let sig = sig.copy()?;
    all.push(Claim { by, statement, sig })?;
    Ok(all)
}

/// Bytes decode as a message exactly if the table relates the two. The function computes nothing: its contract is the
/// theorem.
pub fn words_are_exact()
    ensures { (version : ℕ) (msg : Word) (bytes : List ℕ) → (parse version bytes ≡ Good msg []) ↔
        IsSpelledWord version msg bytes }
{}
