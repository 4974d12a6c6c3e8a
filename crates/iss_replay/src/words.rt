//! Words of a report. The only error is out of memory; a part of the word may have been written then.
ghost use Rattle.std.specs.Prelude.{◌≡◌, ◌++◌, OnOk, decimal};
ghost use Rattle.iss_replay.specs.Text.{refusal_word, why_word};
ghost use Rattle.iss_schedule.specs.Words.{word_of};

use iss_request::NoMemory;
use iss_rules::{Refusal, Why};
use itoa::Buffer;
use std::alloc::Global;

/// Writes text.
pub fn put_text(out: &mut Vec<u8>, text: &[u8]) -> Result<(), NoMemory>
    ensures { OnOk result (out.new.items ≡ out.old.items ++ text.now) }
{
    out.extend_from_slice(text)?;
    Ok(())
}

/// Writes a number in decimal digits.
pub fn put_number(out: &mut Vec<u8>, number: u64) -> Result<(), NoMemory>
    ensures { OnOk result (out.new.items ≡ out.old.items ++ decimal number) }
{
    let mut buffer = Buffer::new();
    put_text(out, buffer.format(number).as_bytes())
}

/// Writes bytes in lower-case hexadecimal digits, and `-` for the empty string.
pub fn put_bytes(alloc: Global, out: &mut Vec<u8>, bytes: &[u8]) -> Result<(), NoMemory>
    ensures { OnOk result (out.new.items ≡ out.old.items ++ word_of bytes.now) }
{
    if bytes.is_empty() {
        return put_text(out, b"-");
    }
    let word = hex::encode(alloc, bytes)?;
    put_text(out, word.as_bytes())
}

/// Writes the name of a refusal.
pub fn put_refusal(out: &mut Vec<u8>, refusal: Refusal) -> Result<(), NoMemory>
    ensures { OnOk result (out.new.items ≡ out.old.items ++ refusal_word refusal) }
{
    match refusal {
        Refusal::TooLarge => put_text(out, b"TooLarge"),
        Refusal::ForeignBucket => put_text(out, b"ForeignBucket"),
        Refusal::BadSignature => put_text(out, b"BadSignature"),
        Refusal::OutOfWindow => put_text(out, b"OutOfWindow"),
        Refusal::Ordered => put_text(out, b"Ordered"),
        Refusal::Marked => put_text(out, b"Marked"),
    }
}

/// Writes the reason of a loss.
pub fn put_why(out: &mut Vec<u8>, why: Why) -> Result<(), NoMemory>
    ensures { OnOk result (out.new.items ≡ out.old.items ++ why_word why) }
{
    match why {
        Why::NoPacket => put_text(out, b"NoPacket"),
        Why::Stopped => put_text(out, b"Stopped"),
        Why::NotPacket => put_text(out, b"NotPacket"),
        Why::BadRequest => put_text(out, b"BadRequest"),
        Why::Known => put_text(out, b"Known"),
        Why::OutOfWindow => put_text(out, b"OutOfWindow"),
        Why::OtherEpoch => put_text(out, b"OtherEpoch"),
        Why::EarlyFull => put_text(out, b"EarlyFull"),
        Why::NotLeader => put_text(out, b"NotLeader"),
        Why::BadClaim => put_text(out, b"BadClaim"),
        Why::NothingToCast => put_text(out, b"NothingToCast"),
        Why::NoKeys => put_text(out, b"NoKeys"),
        Why::Refused(refusal) => put_refused(out, refusal),
        Why::NoCert => put_text(out, b"NoCert"),
        Why::NotNeeded => put_text(out, b"NotNeeded"),
        Why::WrongChain => put_text(out, b"WrongChain"),
    }
}

// Writes that a batch was refused, and the reason.
fn put_refused(out: &mut Vec<u8>, refusal: Refusal) -> Result<(), NoMemory>
    ensures { OnOk result (out.new.items ≡ out.old.items ++ why_word (Why.Refused refusal)) }
{
    put_text(out, b"Refused ")?;
    put_refusal(out, refusal)
}
