//! The lines of replies.
ghost use Rattle.std.specs.Prelude.{◌≡◌, ◌≢◌, ◌≤◌, ◌<◌, ◌^◌, ◌↔◌, ◌++◌, ◌∷◌, [], ℕ, List, IfOk, IfSome, IfNone, IsTrue, decimal};
ghost use Rattle.hex.specs.Hex.{IsBytes};
ghost use Rattle.iss_schedule.specs.Reads.{Reads};
ghost use Rattle.iss_schedule.specs.Words.{word_of};
ghost use Rattle.iss_answers.specs.Lines.{AreFormed, AreLastFormed, IsAnswerInRange, IsFormed, IsHex, IsIdFormed, IsIdInRange, IsInRange, id_word, reply_line, reply_words};

use iss_reply::Reply;
use iss_request::{Bytes, Epoch, NoMemory, NodeId, ReqId};
use iss_schedule::{Words, behind, bytes_from, bytes_in, bytes_of, cut_at, is_number, number_of};
use std::alloc::Global;

// ---- the reply in a line

// The number in the next word, if it is at most `most`.
fn number_in(words: &mut Words, most: u64) -> Option<u64>
    ensures some { IfSome result (λ n. words.old ≡ decimal n ∷ words.new) }
    ensures range { IfSome result (λ n. n ≤ most) }
    ensures none { IfNone result ((n : ℕ) (ws : List (List ℕ)) → n ≤ most → words.old ≢ decimal n ∷ ws) }
{
    let word = words.next()?;
    let number = number_of(word)?;
    if number <= most { Some(number) } else { None }
}

// The identity with this client and number, if they are in range.
fn id_from(client: u64, number: u64) -> Option<ReqId>
    ensures same { IfSome result (λ id. (id.client ≡ client) × (id.number ≡ number)) }
    ensures range { IfSome result IsIdInRange }
    ensures none { IfNone result (client < 256 → number < 2 ^ 32 → ⊥) }
{
    if client > 255 {
        return None;
    }
    if number > 4_294_967_295 {
        return None;
    }
    Some(ReqId {
        client: client as u8,
        number: number as u32,
    })
}

// The identity in a word.
fn id_of(word: &[u8]) -> Option<ReqId>
    ensures { Reads id_word IsIdInRange word.now result }
{
    let (client, number) = cut_at(word, b'.')?;
    let client = number_of(client)?;
    let number = number_of(number)?;
    id_from(client, number)
}

// The identity in the next word.
fn id_in(words: &mut Words) -> Option<ReqId>
    ensures some { IfSome result (λ id. words.old ≡ id_word id ∷ words.new) }
    ensures range { IfSome result IsIdInRange }
    ensures none { IfNone result ((id : ReqId) (ws : List (List ℕ)) → IsIdInRange id → words.old ≢ id_word id ∷ ws) }
{
    let word = words.next()?;
    id_of(word)
}

// The answer in the next word.
fn answer_in(alloc: Global, words: &mut Words) -> Result<Option<Bytes>, NoMemory>
    ensures some { IfOk result (λ found. IfSome found (λ answer. words.old ≡ word_of answer ∷ words.new)) }
    ensures range { IfOk result (λ found. IfSome found IsAnswerInRange) }
    ensures none { IfOk result (λ found. IfNone found
        ((answer : List ℕ) (ws : List (List ℕ)) → IsAnswerInRange answer → words.old ≢ word_of answer ∷ ws)) }
{
    let Some(word) = words.next() else {
        return Ok(None);
    };
    let Some(bytes) = bytes_of(alloc, word)? else {
        return Ok(None);
    };
    let answer = bytes_from(bytes);
    if answer.len() <= 65_535 {
        Ok(Some(answer))
    } else {
        Ok(None)
    }
}

// The reply in the words after the name.
// rule: Replies: The numbers of a reply's line fit their types, and its answer has at most 65,535 bytes
fn reply_in(alloc: Global, words: &mut Words) -> Result<Option<Reply>, NoMemory>
    ensures { IfOk result (Reads reply_words IsInRange words.old) }
{
    let Some(by) = number_in(words, 255) else {
        return Ok(None);
    };
    let Some(epoch) = number_in(words, u64::MAX) else {
        return Ok(None);
    };
    let Some(q) = number_in(words, u64::MAX) else {
        return Ok(None);
    };
    let Some(id) = id_in(words) else {
        return Ok(None);
    };
    let Some(answer) = answer_in(alloc, words)? else {
        return Ok(None);
    };
    let Some(sig) = bytes_in(alloc, words)? else {
        return Ok(None);
    };
    Ok(Some(Reply {
        by: NodeId(by as u8),
        epoch: Epoch(epoch),
        q,
        id,
        answer,
        sig,
    }))
}

/// The reply in a line, if it is in range.
// rule: Replies: A reply is a line with its node, epoch, number, identity, answer and signature
pub fn reply_of(alloc: Global, line: &[u8]) -> Result<Option<Reply>, NoMemory>
    ensures { IfOk result (Reads reply_line IsInRange line.now) }
{
    let Some(rest) = behind(line, b"reply") else {
        return Ok(None);
    };
    let mut words = Words::of(rest);
    reply_in(alloc, &mut words)
}

// ---- the form of a line

// Whether the word is two numbers, parted by a point.
fn is_id(word: &[u8]) -> bool
    ensures { IsTrue result ↔ IsIdFormed word.now }
{
    match cut_at(word, b'.') {
        Some((client, number)) => is_number(client) && is_number(number),
        None => false,
    }
}

// Whether the word is bytes in hexadecimal.
fn is_hex(alloc: Global, word: &[u8]) -> Result<bool, NoMemory>
    ensures { IfOk result (λ b. IsTrue b ↔ IsHex word.now) }
{
    match bytes_of(alloc, word)? {
        Some(bytes) => {
            let _bytes = bytes_from(bytes);
            Ok(true)
        }
        None => Ok(false),
    }
}

// Whether the words are an identity, and bytes twice.
fn are_last_formed(alloc: Global, words: &mut Words) -> Result<bool, NoMemory>
    ensures { IfOk result (λ b. IsTrue b ↔ AreLastFormed words.old) }
{
    let Some(id) = words.next() else {
        return Ok(false);
    };
    let Some(answer) = words.next() else {
        return Ok(false);
    };
    let Some(sig) = words.next() else {
        return Ok(false);
    };
    if !words.is_done() || !is_id(id) || !is_hex(alloc, answer)? {
        return Ok(false);
    }
    is_hex(alloc, sig)
}

// Whether the words after the name have the form of a reply's.
fn are_formed(alloc: Global, words: &mut Words) -> Result<bool, NoMemory>
    ensures { IfOk result (λ b. IsTrue b ↔ AreFormed words.old) }
{
    let Some(by) = words.next() else {
        return Ok(false);
    };
    let Some(epoch) = words.next() else {
        return Ok(false);
    };
    let Some(q) = words.next() else {
        return Ok(false);
    };
    if !is_number(by) || !is_number(epoch) || !is_number(q) {
        return Ok(false);
    }
    are_last_formed(alloc, words)
}

/// Whether the line has the form of a reply's, whatever the size of its numbers and of its answer.
pub fn is_formed(alloc: Global, line: &[u8]) -> Result<bool, NoMemory>
    ensures { IfOk result (λ b. IsTrue b ↔ IsFormed line.now) }
{
    let Some(rest) = behind(line, b"reply") else {
        return Ok(false);
    };
    let mut words = Words::of(rest);
    are_formed(alloc, &mut words)
}
