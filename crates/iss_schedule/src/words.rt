//! Splitting texts into lines, and lines into words; the words of numbers and bytes.
ghost use Rattle.std.specs.Prelude.{◌≡◌, ◌≢◌, ◌↔◌, ◌<◌, ◌≤◌, ◌^◌, ◌+◌, ℕ, List, [], ◌∷◌, ◌++◌, IsTrue, IfOk, IfErr, IfSome, IfNone, decimal, string_bytes};
ghost use Rattle.std.specs.List.{slice_split};
ghost use Rattle.hex.specs.Hex.{IsBytes};
ghost use Rattle.iss_schedule.specs.Reads.{Reads, IsWithin};
ghost use Rattle.iss_schedule.specs.Words.{Lacks, words_of, word_of, AreDigits, IsNumber};

use crate::names::is_same;
use hex::FromHexError;
use iss_request::errors::NoMemory;
use itoa::Buffer;
use memchr::memchr;
use std::alloc::Global;
use std::marker::Model;

/// The part before the first occurrence of the byte, and the part after it.
pub fn cut_at(text: &[u8], byte: u8) -> Option<(&[u8], &[u8])>
    ensures some { IfSome result (λ parts. text.now ≡ parts.0.now ++ byte ∷ parts.1.now) }
    ensures first { IfSome result (λ parts. Lacks byte parts.0.now) }
    ensures none { IfNone result (Lacks byte text.now) }
{
    let Some(at) = memchr(byte, text) else {
        return None;
    };
    Some((&text[..at], &text[at + 1..]))
}

/// What follows the name and a space in the line.
pub fn behind<'a>(line: &'a [u8], name: &[u8]) -> Option<&'a [u8]>
    requires { Lacks 32 name.now }
    ensures some { IfSome result (λ word. line.now ≡ name.now ++ 32 ∷ word.now) }
    ensures none { IfNone result ((word : List ℕ) → line.now ≢ name.now ++ 32 ∷ word) }
{
    let Some((first, rest)) = cut_at(line, b' ') else {
        return None;
    };
    if is_same(first, name) {
        Some(rest)
    } else {
        None
    }
}

/// The words of a line that are still to be read.
#[derive(Drop)]
pub struct Words<'a> {
    rest: &'a [u8],
    more: bool,
}

impl<'a> Model for Words<'a> {
    ghost use Rattle.std.specs.Prelude.{ℕ, List, [], if◌then◌else◌};
    ghost use Rattle.iss_schedule.specs.Words.{words_of};

    ghost Value = { List (List ℕ) };

    ghost view = { λ w. if w.more then words_of w.rest.now else [] };
}

impl<'a> Words<'a> {
    /// All words of the line.
    pub fn of(line: &'a [u8]) -> Words<'a>
        ensures { result ≡ words_of line.now }
    {
        Words {
            rest: line,
            more: true,
        }
    }

    /// The next word.
    pub fn next(&mut self) -> Option<&'a [u8]>
        ensures some { IfSome result (λ word. self.old ≡ word.now ∷ self.new) }
        ensures none { IfNone result (self.old ≡ []) }
        ensures end { IfNone result (self.new ≡ []) }
    {
        if !self.more {
            return None;
        }
        match cut_at(self.rest, b' ') {
            Some((word, rest)) => {
                self.rest = rest;
                Some(word)
            }
            None => {
                self.more = false;
                Some(self.rest)
            }
        }
    }

    /// Whether no word is left.
    pub fn is_done(&self) -> bool
        ensures { IsTrue result ↔ (self.now ≡ []) }
    {
        !self.more
    }
}

// Whether the word is the number in decimal.
fn spells(word: &[u8], number: u64) -> bool
    ensures { IsTrue result ↔ (decimal number ≡ word.now) }
{
    let mut buffer = Buffer::new();
    is_same(buffer.format(number).as_bytes(), word)
}

/// The number in a word.
pub fn number_of(word: &[u8]) -> Option<u64>
    ensures some { IfSome result (λ n. word.now ≡ decimal n) }
    ensures none { IfNone result ((n : ℕ) → n < 2 ^ 64 → word.now ≢ decimal n) }
{
    let text = match str::from_utf8(word) {
        Ok(text) => text,
        Err(_) => return None,
    };
    match text.parse::<u64>() {
        Ok(number) => {
            if spells(word, number) {
                Some(number)
            } else {
                None
            }
        }
        Err(_) => None,
    }
}

fn is_within(number: u64, low: u32, end: u32) -> bool
    ensures { IsTrue result ↔ IsWithin low end number }
{
    u64::from(low) <= number && number < u64::from(end)
}

/// The number in a word, if it is at least `low` and below `end`.
pub fn number_within(word: &[u8], low: u32, end: u32) -> Option<u32>
    ensures { Reads decimal (IsWithin low end) word.now result }
{
    let number = number_of(word)?;
    if is_within(number, low, end) {
        Some(number as u32)
    } else {
        None
    }
}

/// The bytes in a word.
pub fn bytes_of(alloc: Global, word: &[u8]) -> Result<Option<Vec<u8>>, NoMemory>
    ensures some { IfOk result (λ found. IfSome found (λ bytes. word.now ≡ word_of bytes.items)) }
    ensures none { IfOk result (λ found. IfNone found ((bytes : List ℕ) → IsBytes bytes → word.now ≢ word_of bytes)) }
{
    if is_same(word, b"-") {
        return Ok(Some(Vec::new(alloc)));
    }
    if word.is_empty() {
        return Ok(None);
    }
    let bytes = match hex::decode(alloc, word) {
        Ok(bytes) => bytes,
        Err(e) => match e {
            FromHexError::OutOfMemory => return Err(NoMemory),
            _ => return Ok(None),
        },
    };
    let again = hex::encode(alloc, &bytes)?;
    if is_same(again.as_bytes(), word) {
        return Ok(Some(bytes));
    }
    Ok(None)
}

// Whether each byte is a decimal digit.
fn are_digits(word: &[u8]) -> bool
    ensures { IsTrue result ↔ AreDigits word.now }
{
    word.iter().all(|c| b'0' <= *c && *c <= b'9')
}

/// Whether the word is a number of any size: decimal digits without a leading zero.
// rule: Schedules: A number is decimal digits without a leading zero
pub fn is_number(word: &[u8]) -> bool
    ensures { IsTrue result ↔ IsNumber word.now }
{
    if word.is_empty() || !are_digits(word) {
        return false;
    }
    word[0] != b'0' || word.len() == 1
}
