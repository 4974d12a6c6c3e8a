//! Bytes in lower-case hexadecimal. An audit reads millions of digits, so the loops let a processor take many digits at
//! a time.
ghost use Rattle.std.specs.Prelude.{◌≡◌, ◌<◌, ◌*◌, ◌↔◌, codes, length, slice_index, true, IfOk, IsTrue};
ghost use Rattle.hex.specs.Hex.{IsBytes, encode_lower, lower_digits};
ghost use Rattle.iss_schedule.specs.Reads.{Reads};
ghost use Rattle.iss_schedule.specs.Words.{word_of};
ghost use Rattle.iss_audit.specs.Digits.{AreDigits, ArePairs, is_digit};

use iss_request::{Bytes, NoMemory};
use iss_schedule::bytes_from;
use std::alloc::Global;

// Whether the byte is a digit.
fn is_digit(c: u8) -> bool
    ensures { result ≡ is_digit c }
{
    (b'0' <= c) & (c <= b'9') | (b'a' <= c) & (c <= b'f')
}

// Whether each byte is a digit.
fn are_digits(word: &[u8]) -> bool
    ensures { IsTrue result ↔ AreDigits word.now }
{
    let mut all = true;
    for c in word {
        all = all & is_digit(*c);
    }
    all
}

// Whether the word is pairs of digits, at least one.
fn are_pairs(word: &[u8]) -> bool
    ensures { IsTrue result ↔ ArePairs word.now }
{
    !word.is_empty() && word.len() % 2 == 0 && are_digits(word)
}

// The value of a digit. A letter's is nine more than its last four bits.
fn value_of(c: u8) -> u8
    requires { is_digit c ≡ true }
    ensures small { result < 16 }
    ensures digit { slice_index lower_digits result ≡ c }
{
    c % 16 + 9 * (c / 64)
}

// Writes the bytes of pairs of digits.
fn decode(word: &[u8], bytes: &mut [u8])
    requires pairs { length word.now ≡ 2 * length bytes.old }
    requires digits { AreDigits word.now }
    ensures { word.now ≡ encode_lower bytes.new }
{
    'bytes: for place in 0..bytes.len() {
        let digits = &word[2 * place..];
        bytes[place] = value_of(digits[0]) * 16 + value_of(digits[1]);
    }
}

// Whether the word stands for no bytes.
fn is_minus(word: &[u8]) -> bool
    ensures { IsTrue result ↔ (word.now ≡ codes "-") }
{
    word == b"-".as_slice()
}

/// The bytes in a word.
pub fn bytes_in(alloc: Global, word: &[u8]) -> Result<Option<Bytes>, NoMemory>
    ensures { IfOk result (Reads word_of IsBytes word.now) }
{
    if is_minus(word) {
        return Ok(Some(Bytes::new(alloc)));
    }
    if !are_pairs(word) {
        return Ok(None);
    }
    let mut bytes = vec![in alloc; 0u8; word.len() / 2]?;
    decode(word, bytes.as_mut_slice());
    Ok(Some(bytes_from(bytes)))
}
