//! Numbers as words.
ghost use Rattle.std.specs.Prelude.{◌≡◌, ℕ, IfSome, None};
ghost use Rattle.iss_words.specs.Numbers.{IsNumber};

use itoa::Buffer;

/// The number from `low` to `high` that a word spells: decimal digits without a sign or a leading zero.
// rule: Program: A number is decimal digits, without a sign or a leading zero, in its range
pub fn read_number(word: &str, low: u64, high: u64) -> Option<u64>
    ensures some { IfSome result (IsNumber low high word.now) }
    ensures none { result ≡ None → (n : ℕ) → ¬ IsNumber low high word.now n }
{
    let number = match word.parse::<u64>() {
        Ok(number) => number,
        Err(_) => return None,
    };
    let mut buffer = Buffer::new();
    if buffer.format(number) != word {
        return None;
    }
    if number < low || number > high {
        return None;
    }
    Some(number)
}
