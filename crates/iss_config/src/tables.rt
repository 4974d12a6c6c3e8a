//! What a table holds at a key.
ghost use Rattle.std.specs.Prelude.{◌≡◌, ◌≢◌, ◌≤◌, ◌↔◌, ℕ, [], IfNone, IfSome, IsTrue, Some, codes, get_or, option_map, pos};
ghost use Rattle.std.specs.List.Sorted.{IsStrictlySortedBy};
ghost use Rattle.std.specs.Map.{keys_of};
ghost use Rattle.std.specs.String.{string_cmp};
ghost use Rattle.toml.specs.View.{table_view};
ghost use Rattle.iss_request.specs.declared.setups.Policy.{Policy};
ghost use Rattle.iss_schedule.specs.Headers.{IsOneOf, module_rows, place_of_policy, policy_lines, row_of};
ghost use Rattle.iss_config.specs.Configs.{word_in};
ghost use Rattle.iss_config.specs.Internal.{HasNumber, count_of, integer_at, text_at};

use crate::modules::{module_of, policy_of};
use iss_request::Policy;
use toml::Table;

// How many keys a configuration has.
const KEYS: usize = 11;

// The whole number at a key.
fn integer_at(table: &Table, key: &str) -> Option<i64>
    ensures { result ≡ integer_at key.now (table_view table.now) }
{
    match table.get(key) {
        Some(value) => value.as_integer(),
        None => None,
    }
}

// The text at a key.
fn text_at<'a>(table: &'a Table, key: &str) -> Option<&'a str>
    ensures { option_map (λ s. s.now) result ≡ text_at key.now (table_view table.now) }
{
    match table.get(key) {
        Some(value) => value.as_str(),
        None => None,
    }
}

// The number that an integer is, if it is from `low` to `high`.
fn number_in(whole: i64, low: u32, high: u32) -> Option<u32>
    ensures some { IfSome result (λ n. (whole ≡ pos n) × (low ≤ n) × (n ≤ high)) }
    ensures none { IfNone result ((n : ℕ) → low ≤ n → n ≤ high → whole ≢ pos n) }
{
    if i64::from(low) <= whole && whole <= i64::from(high) {
        return Some(whole as u32);
    }
    None
}

/// The whole number at a key, if it is from `low` to `high`.
pub(crate) fn number_at(table: &Table, key: &str, low: u32, high: u32) -> Option<u32>
    ensures some { IfSome result (HasNumber (table_view table.now) key.now low high) }
    ensures none { IfNone result ((n : ℕ) → ¬ HasNumber (table_view table.now) key.now low high n) }
{
    match integer_at(table, key) {
        Some(whole) => number_in(whole, low, high),
        None => None,
    }
}

/// The module at its key.
pub(crate) fn module_at(table: &Table) -> Option<u8>
    ensures some { IfSome result (λ m. IsOneOf m module_rows
        × (text_at (codes "module") (table_view table.now) ≡ Some (word_in (row_of m).line))) }
    ensures none { IfNone result ((m : ℕ) → IsOneOf m module_rows →
        text_at (codes "module") (table_view table.now) ≢ Some (word_in (row_of m).line)) }
{
    match text_at(table, "module") {
        Some(word) => module_of(word),
        None => None,
    }
}

/// The policy at its key.
pub(crate) fn policy_at(table: &Table) -> Option<Policy>
    ensures some { IfSome result (λ p. text_at (codes "policy") (table_view table.now)
        ≡ Some (word_in (get_or policy_lines (place_of_policy p) []))) }
    ensures none { IfNone result ((p : Policy) → text_at (codes "policy") (table_view table.now)
        ≢ Some (word_in (get_or policy_lines (place_of_policy p) []))) }
{
    match text_at(table, "policy") {
        Some(word) => policy_of(word),
        None => None,
    }
}

/// Whether the table has as many keys as a configuration. The keys of a table ascend.
pub(crate) fn has_all_keys(table: &Table) -> bool
    ensures all { IsTrue result ↔ (count_of (table_view table.now) ≡ 11) }
    ensures ascending { IsStrictlySortedBy string_cmp (keys_of table.now.entries) }
{
    table.len() == KEYS
}
