//! The words of a configuration, and what follows from the number of its module.
ghost use Rattle.std.specs.Prelude.{◌≡◌, ◌≢◌, ◌≤◌, ℕ, [], IfNone, IfSome, get_or};
ghost use Rattle.iss_request.specs.declared.setups.Policy.{Policy};
ghost use Rattle.iss_schedule.specs.Headers.{IsOneOf, module_rows, place_of_policy, policy_lines, row_of};
ghost use Rattle.iss_config.specs.Configs.{word_in};
ghost use Rattle.iss_config.specs.Internal.{nodes_of, quorum_of};

use iss_request::{Kind, Policy, nodes_of_kind, quorum};

const RELAY: u8 = 1;

/// The number of the module with this word. To add a module, add a line here and one in `kind_of`.
// rule: Schedules: A module is one row: its word, its number, its fault model, the most faults
pub(crate) fn module_of(word: &str) -> Option<u8>
    ensures some { IfSome result (λ m. IsOneOf m module_rows × (word.now ≡ word_in (row_of m).line)) }
    ensures none { IfNone result ((m : ℕ) → IsOneOf m module_rows → word.now ≢ word_in (row_of m).line) }
{
    match word {
        "relay" => Some(RELAY),
        "raft" => Some(2),
        "pbft" => Some(3),
        "hotstuff" => Some(4),
        "chained" => Some(5),
        _ => None,
    }
}

/// The fault model of the module with this number.
pub(crate) fn kind_of(number: u8) -> Kind
    requires { IsOneOf number module_rows }
    ensures { result ≡ (row_of number).kind }
{
    match number {
        RELAY | 2 => Kind::Stopping,
        _ => Kind::Byzantine,
    }
}

/// The maximal f of the module with this number.
pub(crate) fn most_faults(number: u8) -> u32
    requires { IsOneOf number module_rows }
    ensures most { result ≡ (row_of number).most_faults }
    ensures few { result ≤ 3 }
{
    if number == RELAY { 0 } else { 3 }
}

/// The number of nodes of a cluster with this module that tolerates `f` faults; the relay has three.
pub(crate) fn nodes_of(number: u8, f: u32) -> u32
    requires known { IsOneOf number module_rows }
    requires few { f ≤ 3 }
    ensures nodes { result ≡ nodes_of number f }
    ensures few { result ≤ 10 }
{
    if number == RELAY {
        return 3;
    }
    nodes_of_kind(kind_of(number), f)
}

/// The size of a quorum of that cluster; for the relay it is two.
pub(crate) fn quorum_of(number: u8, f: u32) -> u32
    requires known { IsOneOf number module_rows }
    requires few { f ≤ 3 }
    ensures { result ≡ quorum_of number f }
{
    if number == RELAY {
        return 2;
    }
    quorum(kind_of(number), f)
}

/// The policy with this word.
pub(crate) fn policy_of(word: &str) -> Option<Policy>
    ensures some { IfSome result (λ p. word.now ≡ word_in (get_or policy_lines (place_of_policy p) [])) }
    ensures none { IfNone result ((p : Policy) → word.now ≢ word_in (get_or policy_lines (place_of_policy p) [])) }
{
    match word {
        "simple" => Some(Policy::Simple),
        "backoff" => Some(Policy::Backoff),
        "blacklist" => Some(Policy::Blacklist),
        _ => None,
    }
}
