//! Theorems about replies, each as a call without a body.
ghost use Rattle.std.specs.Prelude.{◌≡◌, ◌≢◌, ◌^◌, ◌<◌, ◌≤◌, ◌++◌, ◌∷◌, [], ℕ, List, Some, true};
ghost use Rattle.iss_base.specs.Heights.{IsHeight};
ghost use Rattle.iss_keys.specs.Chains.{chain_start};
ghost use Rattle.iss_keys.specs.Levels.{tree_of_key};
ghost use Rattle.iss_request.specs.declared.requests.Value.{Value};
ghost use Rattle.iss_request.specs.declared.setups.Setup.{Setup};
ghost use Rattle.iss_reply.specs.declared.replies.Reply.{Reply};
ghost use Rattle.iss_reply.specs.Clients.{IsReplyOf, cluster_of, is_signed};
ghost use Rattle.iss_reply.specs.Replies.{Replying, Separates, chain_string, replying, reply_at, reply_secret, tree_string};
ghost use Rattle.iss_reply.specs.Repliers.{Answered, ReplierState};
ghost use Rattle.sha2.specs.Sha256.{sha256};

/// What a replier answered of a log it answered of each longer one (`answered`). A node's reply to a request of a log
/// is its reply in each longer one (`replies`).
pub fn repliers_follow_the_log()
    ensures answered { (r : ReplierState) (log more : List Value) → Answered r log → Answered r (log ++ more) }
    ensures replies { (w : Replying) (log more : List Value) (q : ℕ) (r : Reply) → reply_at w log q ≡ Some r →
        reply_at w (log ++ more) q ≡ Some r }
{}

/// A replier's replies are those that a client may believe: each is its node's reply to a request of the log, and is
/// signed.
pub fn replies_are_their_nodes()
    ensures own { (s : Setup) (me q : ℕ) (log : List Value) (r : Reply) → reply_at (replying s me) log q ≡ Some r →
        IsReplyOf s log r }
    ensures signed { (s : Setup) (me q : ℕ) (log : List Value) (r : Reply) → me < s.n → IsHeight s.keys →
        q < 2 ^ s.keys → reply_at (replying s me) log q ≡ Some r → is_signed (cluster_of s) r ≡ true }
{}

/// A reply key has no secret in common with a key of another kind, whose secret is hashed behind another byte, unless
/// SHA-256 collides. Nor has any of its trees a secret, or a start of a chain, in common with a tree of the other key.
/// So no leaf is shared.
// rule: Replies: A node's reply key has a secret of its own, made behind a byte that no other key uses
pub fn reply_keys_are_apart()
    ensures secrets { (kind i j : ℕ) → kind ≢ 0x22 → Separates (0x22 ∷ i ∷ []) (kind ∷ j ∷ []) →
        reply_secret i ≢ sha256 (kind ∷ j ∷ []) }
    ensures trees { (kind i j h t u : ℕ) → kind ≢ 0x22 → Separates (0x22 ∷ i ∷ []) (kind ∷ j ∷ []) →
        Separates (tree_string (0x22 ∷ i ∷ []) h t) (tree_string (kind ∷ j ∷ []) h u) →
        (tree_of_key (reply_secret i) h t).secret ≢ (tree_of_key (sha256 (kind ∷ j ∷ [])) h u).secret }
    ensures chains { (kind i j h t u q r k l : ℕ) → kind ≢ 0x22 → Separates (0x22 ∷ i ∷ []) (kind ∷ j ∷ []) →
        Separates (tree_string (0x22 ∷ i ∷ []) h t) (tree_string (kind ∷ j ∷ []) h u) →
        Separates (chain_string (tree_of_key (reply_secret i) h t).secret q k)
        (chain_string (tree_of_key (sha256 (kind ∷ j ∷ [])) h u).secret r l) →
        chain_start (tree_of_key (reply_secret i) h t).secret q k
        ≢ chain_start (tree_of_key (sha256 (kind ∷ j ∷ [])) h u).secret r l }
{}
