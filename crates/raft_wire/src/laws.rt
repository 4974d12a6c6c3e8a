//! The law of the formats. The function computes nothing: its contract is the theorem.
ghost use Rattle.std.specs.Prelude.{◌≡◌, ℕ, ◌↔◌, List, []};
ghost use Rattle.iss_request.specs.Fields.{Good, IsGrammar};
ghost use Rattle.raft_wire.specs.Messages.{IsSpelledMessage, parse, spell};
ghost use Rattle.raft_wire.specs.declared.messages.Message.{Message};

/// In each format version a message has at most one encoding, and none is a prefix of another. A message without one is
/// written as bytes that no reader accepts, whatever follows.
pub fn messages_are_exact()
    ensures grammar { (version : ℕ) → IsGrammar (spell version) (parse version) }
    // Decoding all of the bytes is the relation of the encoding.
    ensures message_table { (version : ℕ) (msg : Message) (bytes : List ℕ) →
        (parse version bytes ≡ Good msg []) ↔ IsSpelledMessage version msg bytes }
{}
