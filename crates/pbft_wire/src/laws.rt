//! The law of the formats. The function computes nothing: its contract is the theorem.
ghost use Rattle.std.specs.Prelude.{◌≡◌, ℕ, ◌↔◌, List, []};
ghost use Rattle.iss_request.specs.Fields.{Good, IsGrammar};
ghost use Rattle.pbft_wire.specs.Messages.{IsSpelledMessage, parse, spell};
ghost use Rattle.pbft_wire.specs.declared.messages.Message.{Message};

/// In each version of the formats a message has at most one encoding, and no encoding is a prefix of another. A
/// message without one is written as bytes that do not decode, whatever follows them.
pub fn messages_are_exact()
    ensures grammar { (version : ℕ) → IsGrammar (spell version) (parse version) }
    // Bytes decode as a message exactly if the table relates the two.
    ensures message_table { (version : ℕ) (msg : Message) (bytes : List ℕ) →
        (parse version bytes ≡ Good msg []) ↔ IsSpelledMessage version msg bytes }
{}
