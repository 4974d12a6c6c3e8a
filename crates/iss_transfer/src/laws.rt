//! Theorems about state transfer, and about asks and pieces in bytes, each as a call without a body.
ghost use Rattle.std.specs.Prelude.{◌≡◌, ◌↔◌, ◌⊎◌, ◌++◌, ℕ, List, [], length};
ghost use Rattle.iss_base.specs.Lists.{In};
ghost use Rattle.iss_keys.specs.Directories.{DirectoryView};
ghost use Rattle.iss_request.specs.Fields.{Good, IsBad, IsReadAgain};
ghost use Rattle.iss_request.specs.Setup.{IsGoodSetup};
ghost use Rattle.iss_request.specs.declared.requests.Value.{Value};
ghost use Rattle.iss_request.specs.declared.setups.Setup.{Setup};
ghost use Rattle.iss_sb.specs.Evidence.{Separate};
ghost use Rattle.iss_log.specs.Chains.{end_of};
ghost use Rattle.iss_checkpoint.specs.Votes.{Voters, voters_of};
ghost use Rattle.iss_transfer.specs.Adoption.{IsHashed, IsSaidByCorrect, adopted_log, adoption, said_in};
ghost use Rattle.iss_transfer.specs.Bodies.{IsSpelledPiece, parse_ask, parse_piece, spell_ask, spell_piece};
ghost use Rattle.iss_transfer.specs.declared.adopting.Adoption.TheVariants.{Adopt};
ghost use Rattle.iss_transfer.specs.declared.pieces.Ask.{Ask};
ghost use Rattle.iss_transfer.specs.declared.pieces.Piece.{Piece};

/// Under a good set-up, when a node adopts a piece, a correct node has signed the chain digest of the resulting log for
/// that epoch (`correct`).
pub fn what_is_adopted_a_correct_node_said()
    ensures correct { (s : Setup) (d : DirectoryView) (log : List Value) (e : ℕ) (p : Piece) (hashed : List (List ℕ))
        → IsGoodSetup s → adoption s (voters_of s d) log e p ≡ Adopt hashed
        → IsSaidByCorrect s d e (adopted_log s log e p) }
    // So this log equals the log of every node that signed it, slot by slot, unless SHA-256 collides.
    ensures one_log { (s : Setup) (w : Voters) (log theirs : List Value) (e : ℕ) (p : Piece)
        (hashed all : List (List ℕ)) → adoption s w log e p ≡ Adopt hashed → end_of s.version theirs ≡ said_in p.cert
        → length theirs ≡ length (adopted_log s log e p) → Separate (λ x. In x all)
        → IsHashed s.version all (adopted_log s log e p) → IsHashed s.version all theirs
        → theirs ≡ adopted_log s log e p }
{}

/// An ask for an epoch has exactly one encoding, which is empty.
pub fn asks_are_exact()
    ensures only { (e : ℕ) (bytes rest : List ℕ) (a : Ask) → parse_ask e bytes ≡ Good a rest →
        bytes ≡ spell_ask a ++ rest }
    ensures whole { (a : Ask) → IsReadAgain spell_ask (parse_ask a.epoch.0) a }
    ensures table { (e : ℕ) (a : Ask) (bytes : List ℕ) → (parse_ask e bytes ≡ Good a [])
        ↔ ((a.epoch.0 ≡ e) × (bytes ≡ [])) }
{}

/// In each version a piece of an epoch has at most one encoding, and no encoding is a prefix of another. A piece
/// without an encoding is written as bytes that decode to none, whatever follows them.
pub fn pieces_are_exact()
    ensures only { (version e : ℕ) (bytes rest : List ℕ) (p : Piece) → parse_piece version e bytes ≡ Good p rest →
        bytes ≡ spell_piece version p ++ rest }
    ensures whole { (version : ℕ) (p : Piece) → IsReadAgain (spell_piece version) (parse_piece version p.epoch.0) p
        ⊎ ((rest : List ℕ) → IsBad (parse_piece version p.epoch.0 (spell_piece version p ++ rest))) }
    // Bytes decode to a piece exactly if the table relates them.
    ensures table { (version e : ℕ) (p : Piece) (bytes : List ℕ) → (parse_piece version e bytes ≡ Good p [])
        ↔ IsSpelledPiece version e p bytes }
{}
