//! The laws of the formats and of the tree. The functions compute nothing: their contracts are the theorems.
ghost use Rattle.std.specs.Prelude.{◌≡◌, ℕ, ◌↔◌, List, [], true, length};
ghost use Rattle.iss_base.specs.Lists.{In};
ghost use Rattle.iss_base.specs.Quorum.{distinct};
ghost use Rattle.iss_request.specs.Fields.{Good, IsGrammar};
ghost use Rattle.iss_sb.specs.Evidence.{Separate};
ghost use Rattle.iss_sb.specs.declared.content.Content.{Content};
ghost use Rattle.hs_tree.specs.Certificates.{is_quorum, signers, votes_in};
ghost use Rattle.hs_tree.specs.Messages.{IsSpelledMessage, parse, spell};
ghost use Rattle.hs_tree.specs.Paths.{IsTree, Path};
ghost use Rattle.hs_tree.specs.Tree.{Node, branch, is_known, root};
ghost use Rattle.hs_tree.specs.declared.certificates.Certificate.{Certificate};
ghost use Rattle.hs_tree.specs.declared.messages.Message.{Message};

/// For each format version and number of phases, a message has at most one encoding, and none is a prefix of another. A
/// message without one is written as bytes that no reader accepts, whatever follows.
pub fn messages_are_exact()
    ensures grammar { (phases version : ℕ) → IsGrammar (spell phases version) (parse phases version) }
    // Decoding all of the bytes is the relation of the encoding.
    ensures message_table { (phases version : ℕ) (msg : Message) (bytes : List ℕ) →
        (parse phases version bytes ≡ Good msg []) ↔ IsSpelledMessage phases version msg bytes }
{}

/// A quorum certificate has votes of as many different replicas as a quorum has.
pub fn certificates_count_nodes()
    ensures count { (quorum phase view : ℕ) (c : Certificate) → is_quorum quorum phase view c ≡ true →
        length (signers (votes_in c)) ≡ quorum }
    ensures different { (quorum phase view : ℕ) (c : Certificate) → is_quorum quorum phase view c ≡ true →
        distinct (signers (votes_in c)) ≡ true }
{}

/// The branch of a known node leads to the root. Unless SHA-256 collides on the hashed strings, a digest has one
/// branch, whichever replica knows it.
pub fn one_digest_one_branch()
    ensures leads { (version : ℕ) (hashed : List (List ℕ)) (ks : List Node) (d : List ℕ) →
        IsTree version (λ s. In s hashed) ks →
        is_known ks d ≡ true → Path version (λ s. In s hashed) d root (branch ks d) }
    ensures one { (version : ℕ) (hashed : List (List ℕ)) (d : List ℕ) (xs ys : List Content) →
        Separate (λ s. In s hashed) → In [] hashed →
        Path version (λ s. In s hashed) d root xs → Path version (λ s. In s hashed) d root ys → xs ≡ ys }
{}
