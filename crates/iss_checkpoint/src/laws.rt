//! Theorems about checkpoint votes and certificates, each as a call without a body.
ghost use Rattle.std.specs.Prelude.{◌≡◌, ◌↔◌, ◌⊎◌, ◌++◌, ℕ, List, [], true};
ghost use Rattle.iss_keys.specs.Directories.{DirectoryView};
ghost use Rattle.iss_request.specs.Fields.{Good, IsBad, IsReadAgain};
ghost use Rattle.iss_request.specs.Setup.{IsGoodSetup};
ghost use Rattle.iss_request.specs.declared.setups.Setup.{Setup};
ghost use Rattle.iss_checkpoint.specs.Bodies.{IsSpelledVote, parse_vote, spell_vote};
ghost use Rattle.iss_checkpoint.specs.Certificates.{IsSpelledCert, parse_cert, spell_cert};
ghost use Rattle.iss_checkpoint.specs.Votes.{HasCorrectSigner, IsCert, Voters, is_cert, voters_of};
ghost use Rattle.iss_checkpoint.specs.declared.votes.Cert.{Cert};
ghost use Rattle.iss_checkpoint.specs.declared.votes.Vote.{Vote};

/// A valid certificate is signed by a quorum of different nodes. Under a good set-up one of these is correct, so a
/// correct node had the log that the certificate states.
pub fn certificates_have_a_correct_signer()
    ensures quorum { (w : Voters) (c : Cert) → (is_cert w c ≡ true) ↔ IsCert w c }
    ensures correct { (s : Setup) (d : DirectoryView) (c : Cert) → IsGoodSetup s → is_cert (voters_of s d) c ≡ true →
        HasCorrectSigner s d c }
{}

/// A vote for an epoch has at most one encoding, and no encoding is a prefix of another. A vote without an encoding is
/// written as bytes that decode to no vote, whatever follows them.
pub fn votes_are_exact()
    ensures only { (by e : ℕ) (bytes rest : List ℕ) (v : Vote) → parse_vote by e bytes ≡ Good v rest →
        bytes ≡ spell_vote v ++ rest }
    ensures whole { (v : Vote) → IsReadAgain spell_vote (parse_vote v.by.0 v.epoch.0) v
        ⊎ ((rest : List ℕ) → IsBad (parse_vote v.by.0 v.epoch.0 (spell_vote v ++ rest))) }
    // Bytes decode to a vote exactly if the table relates them.
    ensures table { (by e : ℕ) (v : Vote) (bytes : List ℕ) → (parse_vote by e bytes ≡ Good v [])
        ↔ IsSpelledVote by e v bytes }
{}

/// A certificate of an epoch has at most one encoding, and no encoding is a prefix of another. A certificate without an
/// encoding is written as bytes that decode to none, whatever follows them.
pub fn certificates_are_exact()
    ensures only { (e : ℕ) (bytes rest : List ℕ) (c : Cert) → parse_cert e bytes ≡ Good c rest →
        bytes ≡ spell_cert c ++ rest }
    ensures whole { (c : Cert) → IsReadAgain spell_cert (parse_cert c.epoch.0) c
        ⊎ ((rest : List ℕ) → IsBad (parse_cert c.epoch.0 (spell_cert c ++ rest))) }
    // Bytes decode to a certificate exactly if the table relates them.
    ensures table { (e : ℕ) (c : Cert) (bytes : List ℕ) → (parse_cert e bytes ≡ Good c []) ↔ IsSpelledCert e c bytes }
{}
