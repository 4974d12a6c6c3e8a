//! The laws of good certificates and of choices. The functions compute nothing: their contracts are the theorems.
ghost use Rattle.std.specs.Prelude.{◌≡◌, ℕ, List, true};
ghost use Rattle.iss_sb.specs.declared.effects.Params.{Params};
ghost use Rattle.pbft_views.specs.Choice.{choice};
ghost use Rattle.pbft_views.specs.Good.{are_changes, are_enough, is_good};
ghost use Rattle.pbft_views.specs.Laws.{HasChanges, HasVotes, IsChoice};
ghost use Rattle.pbft_wire.specs.declared.messages.Certificate.{Certificate};
ghost use Rattle.pbft_wire.specs.declared.messages.Change.{Change};

/// A good certificate has the Prepares of 2f distinct replicas other than the primary.
pub fn certificates_have_votes()
    ensures { (p : Params) (c : Certificate) → is_good p c ≡ true → HasVotes p c }
{}

/// A NewView has the ViewChanges of 2f+1 distinct replicas, and their certificates are good and of lower views.
pub fn a_view_begins_with_a_quorum()
    ensures { (p : Params) (v : ℕ) (xs : List Change) → are_enough p v xs ≡ true → HasChanges p v xs }
{}

/// The choice at a slot is the value of the certificate of the highest view, that of the lowest replica in a tie, and
/// nil if there is no certificate.
pub fn the_choice_is_the_highest()
    ensures { (p : Params) (v from s : ℕ) (xs : List Change) → are_changes p v from xs ≡ true →
        IsChoice xs s (choice xs s) }
{}
