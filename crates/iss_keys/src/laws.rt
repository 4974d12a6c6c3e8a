//! Laws of the definitions. Each is the contract of a function that does nothing, so that proofs in higher crates can
//! call it.

ghost use Rattle.std.specs.Prelude.{◌≡◌, ℕ, List, ◌<◌, ◌^◌, slice_index};
ghost use Rattle.iss_base.specs.Heights.{IsHeight};
ghost use Rattle.iss_keys.specs.Levels.{root_of};
ghost use Rattle.iss_keys.specs.Signatures.{Verifies, signature_of, leaf_number};

/// Each signature made as defined verifies, has the number of its leaf, and is a list of bytes.
pub fn signatures_verify()
    ensures verifies { (secret s : List ℕ) (h q : ℕ) → IsHeight h → q < 2 ^ h
        → Verifies (root_of secret h) h s (signature_of secret h q s) }
    ensures leaf { (secret s : List ℕ) (h q : ℕ) → IsHeight h → q < 2 ^ h
        → leaf_number (signature_of secret h q s) ≡ q }
    ensures bytes { (secret s : List ℕ) (h q : ℕ) → IsHeight h → q < 2 ^ h
        → (i : ℕ) → slice_index (signature_of secret h q s) i < 256 }
{}
