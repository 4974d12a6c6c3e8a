// Laws of the grammar of a journal's file.
ghost use Rattle.std.specs.Prelude.{◌≡◌, ◌<◌, ℕ, List};
ghost use Rattle.std.specs.List.{All};
ghost use Rattle.iss_journal.specs.Frames.{Reading, Reads, version_1};
ghost use Rattle.iss_journal.specs.Promises.{Shows};

/// Every list of bytes has exactly one reading: it holds one list of entries, or is damaged at one offset. So one list
/// is what stays of its entries.
pub fn a_file_has_one_reading()
    ensures some { (file : List ℕ) → All (λ b. b < 256) file → (r : Reading) × Reads version_1 file r }
    ensures one { (file : List ℕ) (r s : Reading) → Reads version_1 file r → Reads version_1 file s → r ≡ s }
    ensures shown { (entries others : List (List ℕ)) (file : List ℕ) →
        Shows version_1 entries file → Shows version_1 others file →
        entries ≡ others }
{}
