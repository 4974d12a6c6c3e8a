//! That the format is exact. A theorem, as a call without a body: calling it makes its contract available.
ghost use Rattle.std.specs.Prelude.{◌≡◌, ◌↔◌, ◌++◌, ℕ, List};
ghost use Rattle.iss_request.specs.declared.requests.Value.{Value};
ghost use Rattle.iss_request.specs.Fields.{Good};
ghost use Rattle.iss_snapshot.specs.declared.snapshots.Snapshot.{Snapshot};
ghost use Rattle.iss_snapshot.specs.Snapshots.{IsEncodable, parse_snapshot, spell_snapshot};

/// Bytes begin with a snapshot exactly if it is encodable after the log and they begin with its encoding, and then what
/// follows is the rest. So a snapshot has at most one encoding, and no encoding is a prefix of another.
pub fn snapshots_are_exact()
    ensures { (version : ℕ) (slots : List Value → ℕ → ℕ) (log : List Value) (s : Snapshot) (bytes rest : List ℕ) →
        (parse_snapshot version slots log bytes ≡ Good s rest)
        ↔ (IsEncodable version slots log s × (bytes ≡ spell_snapshot version s ++ rest)) }
{}
