//! A theorem about the rules of a set-up, as a call without a body: calling it makes its contract available.
ghost use Rattle.std.specs.Prelude.{◌≡◌, ◌<◌, ◌≤◌, ◌^◌, ℕ, true, List, length};
ghost use Rattle.iss_request.specs.Setup.{IsGoodSetup};
ghost use Rattle.iss_request.specs.declared.setups.Setup.{Setup};
ghost use Rattle.iss_rules.specs.Concrete.{rules_of, request_of};

/// A request that a schedule makes is validly signed, so no node refuses it as unsigned. Its client must exist, its
/// number must have a leaf in the client's key, and its payload is at most 256 bytes.
pub fn requests_are_signed()
    ensures { (s : Setup) (client number : ℕ) (payload : List ℕ) → IsGoodSetup s → client < s.clients →
        number < 2 ^ s.keys → length payload ≤ 256 →
        (rules_of s).signed (request_of s client number payload) ≡ true }
{}
