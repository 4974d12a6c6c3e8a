//! Theorems about the division of epochs, each as a call without a body.
ghost use Rattle.std.specs.Prelude.{◌≡◌, ℕ, ◌+◌, ◌*◌, ◌^◌, ◌≤◌, List, length};
ghost use Rattle.iss_request.specs.Setup.{IsGoodSetup};
ghost use Rattle.iss_request.specs.declared.requests.Value.{Value};
ghost use Rattle.iss_request.specs.declared.setups.Policy.TheVariants.{Blacklist};
ghost use Rattle.iss_request.specs.declared.setups.Setup.{Setup};
ghost use Rattle.iss_layout.specs.Layout.{Conduct, IsFair, IsOfThePast, leaders_by, plan_of};

/// Under a good set-up each epoch has a leader, each of its slots is in exactly one leader's segment, and each bucket
/// has exactly one owner, which leads.
pub fn epochs_are_fair()
    ensures { (s : Setup) (e : ℕ) (start : ℕ) (log : List Value) →
        IsGoodSetup s → start + s.epoch ≤ 2 ^ 64 → IsFair (plan_of s e start log) }
{}

/// Once a log holds all slots before an epoch, no later value changes who leads that epoch. So all correct nodes agree
/// on the leaders.
pub fn policies_read_the_past()
    ensures { (s : Setup) (e : ℕ) (log newer : List Value) → e * s.epoch ≤ length log → IsOfThePast s e log newer }
{}

/// The blacklist excludes at most f nodes, whatever the log.
pub fn few_are_left_out()
    ensures { (s : Setup) (c : ℕ → Conduct) → s.policy ≡ Blacklist → s.n ≤ length (leaders_by s c) + s.f }
{}
