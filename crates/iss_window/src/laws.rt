//! Theorems about client windows, as calls that do nothing.
ghost use Rattle.std.specs.Prelude.{◌≡◌, ◌≤◌, ℕ, List, []};
ghost use Rattle.iss_request.specs.declared.ids.ReqId.{ReqId};
ghost use Rattle.iss_window.specs.History.{AreInside, Moment, noted_after};
ghost use Rattle.iss_window.specs.Kept.{RefinesNoted};
ghost use Rattle.iss_window.specs.Window.{IsLow, low, none_noted};

use crate::windows::Windows;

/// A client's window begins at its least number that was not ordered, whatever was ordered.
pub fn windows_begin_at_the_least()
    ensures { (ids : List ReqId) (client : ℕ) → IsLow ids client (low ids client) }
{}

/// Windows at most 64 wide have no strays, where each number was inside its window when it was noted. So they take the
/// same memory, however many numbers were noted.
pub fn windows_used_in_order_have_no_strays(windows: &Windows)
    ensures { (ms : List Moment) → windows.now.width ≤ 64 → RefinesNoted windows.now (noted_after none_noted ms)
        → AreInside windows.now.width none_noted ms → windows.now.strays ≡ [] }
{
    let _ = &windows.strays;
}
