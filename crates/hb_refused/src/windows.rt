//! Of hb_windows.

ghost use Rattle.std.specs.Prelude.{◌≡◌, pos, ◌+ℤ◌, ◌≤ℤ◌};
ghost use Rattle.hb_frames.specs.Numbers.{largest};

use hb_windows::SendWindow;

/// `SendWindow::give_back`.
pub fn give_back(window: &mut SendWindow, n: u32)
    requires { (window.old.held +ℤ pos n) ≤ℤ pos largest }
    ensures { window.new ≡ record window.old { held = window.old.held +ℤ pos n } }
{
    window.give_back(n);
}
