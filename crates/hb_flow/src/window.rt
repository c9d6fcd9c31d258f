//! Changes of one window.

ghost use Rattle.std.specs.Prelude.{◌≡◌, ◌≤◌, pos, ◌+ℤ◌, ◌-ℤ◌, ◌≤ℤ◌, ◌<ℤ◌, IfOk, IfErr};
ghost use Rattle.hb_frames.specs.Numbers.{largest};
ghost use Rattle.hb_flow.specs.Windows.{room, counted, less, more, sized};
ghost use Rattle.hb_flow.specs.Sizes.{size_limit};
ghost use Rattle.hb_flow.specs.Answers.{Rises};

use hb_frames::numbers::LARGEST;
use hb_windows::{Overrun, SendWindow};

/// The octets that a window lets go.
pub fn room_of(window: &SendWindow) -> u32
    ensures value { result ≡ room window.now }
    ensures most { window.now.held ≤ℤ pos largest }
{
    let held = window.held();
    if held < 0 { 0 } else { held as u32 }
}

/// Takes away octets that a window lets go, which may be none below zero.
pub fn spend(window: &mut SendWindow, n: u32)
    requires { n ≤ room window.old }
    ensures { window.new ≡ less window.old n }
{
    if n > 0 {
        window.spend(n);
    }
}

/// Adds an increment, where the DATA that hasn't begun counts as not spent.
///
/// Errors: an `Overrun` where the window, that DATA counted, would exceed 2,147,483,647 (RFC 9113 section 6.9.1). The
/// window is unchanged then.
pub fn grant(window: &mut SendWindow, n: u32, unbegun: u32) -> Result<(), Overrun>
    ensures { Rises window.old window.new result (more window.old n) (counted window.old unbegun) (pos n) }
{
    within(window.held() + unbegun as i64, n as i64)?;
    window.grant(n)
}

/// Changes the initial size, where the DATA that hasn't begun counts as not spent.
///
/// Errors: an `Overrun` where the window, that DATA counted, would exceed 2,147,483,647 (RFC 9113 section 6.9.2). The
/// window is unchanged then.
pub fn resize(window: &mut SendWindow, old: u32, new: u32, unbegun: u32) -> Result<(), Overrun>
    requires last_size { old ≡ window.old.size }
    requires in_range { new ≤ largest }
    ensures { Rises window.old window.new result (sized new window.old) (counted window.old unbegun) (pos new -ℤ pos old) }
{
    within(window.held() + unbegun as i64, new as i64 - old as i64)?;
    window.resize(old, new)
}

/// The largest initial size at which the window stays within the largest content, where the DATA that hasn't begun counts as
/// not spent.
pub fn size_limit(window: &SendWindow, unbegun: u32) -> i64
    ensures { result ≡ size_limit window.now unbegun }
{
    LARGEST as i64 - (window.held() + unbegun as i64 - window.size() as i64)
}

/// That a sum doesn't exceed the largest content.
fn within(held: i64, by: i64) -> Result<(), Overrun>
    requires low { pos 0 ≤ℤ (held +ℤ pos 2147483648) }
    requires high { held ≤ℤ pos 8589934592 }
    requires small { by ≤ℤ pos 4294967296 }
    requires least { pos 0 ≤ℤ (by +ℤ pos 4294967296) }
    ensures ok { IfOk result (λ _. (held +ℤ by) ≤ℤ pos largest) }
    ensures err { IfErr result (λ e. (pos largest <ℤ (held +ℤ by)) × (e ≡ record { held = held; asked = by })) }
{
    if held + by > LARGEST as i64 {
        return Err(Overrun { held, asked: by });
    }
    Ok(())
}
