ghost use Rattle.std.specs.Prelude.{◌≡◌, ◌≤◌, pos, ◌+ℤ◌, ◌-ℤ◌, ◌≤ℤ◌, ◌<ℤ◌, IfOk, IfErr};
ghost use Rattle.hb_windows.specs.Sending.{Moves};
ghost use Rattle.hb_frames.specs.Numbers.{largest};

use crate::overrun::Overrun;
use hb_frames::numbers::LARGEST;
use std::marker::Model;

/// The octets of DATA that this end may still send on a stream or a connection (RFC 9113 sections 5.2
/// and 6.9). A change of the peer's initial window size may take it below zero.
#[derive(Drop)]
pub struct SendWindow {
    held: i32,
    size: u32,
}

impl Model for SendWindow {
    ghost use Rattle.std.specs.Prelude.{◌≤◌, pos, ◌+ℤ◌, ◌≤ℤ◌};
    ghost use Rattle.hb_windows.specs.Sending.{Sending};
    ghost use Rattle.hb_frames.specs.Numbers.{largest};

    ghost Value = { Sending };

    ghost view = { λ w. record { held = w.held; size = w.size } };

    ghost invariant = { λ w.
        (w.size ≤ largest) × (pos w.size ≤ℤ (w.held +ℤ pos largest)) × (w.held ≤ℤ pos largest) };
}

impl SendWindow {
    /// A window of an initial size in octets.
    pub fn new(size: u32) -> SendWindow
        requires { size ≤ largest }
        ensures { result ≡ record { held = pos size; size = size } }
    {
        SendWindow {
            held: size as i32,
            size,
        }
    }

    /// The octets that may be sent; below zero where as many must be granted before any may be sent.
    pub fn held(&self) -> i64
        ensures value { result ≡ self.now.held }
        // A resize takes away at most the size before it.
        ensures least { pos self.now.size ≤ℤ (result +ℤ pos largest) }
        ensures most { result ≤ℤ pos largest }
    {
        i64::from(self.held)
    }

    /// The initial size that it counts from.
    pub fn size(&self) -> u32
        ensures { result ≡ self.now.size }
    {
        self.size
    }

    /// Takes away the octets of a DATA frame that is sent.
    pub fn spend(&mut self, n: u32)
        requires { pos n ≤ℤ self.old.held }
        ensures { self.new ≡ record self.old { held = self.old.held -ℤ pos n } }
    {
        self.held = (i64::from(self.held) - i64::from(n)) as i32;
    }

    /// Gives back the octets of a DATA frame that is taken back before it begins.
    pub fn give_back(&mut self, n: u32)
        requires { (self.old.held +ℤ pos n) ≤ℤ pos largest }
        ensures { self.new ≡ record self.old { held = self.old.held +ℤ pos n } }
    {
        self.held = (i64::from(self.held) + i64::from(n)) as i32;
    }

    /// Adds the increment of a WINDOW_UPDATE frame (RFC 9113 section 6.9).
    ///
    /// Errors: an `Overrun` where the window would exceed 2,147,483,647 (section 6.9.1). It is unchanged then.
    pub fn grant(&mut self, n: u32) -> Result<(), Overrun>
        ensures { Moves self.old self.new result (pos n) self.old.size }
    {
        self.held = moved(self.held, i64::from(n))?;
        Ok(())
    }

    /// Changes the initial size from `old` to `new` by SETTINGS_INITIAL_WINDOW_SIZE (RFC 9113 section 6.9.2): the
    /// window moves by the difference, also below zero.
    ///
    /// Errors: an `Overrun` where the window would exceed 2,147,483,647. It is unchanged then.
    pub fn resize(&mut self, old: u32, new: u32) -> Result<(), Overrun>
        requires last_size { old ≡ self.old.size }
        requires in_range { new ≤ largest }
        ensures { Moves self.old self.new result (pos new -ℤ pos old) new }
    {
        let by = new as i64 - old as i64;
        self.held = moved(self.held, by)?;
        self.size = new;
        Ok(())
    }
}

/// What a window that holds so much holds after a change.
fn moved(held: i32, by: i64) -> Result<i32, Overrun>
    requires least_sum { pos 0 ≤ℤ ((held +ℤ by) +ℤ pos 2147483648) }
    requires small { by ≤ℤ pos 4294967296 }
    requires least { pos 0 ≤ℤ (by +ℤ pos 4294967296) }
    ensures ok { IfOk result (λ sum. (sum ≡ held +ℤ by) × (sum ≤ℤ pos largest)) }
    ensures err { IfErr result (λ e. (pos largest <ℤ (held +ℤ by)) × (e ≡ record { held = held; asked = by })) }
{
    let held = i64::from(held);
    let sum = held + by;
    if sum > i64::from(LARGEST) {
        return Err(Overrun { held, asked: by });
    }
    Ok(sum as i32)
}
