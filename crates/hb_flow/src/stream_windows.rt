//! The windows of one stream.

ghost use Rattle.std.specs.Prelude.{◌≡◌, ◌≤◌, ◌+◌, pos, ◌+ℤ◌, ◌-ℤ◌, ◌≤ℤ◌};
ghost use Rattle.hb_frames.specs.Numbers.{largest};
ghost use Rattle.hb_flow.specs.Windows.{room, counted, less, more, sized, taken, owing, due_of, paid_of};
ghost use Rattle.hb_flow.specs.Flows.{new_windows};
ghost use Rattle.hb_flow.specs.Sizes.{size_limit};
ghost use Rattle.hb_flow.specs.Answers.{Rises, Comes};

use crate::window;
use hb_windows::{Overrun, SendWindow, TakeWindow};
use std::marker::Model;

/// The initial size of a window of this end (RFC 9113 section 6.9.2).
pub const FIRST_SIZE: u32 = 65_535;

/// The windows of a stream.
#[derive(Drop)]
pub struct StreamWindows {
    sending: SendWindow,
    taking: TakeWindow,
}

const _: () = prove!(size_of::<StreamWindows>() == 20);

impl Model for StreamWindows {
    ghost use Rattle.std.specs.Prelude.{◌≤◌, ◌+◌};
    ghost use Rattle.hb_frames.specs.Numbers.{largest};
    ghost use Rattle.hb_flow.specs.Windows.{Windows};

    ghost Value = { Windows };

    ghost view = { λ w. record { sending = w.sending; taking = w.taking } };

    ghost invariant = { λ w. w.taking.granted + w.taking.kept + w.taking.owed ≤ largest };
}

impl StreamWindows {
    /// The windows of a new stream, at the peer's initial size.
    pub fn new(initial: u32) -> StreamWindows
        requires { initial ≤ largest }
        ensures { result ≡ new_windows initial }
    {
        StreamWindows {
            sending: SendWindow::new(initial),
            taking: TakeWindow::new(FIRST_SIZE),
        }
    }

    /// The octets that the sending window lets go.
    pub fn room(&self) -> u32
        ensures value { result ≡ room self.now.sending }
        ensures most { self.now.sending.held ≤ℤ pos largest }
    {
        window::room_of(&self.sending)
    }

    /// Takes away the octets of DATA that is sent.
    pub fn spend(&mut self, n: u32)
        requires { n ≤ room self.old.sending }
        ensures { self.new ≡ record self.old { sending = less self.old.sending n } }
    {
        window::spend(&mut self.sending, n);
    }

    /// Gives back the octets of DATA that is taken back.
    pub fn give_back(&mut self, n: u32)
        requires { (self.old.sending.held +ℤ pos n) ≤ℤ pos largest }
        ensures { self.new ≡ record self.old { sending = more self.old.sending n } }
    {
        self.sending.give_back(n);
    }

    /// Adds an increment to the sending window. `unbegun` octets that are spent count as not spent.
    ///
    /// Errors: an `Overrun` where the window, these octets counted, would exceed 2,147,483,647. Nothing has changed
    /// then.
    pub fn grant(&mut self, n: u32, unbegun: u32) -> Result<(), Overrun>
        ensures { Rises self.old self.new result (record self.old { sending = more self.old.sending n })
            (counted self.old.sending unbegun) (pos n) }
    {
        window::grant(&mut self.sending, n, unbegun)
    }

    /// Changes the initial size of the sending window. `unbegun` octets that are spent count as not spent.
    ///
    /// Errors: an `Overrun` where the window, these octets counted, would exceed 2,147,483,647. Nothing has changed
    /// then.
    pub fn resize(&mut self, initial: u32, unbegun: u32) -> Result<(), Overrun>
        requires { initial ≤ largest }
        ensures { Rises self.old self.new result (record self.old { sending = sized initial self.old.sending })
            (counted self.old.sending unbegun) (pos initial -ℤ pos self.old.sending.size) }
    {
        let size = self.sending.size();
        window::resize(&mut self.sending, size, initial, unbegun)
    }

    /// The largest initial size at which the sending window stays within the largest content.
    pub fn size_limit(&self, unbegun: u32) -> i64
        ensures { result ≡ size_limit self.now.sending unbegun }
    {
        window::size_limit(&self.sending, unbegun)
    }

    /// Takes DATA that came.
    ///
    /// Errors: an `Overrun` where it exceeds what is granted. Nothing has changed then.
    pub fn take(&mut self, n: u32) -> Result<(), Overrun>
        ensures { Comes self.old self.new result (record self.old { taking = taken self.old.taking n })
            self.old.taking.granted n }
    {
        self.taking.spend(n)
    }

    /// Octets that came are used up.
    pub fn owe(&mut self, n: u32)
        requires { n ≤ self.old.taking.kept }
        ensures { self.new ≡ record self.old { taking = owing self.old.taking n } }
    {
        self.taking.owe(n);
    }

    /// The increment that is to be granted now. `None` where less than 32,768 octets are owed.
    pub fn due(&mut self) -> Option<u32>
        ensures told { result ≡ due_of self.old.taking }
        ensures after { self.new ≡ record self.old { taking = paid_of self.old.taking } }
    {
        self.taking.due()
    }

    /// The octets that came and aren't used up.
    pub fn creditable(&self) -> u32
        ensures { result ≡ self.now.taking.kept }
    {
        self.taking.kept()
    }
}
