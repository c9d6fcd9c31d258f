//! The windows of a connection and of its streams.

ghost use Rattle.std.specs.Prelude.{◌≡◌, ◌≤◌, ◌<◌, pos, ◌+ℤ◌, ◌≤ℤ◌, IfSome, OnOk, OnErr};
ghost use Rattle.std.specs.FinMap.{get};
ghost use Rattle.hb_frames.specs.Numbers.{largest};
ghost use Rattle.hb_flow.specs.Windows.{counted, due_of};
ghost use Rattle.hb_flow.specs.Flows.{fresh, opened, closed, sendable, spent, given_back, granted, took, owed, owed_on};
ghost use Rattle.hb_flow.specs.Flows.{paid, paid_on, due_on, creditable, GrantsOn, TakesOn};
ghost use Rattle.hb_flow.specs.Sizes.{unbegun_on, Resizes, ResizesOn, resized, all_with_size, behind, limit_by, IsSizeLimit};
ghost use Rattle.hb_flow.specs.Answers.{Rises, Comes};
ghost use Rattle.hb_map.specs.Keyed.{IsFirstFrom};

use crate::stream_windows::{FIRST_SIZE, StreamWindows};
use crate::window;
use hb_base::NoMemory;
use hb_frames::numbers::LARGEST;
use hb_map::ById;
use hb_windows::{Overrun, SendWindow, TakeWindow};
use std::alloc::Global;
use std::marker::Model;

/// The windows of one connection and of its streams.
#[derive(Drop)]
pub struct Flow {
    sending: SendWindow,
    taking: TakeWindow,
    initial: u32,
    streams: ById<u32, StreamWindows>,
}

impl Model for Flow {
    ghost use Rattle.std.specs.Prelude.{◌≤◌};
    ghost use Rattle.hb_frames.specs.Numbers.{largest};
    ghost use Rattle.hb_windows.specs.contracts.send_window.SendWindow.{the_row as sending_row};
    ghost use Rattle.hb_windows.specs.contracts.take_window.TakeWindow.{the_row as taking_row};
    ghost use Rattle.hb_flow.specs.contracts.stream_windows.StreamWindows.{the_row as windows_row};
    ghost use Rattle.hb_flow.specs.Flows.{Flows, flows_code, AreNumbered};

    ghost Value = { Flows };

    ghost coded = { flows_code sending_row.coded taking_row.coded windows_row.coded };

    ghost view = { λ f. record { sending = f.sending; taking = f.taking; initial = f.initial; streams = f.streams } };

    ghost invariant = { λ f. (f.initial ≤ largest) × AreNumbered f.streams };
}

impl Flow {
    /// The windows of a new connection, on which no stream has any.
    #[tactic(auto, using(crate::proofs::Numbers::numbered_none))]
    pub fn new(alloc: Global) -> Flow
        ensures { result ≡ fresh }
    {
        Flow {
            sending: SendWindow::new(FIRST_SIZE),
            taking: TakeWindow::new(FIRST_SIZE),
            initial: FIRST_SIZE,
            streams: ById::new(alloc),
        }
    }

    /// Gives a new stream its windows, the sending one of the peer's initial size (RFC 9113 section 6.9.2).
    ///
    /// Errors: `NoMemory`, and then nothing changes.
    #[tactic(auto, using(crate::proofs::Numbers::numbered_put))]
    pub fn open(&mut self, stream: u32) -> Result<(), NoMemory>
        ensures ok { OnOk result (self.new ≡ opened self.old stream) }
        ensures err { OnErr result (self.new ≡ self.old) }
    {
        self.streams.put(stream, StreamWindows::new(self.initial))
    }

    /// Takes the windows of a stream away, where it has any.
    #[tactic(auto, using(crate::proofs::Numbers::numbered_removed))]
    pub fn close(&mut self, stream: u32)
        ensures { self.new ≡ closed self.old stream }
    {
        self.streams.remove(stream);
    }

    /// How many octets of DATA may be sent on a stream now: none where it has no windows.
    pub fn sendable(&self, stream: u32) -> u32
        ensures value { result ≡ sendable self.now stream }
        ensures most { 0 < result → (self.now.sending.held ≤ℤ pos largest)
            × IfSome (get self.now.streams stream) (λ w. w.sending.held ≤ℤ pos largest) }
    {
        match self.streams.get(stream) {
            Some(windows) => window::room_of(&self.sending).min(windows.room()),
            None => 0,
        }
    }

    /// Takes away the octets of DATA that is sent on a stream.
    #[tactic(auto, using(crate::proofs::Numbers::numbered_written))]
    pub fn spend(&mut self, stream: u32, n: u32)
        requires { n ≤ sendable self.old stream }
        ensures { self.new ≡ spent self.old stream n }
    {
        if let Some(windows) = self.streams.at(stream) {
            windows.spend(n);
            window::spend(&mut self.sending, n);
        }
    }

    /// Gives back the octets of DATA on a stream that is taken back before it begins.
    #[tactic(auto, using(crate::proofs::Numbers::numbered_written))]
    pub fn give_back(&mut self, stream: u32, n: u32)
        requires connection { (self.old.sending.held +ℤ pos n) ≤ℤ pos largest }
        requires stream { IfSome (get self.old.streams stream) (λ w. (w.sending.held +ℤ pos n) ≤ℤ pos largest) }
        ensures { self.new ≡ given_back self.old stream n }
    {
        self.sending.give_back(n);
        if let Some(windows) = self.streams.at(stream) {
            windows.give_back(n);
        }
    }

    /// Adds the increment of a WINDOW_UPDATE frame on stream 0 (RFC 9113 section 6.9). `unbegun` octets of DATA that
    /// are spent haven't begun, and count as not spent.
    ///
    /// Errors: an `Overrun` where the window, these octets counted, would exceed 2,147,483,647 (section 6.9.1); it
    /// tells both sums. The window is unchanged then.
    pub fn grant(&mut self, n: u32, unbegun: u32) -> Result<(), Overrun>
        ensures { Rises self.old self.new result (granted self.old n) (counted self.old.sending unbegun) (pos n) }
    {
        window::grant(&mut self.sending, n, unbegun)
    }

    /// Adds the increment of a WINDOW_UPDATE frame on a stream, where it has windows. `unbegun` octets of the stream's
    /// DATA that are spent haven't begun, and count as not spent.
    ///
    /// Errors: as for `grant`.
    #[tactic(auto, using(crate::proofs::Numbers::numbered_written, crate::proofs::Same::written_same))]
    pub fn grant_stream(&mut self, stream: u32, n: u32, unbegun: u32) -> Result<(), Overrun>
        ensures { GrantsOn self.old self.new result stream n unbegun (get self.old.streams stream) }
    {
        let Some(windows) = self.streams.at(stream) else {
            return Ok(());
        };
        windows.grant(n, unbegun)?;
        Ok(())
    }

    /// Changes the initial size of the sending windows of streams by SETTINGS_INITIAL_WINDOW_SIZE: that of each stream
    /// moves by the difference, also below zero. `unbegun` octets of the DATA of `unbegun_stream` that are spent haven't
    /// begun, and count as not spent.
    ///
    /// Errors: an Overrun where the window of a stream, these octets counted, would exceed 2,147,483,647 (RFC 9113
    /// section 6.9.2). The windows of other streams may have moved by then, since the connection ends.
    pub fn resize(&mut self, initial: u32, unbegun_stream: u32, unbegun: u32) -> Result<(), Overrun>
        requires { initial ≤ largest }
        ensures { Resizes self.old self.new result (resized self.old initial) initial unbegun_stream unbegun }
    {
        self.resize_streams(initial, unbegun_stream, unbegun)?;
        self.initial = initial;
        Ok(())
    }

    /// The largest initial size at which the sending window of each stream stays within 2,147,483,647, below zero where
    /// there is none. `unbegun` octets of the DATA of `unbegun_stream` that are spent haven't begun, and count as not spent.
    pub fn size_limit(&self, unbegun_stream: u32, unbegun: u32) -> i64
        ensures { IsSizeLimit self.now unbegun_stream unbegun result }
    {
        let mut limit = LARGEST as i64;
        let mut next = self.first_behind(None);
        while let Some(stream) = next {
            let on_stream = self.limit_on(stream, unbegun_on(unbegun_stream, unbegun, stream));
            limit = limit.min(on_stream);
            next = self.first_behind(Some(stream));
        }
        limit
    }

    /// The largest initial size that the sending window of a stream allows.
    fn limit_on(&self, stream: u32, unbegun: u32) -> i64
        ensures { result ≡ limit_by unbegun (get self.now.streams stream) }
    {
        match self.streams.get(stream) {
            Some(windows) => windows.size_limit(unbegun),
            None => LARGEST as i64,
        }
    }

    fn resize_streams(
        &mut self,
        size: u32,
        unbegun_stream: u32,
        unbegun: u32,
    ) -> Result<(), Overrun>
        requires { size ≤ largest }
        ensures { Resizes self.old self.new result
            (record self.old { streams = all_with_size size self.old.streams }) size unbegun_stream unbegun }
    {
        let mut next = self.first_behind(None);
        while let Some(stream) = next {
            self.resize_stream(stream, size, unbegun_on(unbegun_stream, unbegun, stream))?;
            next = self.first_behind(Some(stream));
        }
        Ok(())
    }

    #[tactic(auto, using(crate::proofs::Numbers::numbered_written, crate::proofs::Same::written_same))]
    fn resize_stream(&mut self, stream: u32, initial: u32, unbegun: u32) -> Result<(), Overrun>
        requires { initial ≤ largest }
        ensures { ResizesOn self.old self.new result stream initial unbegun (get self.old.streams stream) }
    {
        let Some(windows) = self.streams.at(stream) else {
            return Ok(());
        };
        windows.resize(initial, unbegun)?;
        Ok(())
    }

    /// The first stream behind another one, or of all, that has windows.
    #[tactic(auto, using(crate::proofs::Numbers::none_behind))]
    fn first_behind(&self, stream: Option<u32>) -> Option<u32>
        ensures { IsFirstFrom self.now.streams (behind stream) result }
    {
        match stream {
            None => self.streams.first_from(0),
            Some(u32::MAX) => None,
            Some(stream) => self.streams.first_from(stream + 1),
        }
    }

    /// Counts DATA that came, its padding included, against the connection's window (RFC 9113 section 6.9).
    ///
    /// Errors: an `Overrun` where it exceeds what is granted. The window is unchanged then.
    pub fn take(&mut self, n: u32) -> Result<(), Overrun>
        ensures { Comes self.old self.new result (took self.old n) self.old.taking.granted n }
    {
        self.taking.spend(n)
    }

    /// Counts DATA that came, its padding included, against the window of its stream, where it has one.
    ///
    /// Errors: as for `take`.
    #[tactic(auto, using(crate::proofs::Numbers::numbered_written, crate::proofs::Same::written_same))]
    pub fn take_stream(&mut self, stream: u32, n: u32) -> Result<(), Overrun>
        ensures { TakesOn self.old self.new result stream n (get self.old.streams stream) }
    {
        let Some(windows) = self.streams.at(stream) else {
            return Ok(());
        };
        windows.take(n)?;
        Ok(())
    }

    /// Octets that came are used up, and are owed to the peer on the connection.
    pub fn owe(&mut self, n: u32)
        requires { n ≤ self.old.taking.kept }
        ensures { self.new ≡ owed self.old n }
    {
        self.taking.owe(n);
    }

    /// Octets that came on a stream are used up, and are owed to the peer on it, where it has windows.
    #[tactic(auto, using(crate::proofs::Numbers::numbered_written))]
    pub fn owe_stream(&mut self, stream: u32, n: u32)
        requires { IfSome (get self.old.streams stream) (λ w. n ≤ w.taking.kept) }
        ensures { self.new ≡ owed_on self.old stream n }
    {
        if let Some(windows) = self.streams.at(stream) {
            windows.owe(n);
        }
    }

    /// The increment that is to be granted on the connection now: all that is owed. `None` where that is below 32,768
    /// octets.
    pub fn due(&mut self) -> Option<u32>
        ensures told { result ≡ due_of self.old.taking }
        ensures after { self.new ≡ paid self.old }
    {
        self.taking.due()
    }

    /// The increment that is to be granted on a stream now: all that is owed. `None` where that is below 32,768
    /// octets, and where the stream has no windows.
    #[tactic(auto, using(crate::proofs::Numbers::numbered_written))]
    pub fn due_stream(&mut self, stream: u32) -> Option<u32>
        ensures told { result ≡ due_on self.old stream }
        ensures after { self.new ≡ paid_on self.old stream }
    {
        match self.streams.at(stream) {
            Some(windows) => windows.due(),
            None => None,
        }
    }

    /// The octets that came on a stream and aren't owed yet.
    pub fn creditable(&self, stream: u32) -> u32
        ensures { result ≡ creditable self.now stream }
    {
        match self.streams.get(stream) {
            Some(windows) => windows.creditable(),
            None => 0,
        }
    }
}

/// What of the octets of one stream's DATA that haven't begun is a stream's.
fn unbegun_on(of: u32, unbegun: u32, stream: u32) -> u32
    ensures { result ≡ unbegun_on of unbegun stream }
{
    if stream == of { unbegun } else { 0 }
}
