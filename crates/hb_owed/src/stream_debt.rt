//! What is owed on one stream.

ghost use Rattle.std.specs.Prelude.{◌≡◌, ◌+◌, ◌≤◌, IfSome};
ghost use Rattle.hb_owed.specs.Dues.{clear, dues_of, first, ends, is_done, without, IsStatus, IsDue};
ghost use Rattle.hb_owed.specs.Debts.{with_status, with_credit, with_end, with_reset, without_end, shut};
ghost use Rattle.hb_frames.specs.Numbers.{largest};

use crate::due::Due;
use crate::status::Status;
use std::marker::Model;

/// What is owed on one stream. The wide fields come first, so that no room is left between them.
#[derive(Drop)]
pub struct StreamDebt {
    reset: Option<u32>,
    /// An increment, 0 where none is owed.
    credit: u32,
    status: Option<Status>,
    end: bool,
    /// The stream is closed.
    closed: bool,
}

const _: () = prove!(size_of::<StreamDebt>() == 20);

impl Model for StreamDebt {
    ghost use Rattle.std.specs.Prelude.{◌≤◌, IfSome};
    ghost use Rattle.hb_owed.specs.Dues.{Debt, IsStatus};
    ghost use Rattle.hb_frames.specs.Numbers.{largest};

    ghost Value = { Debt };

    ghost view = { λ d. record {
      status = d.status;
      credit = d.credit;
      end = d.end;
      reset = d.reset;
      closed = d.closed;
    } };

    ghost invariant = { λ d. (d.credit ≤ largest) × IfSome d.status IsStatus };
}

impl StreamDebt {
    /// Nothing is owed.
    pub fn new() -> StreamDebt
        ensures { result ≡ clear }
    {
        StreamDebt {
            reset: None,
            credit: 0,
            status: None,
            end: false,
            closed: false,
        }
    }

    /// The frame that is put first. `None` where none is owed.
    pub fn first(&self) -> Option<Due>
        ensures value { result ≡ first (dues_of self.now) }
        ensures fits { IfSome result IsDue }
    {
        if let Some(status) = self.status {
            return Some(Due::Status(status));
        }
        if self.credit != 0 {
            return Some(Due::Credit(self.credit));
        }
        if self.end {
            return Some(Due::End);
        }
        match self.reset {
            Some(code) => Some(Due::Reset(code)),
            None => None,
        }
    }

    /// A frame was put.
    pub fn strike(&mut self, due: Due)
        ensures { self.new ≡ without due self.old }
    {
        match due {
            Due::Status(_) => self.status = None,
            Due::Credit(_) => self.credit = 0,
            Due::End => self.end = false,
            Due::Reset(_) => self.reset = None,
        }
    }

    /// HEADERS of a status are owed.
    pub fn owe_status(&mut self, status: Status)
        requires { IsStatus status }
        ensures { self.new ≡ with_status status self.old }
    {
        self.status = Some(status);
    }

    /// An increment is owed.
    pub fn owe_credit(&mut self, n: u32)
        requires { self.old.credit + n ≤ largest }
        ensures { self.new ≡ with_credit n self.old }
    {
        self.credit += n;
    }

    /// END_STREAM is owed.
    pub fn owe_end(&mut self)
        ensures { self.new ≡ with_end self.old }
    {
        self.end = true;
    }

    /// RST_STREAM is owed.
    pub fn owe_reset(&mut self, code: u32)
        ensures { self.new ≡ with_reset code self.old }
    {
        self.credit = 0;
        self.end = false;
        self.reset = Some(code);
    }

    /// END_STREAM is owed no more.
    pub fn take_back(&mut self)
        ensures { self.new ≡ without_end self.old }
    {
        self.end = false;
    }

    /// The stream is closed.
    pub fn close(&mut self)
        ensures { self.new ≡ shut self.old }
    {
        self.closed = true;
    }

    /// END_STREAM is owed.
    pub fn end_owed(&self) -> bool
        ensures { result ≡ self.now.end }
    {
        self.end
    }

    /// A frame with END_STREAM is owed.
    pub fn ends(&self) -> bool
        ensures { result ≡ ends self.now }
    {
        match self.status {
            Some(status) => self.end || status.end,
            None => self.end,
        }
    }

    /// The increment that is owed.
    pub fn credit_owed(&self) -> u32
        ensures value { result ≡ self.now.credit }
        ensures most { result ≤ largest }
    {
        self.credit
    }

    /// The stream is closed, and nothing is owed.
    pub fn is_done(&self) -> bool
        ensures { result ≡ is_done self.now }
    {
        self.closed && self.first().is_none()
    }
}
