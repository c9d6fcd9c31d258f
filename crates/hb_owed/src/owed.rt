//! What is owed on the streams of a connection.

ghost use Rattle.std.specs.Prelude.{◌≡◌, ◌+◌, ◌≤◌, ◌<◌, IfSome, None, OnOk, OnErr, not};
ghost use Rattle.std.specs.FinMap.{empty, get};
ghost use Rattle.hb_map.specs.Keyed.{IsFirstFrom};
ghost use Rattle.hb_owed.specs.Dues.{without, first, is_nil, IsDue};
ghost use Rattle.hb_owed.specs.Debts.{opened, changed, settled, closed, taken_back, struck};
ghost use Rattle.hb_frames.specs.Numbers.{largest};
ghost use Rattle.hb_owed.specs.Debts.{with_status, with_credit, with_end, with_reset, without_end, shut, is_done_by};
ghost use Rattle.hb_owed.specs.Debts.{dues_on, end_on, ends_on, credit_on, dues, IsFirstDue, behind};
ghost use Rattle.hb_owed.specs.Paid.{paid};

use crate::due::Due;
use crate::put::put_due;
use crate::status::Status;
use crate::stream_debt::StreamDebt;
use hb_base::NoMemory;
use hb_hpack::Encoder;
use hb_map::ById;
use hb_outgoing::Outgoing;
use std::alloc::Global;
use std::marker::Model;

/// What is owed on the streams of one connection. Contracts see, of each stream that has a record, what it owes: a
/// status, an increment, END_STREAM and RST_STREAM, one frame of each at most, which are put in this order. A call on
/// a stream without a record changes nothing, and only `open` takes memory.
#[derive(Drop)]
pub struct Owed {
    streams: ById<u32, StreamDebt>,
    /// A look through all records found nothing owed, and nothing came to be owed since.
    all_clear: bool,
}

impl Model for Owed {
    ghost use Rattle.std.specs.Coded.{coded_ℕ};
    ghost use Rattle.std.specs.Ordering.{nat_cmp};
    ghost use Rattle.std.specs.FinMap.{code};
    ghost use Rattle.hb_owed.specs.contracts.stream_debt.StreamDebt.{the_row as debt_row};
    ghost use Rattle.std.specs.Prelude.{◌≡◌, true, None};
    ghost use Rattle.hb_owed.specs.Debts.{Debts, AreNumbered, IsFirstDue};

    ghost Value = { Debts };

    ghost coded = { code {R = nat_cmp} coded_ℕ debt_row.coded };

    ghost view = { λ o. o.streams };

    ghost invariant = { λ o. AreNumbered o.streams × (o.all_clear ≡ true → IsFirstDue o.streams None) };
}

impl Owed {
    /// No stream has a record.
    #[tactic(auto, using(crate::proofs::Numbers::numbered_none))]
    pub fn new(alloc: Global) -> Owed
        ensures { result ≡ empty }
    {
        Owed {
            streams: ById::new(alloc),
            all_clear: false,
        }
    }

    /// Gives a new stream a record, which owes nothing.
    ///
    /// Errors: `NoMemory`, and then nothing changes.
    #[tactic(auto, using(crate::proofs::Numbers::numbered_put, crate::proofs::Clear::clear_put))]
    pub fn open(&mut self, stream: u32) -> Result<(), NoMemory>
        requires in_range { stream ≤ largest }
        ensures ok { OnOk result (self.new ≡ opened self.old stream) }
        ensures err { OnErr result (self.new ≡ self.old) }
    {
        self.streams.put(stream, StreamDebt::new())
    }

    /// HEADERS of a status of three digits are owed, which end the stream where `end` says so, in place of an owed
    /// status.
    #[tactic(auto, using(crate::proofs::Numbers::numbered_written))]
    pub fn owe_status(&mut self, stream: u32, status: u16, end: bool)
        requires low { 100 ≤ status }
        requires high { status < 1000 }
        ensures { self.new ≡ changed self.old stream (with_status (record { number = status; end = end })) }
    {
        self.all_clear = false;
        if let Some(debt) = self.streams.at(stream) {
            debt.owe_status(Status {
                number: status,
                end,
            });
        }
    }

    /// An empty DATA frame with END_STREAM is owed.
    #[tactic(auto, using(crate::proofs::Numbers::numbered_written))]
    pub fn owe_end(&mut self, stream: u32)
        ensures { self.new ≡ changed self.old stream with_end }
    {
        self.all_clear = false;
        if let Some(debt) = self.streams.at(stream) {
            debt.owe_end();
        }
    }

    /// WINDOW_UPDATE is owed, with the sum of all increments since the last one was put.
    #[tactic(auto, using(crate::proofs::Numbers::numbered_written))]
    pub fn owe_credit(&mut self, stream: u32, n: u32)
        requires sum { credit_on self.old stream + n ≤ largest }
        ensures { self.new ≡ changed self.old stream (with_credit n) }
    {
        self.all_clear = false;
        if let Some(debt) = self.streams.at(stream) {
            debt.owe_credit(n);
        }
    }

    /// RST_STREAM is owed, with the last code that was asked for. An owed status stays in front of it; END_STREAM and
    /// an increment are owed no more.
    #[tactic(auto, using(crate::proofs::Numbers::numbered_written))]
    pub fn owe_reset(&mut self, stream: u32, code: u32)
        ensures { self.new ≡ changed self.old stream (with_reset code) }
    {
        self.all_clear = false;
        if let Some(debt) = self.streams.at(stream) {
            debt.owe_reset(code);
        }
    }

    /// The stream is closed: its record goes, at once where nothing is owed, else when all that is owed was put.
    pub fn close(&mut self, stream: u32)
        ensures { self.new ≡ closed self.old stream }
    {
        self.mark_closed(stream);
        self.settle(stream);
    }

    /// An owed END_STREAM is taken back.
    pub fn take_back(&mut self, stream: u32)
        ensures { self.new ≡ taken_back self.old stream }
    {
        self.drop_end(stream);
        self.settle(stream);
    }

    /// A frame is owed on the stream.
    pub fn owes(&self, stream: u32) -> bool
        ensures { result ≡ not (is_nil (dues_on self.now stream)) }
    {
        match self.streams.get(stream) {
            Some(debt) => debt.first().is_some(),
            None => false,
        }
    }

    /// END_STREAM in an empty DATA frame is owed on the stream.
    pub fn end_owed(&self, stream: u32) -> bool
        ensures { result ≡ end_on self.now stream }
    {
        match self.streams.get(stream) {
            Some(debt) => debt.end_owed(),
            None => false,
        }
    }

    /// A frame with END_STREAM is owed on the stream: an empty DATA frame, or HEADERS of a status.
    pub fn ends(&self, stream: u32) -> bool
        ensures { result ≡ ends_on self.now stream }
    {
        match self.streams.get(stream) {
            Some(debt) => debt.ends(),
            None => false,
        }
    }

    /// The increment that is owed on the stream, 0 where none is.
    pub fn credit_owed(&self, stream: u32) -> u32
        ensures value { result ≡ credit_on self.now stream }
        ensures most { result ≤ largest }
    {
        match self.streams.get(stream) {
            Some(debt) => debt.credit_owed(),
            None => 0,
        }
    }

    /// Nothing is owed on any stream.
    #[tactic(auto, using(crate::proofs::Walks::is_nil_due))]
    pub fn is_clear(&self) -> bool
        ensures { result ≡ is_nil (dues self.now) }
    {
        self.first_due().is_none()
    }

    /// Puts owed frames behind all that waits, the lowest stream first and those of a stream in their order, as long
    /// as the next one fits the room: 17 octets for a status, whatever its block has, else the octets of the frame.
    pub fn pay(&mut self, out: &mut Outgoing, encoder: &mut Encoder)
        ensures { record { owed = self.new; out = out.new; writing = encoder.new }
            ≡ paid (record { owed = self.old; out = out.old; writing = encoder.old }) }
    {
        while let Some((stream, due)) = self.first_due() {
            if out.room() < due.size() {
                return;
            }
            put_due(stream, due, out, encoder);
            self.strike(stream, due);
        }
        self.keep_clear();
    }

    /// Nothing is owed any more, and no stream has a record.
    pub fn clear(&mut self)
        ensures { self.new ≡ empty }
    {
        self.all_clear = false;
        while let Some(stream) = self.streams.first_from(0) {
            self.streams.remove(stream);
        }
    }

    #[tactic(auto, using(crate::proofs::Numbers::numbered_written, crate::proofs::Clear::clear_shut))]
    fn mark_closed(&mut self, stream: u32)
        ensures { self.new ≡ changed self.old stream shut }
    {
        if let Some(debt) = self.streams.at(stream) {
            debt.close();
        }
    }

    #[tactic(auto, using(crate::proofs::Numbers::numbered_written, crate::proofs::Clear::clear_without_end))]
    fn drop_end(&mut self, stream: u32)
        ensures { self.new ≡ changed self.old stream without_end }
    {
        if let Some(debt) = self.streams.at(stream) {
            debt.take_back();
        }
    }

    #[tactic(auto, using(crate::proofs::Numbers::numbered_written))]
    fn drop_due(&mut self, stream: u32, due: Due)
        ensures { self.new ≡ changed self.old stream (without due) }
    {
        self.all_clear = false;
        if let Some(debt) = self.streams.at(stream) {
            debt.strike(due);
        }
    }

    /// A frame was put.
    fn strike(&mut self, stream: u32, due: Due)
        ensures { self.new ≡ struck self.old stream due }
    {
        self.drop_due(stream, due);
        self.settle(stream);
    }

    fn is_done(&self, stream: u32) -> bool
        ensures { result ≡ is_done_by (get self.now stream) }
    {
        match self.streams.get(stream) {
            Some(debt) => debt.is_done(),
            None => false,
        }
    }

    /// Takes the stream's record away where it is closed and owes nothing.
    #[tactic(auto, using(crate::proofs::Numbers::numbered_removed, crate::proofs::Clear::clear_removed))]
    fn settle(&mut self, stream: u32)
        ensures { self.new ≡ settled self.old stream }
    {
        if self.is_done(stream) {
            self.streams.remove(stream);
        }
    }

    /// Nothing is owed, as long as no record changes.
    fn keep_clear(&mut self)
        requires { IsFirstDue self.old None }
        ensures { self.new ≡ self.old }
    {
        self.all_clear = true;
    }

    /// The first owed frame of the lowest stream that owes any.
    fn first_due(&self) -> Option<(u32, Due)>
        ensures value { IsFirstDue self.now result }
        ensures in_range { IfSome result (λ x. x.0 ≤ largest) }
        ensures fits { IfSome result (λ x. IsDue x.1) }
    {
        if self.all_clear {
            return None;
        }
        let mut next = self.first_behind(None);
        while let Some(stream) = next {
            if let Some(due) = self.first_on(stream) {
                return Some((stream, due));
            }
            next = self.first_behind(Some(stream));
        }
        None
    }

    /// The frame that is put first on the stream.
    fn first_on(&self, stream: u32) -> Option<Due>
        ensures value { result ≡ first (dues_on self.now stream) }
        ensures fits { IfSome result IsDue }
    {
        match self.streams.get(stream) {
            Some(debt) => debt.first(),
            None => None,
        }
    }

    /// The first stream behind another one, or of all, that has a record.
    #[tactic(auto, using(crate::proofs::Numbers::none_behind, crate::proofs::Numbers::first_in_range))]
    fn first_behind(&self, stream: Option<u32>) -> Option<u32>
        ensures value { IsFirstFrom self.now (behind stream) result }
        ensures in_range { IfSome result (λ first. first ≤ largest) }
    {
        match stream {
            None => self.streams.first_from(0),
            Some(u32::MAX) => None,
            Some(stream) => self.streams.first_from(stream + 1),
        }
    }
}
