//! Frames on streams, which are put at once or owed (RFC 9113 section 5.1).

ghost use Rattle.std.specs.Prelude.{◌≡◌, ◌≤◌, length};
ghost use Rattle.hb_outgoing.specs.Waiting.{octets_of};
ghost use Rattle.hb_owed.specs.Dues.{IsDue};
ghost use Rattle.hb_conn.specs.Owing.{goes_at_once, put_later, with_due, with_update, owed_paid, wrote};

use crate::machine::Core;
use hb_frames::numbers::LARGEST;
use hb_owed::Due;

impl Core {
    fn goes_at_once(&self, stream: u32, due: Due) -> bool
        ensures { result ≡ goes_at_once self.now stream due }
    {
        stream <= LARGEST && !self.owed.owes(stream) && due.size() <= self.out.room()
    }

    fn owe(&mut self, stream: u32, due: Due)
        requires { IsDue due }
        ensures { self.new ≡ put_later self.old stream due }
    {
        match due {
            Due::Status(status) => self.owed.owe_status(stream, status.number, status.end),
            Due::Credit(n) => {
                if n <= LARGEST - self.owed.credit_owed(stream) {
                    self.owed.owe_credit(stream, n);
                }
            }
            Due::End => self.owed.owe_end(stream),
            Due::Reset(code) => self.owed.owe_reset(stream, code),
        }
    }

    /// Puts a frame of the stream behind all others where there is room and nothing of the stream is owed; else it is
    /// owed.
    #[tactic(auto, unfolding(crate::specs::Owing::with_due))]
    pub(crate) fn put_or_owe(&mut self, stream: u32, due: Due)
        requires { IsDue due }
        ensures after { self.new ≡ with_due self.old stream due }
        ensures streams { self.new.streams ≡ self.old.streams }
    {
        if self.goes_at_once(stream, due) {
            self.encoder.put(stream, due, &mut self.out);
        } else {
            self.owe(stream, due);
        }
    }

    /// Puts or owes WINDOW_UPDATE, where there is an increment.
    pub(crate) fn update(&mut self, stream: u32, increment: Option<u32>)
        ensures { self.new ≡ with_update self.old stream increment }
    {
        if let Some(n) = increment {
            self.put_or_owe(stream, Due::Credit(n));
        }
    }

    /// Puts what is owed, as far as there is room.
    #[tactic(auto, unfolding(crate::specs::Owing::owed_paid))]
    pub(crate) fn pay(&mut self)
        ensures { self.new ≡ owed_paid self.old }
    {
        self.encoder.pay(&mut self.owed, &mut self.out);
    }

    pub(crate) fn wrote(&mut self, n: usize)
        requires { n ≤ length (octets_of self.old.out) }
        ensures { self.new ≡ wrote self.old n }
    {
        self.out.wrote(n);
        self.pay();
    }
}
