//! Standard error: the lines that wait for it, and what stands behind them.

use hb_base::{Put, Sink, StdSink};
use hb_line_audit::{Polled, SharedAudit};
use hb_mio::Log;
use hb_status::Counts;
use libc::net::{POLLERR, POLLHUP, POLLNVAL, POLLOUT, poll};
use libc::types::pollfd;
use std::alloc::Global;
use std::io::Write;
use std::sync::Arc;

/// The descriptor of standard error.
const STANDARD_ERROR: i32 = 2;

/// Whether a write to standard error of up to 4,096 bytes returns at once: a pipe that polls so takes as many in one piece. One that
/// fails does too.
fn takes_more() -> bool {
    let mut asked = [pollfd {
        fd: STANDARD_ERROR,
        events: POLLOUT,
        revents: 0,
    }];
    let _ = poll(&mut asked, 0);
    asked[0].revents & (POLLOUT | POLLERR | POLLHUP | POLLNVAL) != 0
}

/// Standard error, asked by a poll whether it takes more.
#[derive(Drop)]
pub(crate) struct StandardError<K> {
    sink: K,
    answer: Option<bool>,
    asked: u64,
}

impl<K> StandardError<K> {
    /// Standard error, to which this sink writes, before it was asked.
    pub fn over(sink: K) -> StandardError<K> {
        StandardError {
            sink,
            answer: None,
            asked: 0,
        }
    }
}

impl<K: Sink> Polled for StandardError<K> {
    ghost written = { λ s. K.written s.sink };

    ghost faults = { λ s. K.faults s.sink };

    ghost answer = { λ s. s.answer };

    ghost asked = { λ s. s.asked };

    fn takes_more(&mut self) -> bool {
        let takes = takes_more();
        self.asked = self.asked.saturating_add(1);
        self.answer = Some(takes);
        takes
    }

    fn put(&mut self, from: &[u8]) -> Put {
        self.answer = None;
        self.sink.put(from)
    }
}

/// Lines of the world and of what is logged around it, which stand among those of the notes. The world flushes them before each wait, which
/// is counted where the state is told.
#[derive(Drop)]
pub(crate) struct ErrorLog<K: Drop> {
    pub lines: SharedAudit<K>,
    pub counts: Option<Arc<Counts, Global>>,
    /// Whether what is logged around the world is left out, beside what stands beside lines of notes; and whether that is.
    pub quiet: bool,
    pub no_ways: bool,
}

impl<K: Polled + Drop> Log for ErrorLog<K> {
    fn line(&mut self, line: &str) {
        self.lines.tell(line);
    }

    fn flush(&mut self) {
        if let Some(counts) = &self.counts {
            counts.look();
        }
        self.lines.flush();
    }
}

impl<K: Polled + Drop> hb_log::Log for ErrorLog<K> {
    ghost use Rattle.std.specs.Prelude.{None};

    ghost handed = { λ l. None };

    fn line(&mut self, line: &str) {
        if !self.quiet {
            self.lines.tell(line);
        }
    }

    fn beside(&mut self, line: &str) {
        if !self.no_ways {
            self.lines.tell(line);
        }
    }
}

/// Standard error for the lines of a status, which stand behind those of the notes, as far as these are taken.
#[derive(Drop)]
pub(crate) struct LastLines<K: Drop, W> {
    pub lines: SharedAudit<K>,
    pub sink: StdSink<W>,
}

impl<K: Polled + Drop, W: Write> Sink for LastLines<K, W> {
    ghost written = { λ s. W.contents s.sink.0 };

    ghost faults = { λ s. s.sink.1 };

    fn put(&mut self, from: &[u8]) -> Put {
        self.lines.flush();
        self.sink.put(from)
    }
}
