//! DATA (RFC 9113 sections 5.2, 6.1 and 6.9).

ghost use Rattle.std.specs.Prelude.{◌≡◌, ◌+◌, ◌-◌, ◌≤◌, length};
ghost use Rattle.std.specs.FinMap.{get};
ghost use Rattle.hb_outgoing.specs.Waiting.{octets_of, size};
ghost use Rattle.hb_flow.specs.Flows.{took};
ghost use Rattle.hb_conn.specs.Data.{credited, credited_on, used, continued, data_goes, is_of_idle, data_answered, on_data};
ghost use Rattle.hb_conn.specs.Outcome.{Gives};

use crate::found::Found;
use crate::machine::Core;
use hb_frames::numbers::{DATA, FLOW_CONTROL_ERROR, PROTOCOL_ERROR};
use hb_streams::{Step, StreamFault};

fn is_of_idle(answer: Result<Step, StreamFault>) -> bool
    ensures { result ≡ is_of_idle answer }
{
    match answer {
        Ok(_) => false,
        Err(fault) => fault.code == PROTOCOL_ERROR,
    }
}

fn padding_of(counted: u32, unpadded: usize) -> u32
    ensures value { result ≡ counted - unpadded }
    ensures within { result ≤ counted }
{
    (counted as usize).saturating_sub(unpadded) as u32
}

impl Core {
    fn credit_connection(&mut self)
        requires room { length (octets_of self.old.out) + 13 ≤ size }
        ensures after { self.new ≡ credited self.old }
        ensures grows { length (octets_of self.new.out) ≤ length (octets_of self.old.out) + 13 }
    {
        let due = self.flow.due();
        self.put_update(due);
    }

    pub(crate) fn credit_stream(&mut self, stream: u32)
        ensures { self.new ≡ credited_on self.old stream }
    {
        let due = self.flow.due_stream(stream);
        self.update(stream, due);
    }

    /// The peer's side of the stream goes on, or ends.
    fn go_on(&mut self, stream: u32, end: bool)
        ensures { self.new ≡ continued self.old stream end }
    {
        if !end {
            self.credit_stream(stream);
            return;
        }
        // Only a stream that begins wants memory.
        let _ = self.streams.on_frame(DATA, stream, true);
        self.release(stream);
    }

    /// DATA that the state of its stream lets go.
    fn data_goes(&mut self, stream: u32, counted: u32, unpadded: usize, end: bool) -> Found
        ensures { Gives (data_goes self.old stream counted unpadded end (get self.old.flow.streams stream)) self.new result }
    {
        match self.flow.take_stream(stream, counted) {
            Err(_) => self.break_stream(stream, FLOW_CONTROL_ERROR),
            Ok(()) => {
                self.flow.owe_stream(stream, padding_of(counted, unpadded));
                self.go_on(stream, end);
                Found::Chunk { stream, end }
            }
        }
    }

    /// DATA that the connection's window grants.
    fn data_answered(
        &mut self,
        stream: u32,
        counted: u32,
        unpadded: usize,
        end: bool,
        answer: Result<Step, StreamFault>,
    ) -> Found
        requires room { length (octets_of self.old.out) + 17 ≤ size }
        ensures { Gives (data_answered self.old stream counted unpadded end answer) self.new result }
    {
        match answer {
            Ok(Step::Goes) => self.data_goes(stream, counted, unpadded, end),
            Ok(_) => Found::Silent,
            Err(fault) => self.refuse(fault),
        }
    }

    pub(crate) fn on_data(&mut self, stream: u32, counted: u32, unpadded: usize, end: bool) -> Found
        requires room { length (octets_of self.old.out) + 30 ≤ size }
        ensures { Gives (on_data self.old stream counted unpadded end) self.new result }
    {
        let answer = self.streams.answer(DATA, stream);
        if is_of_idle(answer) {
            return self.fail(PROTOCOL_ERROR);
        }
        if self.flow.take(counted).is_err() {
            return self.fail(FLOW_CONTROL_ERROR);
        }
        self.flow.owe(counted);
        self.credit_connection();
        self.data_answered(stream, counted, unpadded, end, answer)
    }
}
