//! A link to the control plane.

ghost use Rattle.std.specs.Prelude.{◌≡◌, ◌≤◌, ◌<◌, length, true, false, IfOk};
ghost use Rattle.hb_model.specs.Discovery.{dialled, came};
ghost use Rattle.hb_model.specs.Runs.{wanted_by, output_by};
ghost use Rattle.hb_node.specs.Judging.{seen};
ghost use Rattle.hb_node.specs.Phases.{phase_of, is_live};
ghost use Rattle.hb_node.specs.Links.{part_of, with_puts, used_up, wrote_by, put_by, settled, Goes, Rests, Settles};
ghost use Rattle.hb_conn.specs.Connection.{fresh_client, left_of};
ghost use Rattle.hb_conn.specs.Observed.{opened};
ghost use Rattle.hb_model.specs.Discovery.{stream, headers_of};

use crate::headers::headers_of;
use crate::inbox::{Heard, Inbox, STREAM};
use crate::judge::Judge;
use crate::phase::Phase;
use crate::requests::add_first_requests;
use hb_base::{Cause, NoMemory, Or, Target};
use hb_conn::Conn;
use hb_held::Held;
use hb_model::NodeConfig;
use std::alloc::Global;

/// The room of the output that the answers to what is read may not need.
const SPARE: usize = 320;

/// How much of the room the answers to an octet that is read may take, with what is granted again of DATA.
const ANSWERS: usize = 5;

/// A link that was dialled and isn't closed.
#[derive(Drop)]
pub(crate) struct Link {
    pub number: u64,
    pub phase: Phase,
    pub conn: Conn,
    /// The response has status 200.
    pub answered: bool,
    pub inbox: Inbox,
}

/// A client's connection, with a stream of these headers.
fn connection(alloc: Global, to: Target) -> Result<Conn, NoMemory>
    ensures { IfOk result (λ c. c ≡ opened fresh_client stream (headers_of to) false) }
{
    let headers = headers_of(alloc, to)?;
    let mut conn = Conn::client(alloc)?;
    match conn.open(&headers, false) {
        Ok(_) => Ok(conn),
        Err(Or::Fault(_)) => unreachable!(),
        Err(Or::NoMemory) => Err(NoMemory),
    }
}

impl Link {
    /// A link that is dialled: its stream is opened, and the first requests wait.
    ///
    /// Errors: `NoMemory`.
    pub fn dialled(
        alloc: Global,
        number: u64,
        config: &NodeConfig,
        held: &Held,
    ) -> Result<Link, NoMemory>
        ensures part { IfOk result (λ link. part_of link ≡ dialled config.now.id config.now.discovery held.now) }
        ensures number { IfOk result (λ link. link.number ≡ number) }
    {
        let conn = connection(alloc, config.discovery)?;
        let mut inbox = Inbox::new(alloc);
        add_first_requests(alloc, &config.id, held, &mut inbox.waiting)?;
        Ok(Link {
            number,
            phase: Phase::Dialling,
            conn,
            answered: false,
            inbox,
        })
    }

    /// How many bytes may be read: so many that every answer to them has room, and that the connection takes.
    pub fn wants(&self) -> usize
        ensures { result ≡ wanted_by (phase_of self.now.phase) (part_of self.now) }
    {
        if self.phase.is_live() {
            (self.conn.room().saturating_sub(SPARE) / ANSWERS).min(self.conn.space())
        } else {
            0
        }
    }

    /// What may be written.
    pub fn output(&self) -> &[u8]
        ensures { result.now ≡ output_by (phase_of self.now.phase) (part_of self.now) }
    {
        match self.phase {
            Phase::Live | Phase::Faulted(_) => self.conn.output(),
            _ => b"",
        }
    }

    /// Puts as much of what waits as may be sent in one DATA frame.
    fn put_requests(&mut self)
        ensures part { part_of self.new ≡ with_puts (part_of self.old) }
        ensures number { self.new.number ≡ self.old.number }
    {
        if self.conn.sides(STREAM).own {
            let n = self.conn.put_some(STREAM, self.inbox.waiting.front());
            self.inbox.waiting.remove(n);
        }
    }

    /// Octets of DATA are used up.
    fn credit(&mut self, counted: usize)
        ensures { self.new ≡ record self.old { conn = used_up counted self.old.conn } }
    {
        let most = self.conn.creditable(STREAM);
        let n = counted.min(most as usize) as u32;
        self.conn.credit(STREAM, n);
    }

    /// What was heard is done.
    fn settle(&mut self, heard: Heard)
        ensures { self.new ≡ settled heard self.old }
    {
        self.answered = self.answered || heard.accepted;
        self.phase = self.phase.end_for(heard.end);
        if self.phase.is_live() && heard.counted > 0 {
            self.credit(heard.counted);
        }
    }

    /// Looks at what happens next, and says whether more may.
    fn look<J: Judge>(
        &mut self,
        alloc: Global,
        held: &mut Held,
        judge: &mut J,
    ) -> Result<bool, NoMemory>
        requires { is_live self.old.phase ≡ true }
        ensures goes { IfOk result (λ _. Goes J.judges self.old.number (seen held.old judge.old) (part_of self.old)
            (seen held.new judge.new) (part_of self.new)) }
        ensures rests { IfOk result (λ more. more ≡ false → Rests (part_of self.old) self.new.phase self.new.conn) }
        ensures number { IfOk result (λ _. self.new.number ≡ self.old.number) }
        ensures live { IfOk result (λ more. more ≡ true → is_live self.new.phase ≡ true) }
        ensures falls { IfOk result (λ more. more ≡ true → left_of self.new.conn < left_of self.old.conn) }
    {
        let told = self.conn.next_happening()?;
        let heard = self.inbox.hear(alloc, held, judge, self.answered, told)?;
        self.settle(heard);
        let live = self.phase.is_live();
        Ok(heard.more && live)
    }

    /// Puts what may be sent, where the link goes on.
    fn send(&mut self)
        ensures part { part_of self.new ≡ put_by (is_live self.old.phase) (part_of self.old) }
        ensures number { self.new.number ≡ self.old.number }
    {
        if self.phase.is_live() {
            self.put_requests();
        }
    }

    /// Takes bytes that came, and looks at all that they complete.
    ///
    /// Errors: `NoMemory`, after which the link isn't used again.
    pub fn take<J: Judge>(
        &mut self,
        alloc: Global,
        held: &mut Held,
        judge: &mut J,
        b: &[u8],
    ) -> Result<(), NoMemory>
        ensures live { is_live self.old.phase ≡ true
            → IfOk result (λ _. Settles J.judges self.old.number (seen held.old judge.old) (came b.now (part_of self.old))
            (seen held.new judge.new) (part_of self.new)) }
        ensures idle { is_live self.old.phase ≡ false → (self.new ≡ self.old) × (held.new ≡ held.old) × (judge.new ≡ judge.old) }
        ensures number { IfOk result (λ _. self.new.number ≡ self.old.number) }
    {
        if !self.phase.is_live() {
            return Ok(());
        }
        self.conn.take(b);
        while self.look(alloc, held, judge)? {}
        self.send();
        Ok(())
    }

    /// The first `n` bytes of the output were written.
    pub fn wrote(&mut self, n: usize)
        requires { n ≤ length (output_by (phase_of self.old.phase) (part_of self.old)) }
        ensures part { part_of self.new ≡ put_by (is_live self.old.phase) (wrote_by self.old.phase n (part_of self.old)) }
        ensures number { self.new.number ≡ self.old.number }
    {
        match self.phase {
            Phase::Live => {
                self.conn.wrote(n);
                self.put_requests();
            }
            Phase::Faulted(code) => {
                self.conn.wrote(n);
                self.phase = Phase::Ending(Cause::ConnFault(code));
            }
            _ => {}
        }
    }
}
