//! How requests are answered.

ghost use Rattle.std.specs.Prelude.{◌≡◌, ◌≤◌, ◌<◌, ◌∷◌, [], None, IsTrue, OnOk, OnErr};
ghost use Rattle.std.specs.FinMap.{get, insert};
ghost use Rattle.hb_base.specs.declared.note.Note.TheVariants as note;
ghost use Rattle.hb_conn.specs.Observed.{own_side_open, sides, aborted};
ghost use Rattle.hb_inbound.specs.Runs.{refused_on};
ghost use Rattle.hb_link.specs.Asking.{due_to, FindsFull, IsAnswerable, IsRequested};
ghost use Rattle.hb_link.specs.Looking.{left_to_look};
ghost use Rattle.hb_link.specs.Noted.{Takes};
ghost use Rattle.hb_link.specs.Rousing.{Rouses};
ghost use Rattle.hb_link.specs.Settling.{MayLook, Settles};

use crate::link::Link;
use crate::notes::Notes;
use crate::refusing::refuse;
use crate::tunnel::{Stage, Tunnel};
use hb_base::{NoMemory, Target};
use hb_held::Held;
use hb_tunnel::Tunnel as Ways;
use hb_verdict::{Request, Verdict, verdict_on};

/// A request that is to be answered.
#[derive(Clone, Copy)]
pub(crate) struct Asked {
    pub stream: u32,
    pub request: Request,
    /// The target that it names, whatever its address.
    pub target: Option<Target>,
    /// The peer ended its side of the stream with it.
    pub end: bool,
}

impl Link {
    /// A tunnel to this target is to be dialled.
    ///
    /// Errors: `NoMemory`, and then nothing changes.
    fn add_tunnel(&mut self, stream: u32, target: Target, end: bool) -> Result<(), NoMemory>
        requires { get self.old.tunnels stream ≡ None }
        ensures ok { OnOk result (self.new ≡ record self.old { tunnels = insert self.old.tunnels stream (due_to target end) }) }
        ensures err { OnErr result (self.new ≡ self.old) }
    {
        let mut ways = Ways::new(self.alloc)?;
        if end {
            ways.end_up();
        }
        let tunnel = Tunnel {
            stage: Stage::Due,
            up: 0,
            target,
            ways,
            went_up: 0,
            went_down: 0,
            shut: false,
            end_put: false,
        };
        self.tunnels.add(stream, tunnel)
    }

    /// A request is refused with this status.
    fn refuse_request<N: Notes>(&mut self, asked: Asked, status: u16, notes: &mut N)
        requires open { IsTrue (own_side_open self.old.conn asked.stream) }
        requires low { 100 ≤ status }
        requires high { status < 1000 }
        ensures link { self.new ≡ record self.old {
          conn = refused_on asked.stream status (sides self.old.conn asked.stream).peer self.old.conn;
        } }
        ensures told { Takes (N.told notes.old) (note.Verdict self.old.number asked.stream status self.old.peer asked.target ∷ [])
            (N.told notes.new) }
    {
        refuse(&mut self.conn, asked.stream, status);
        notes.verdict(self.number, asked.stream, status, &self.peer, asked.target);
    }

    /// What is no request is answered with PROTOCOL_ERROR.
    fn reset_request<N: Notes>(&mut self, stream: u32, notes: &mut N)
        requires open { IsTrue (own_side_open self.old.conn stream) }
        ensures link { self.new ≡ record self.old { conn = aborted self.old.conn stream 1 } }
        ensures told { Takes (N.told notes.old) (note.Verdict self.old.number stream 0 self.old.peer None ∷ []) (N.told notes.new) }
    {
        self.conn.put_reset(stream, 1);
        notes.verdict(self.number, stream, 0, &self.peer, None);
    }

    /// Whether all places are taken, while other links take so many.
    fn is_full(&self, others: usize, limit: usize) -> bool
        ensures { FindsFull others limit self.now result }
    {
        limit.saturating_sub(others) <= self.load()
    }

    /// Answers a request by what is held.
    pub(crate) fn answer_request<N: Notes>(
        &mut self,
        held: &Held,
        others: usize,
        limit: usize,
        asked: Asked,
        notes: &mut N,
    )
        requires { IsAnswerable asked.request }
        ensures settles { Settles others limit (λ h. h ≡ held.now) (IsRequested asked) MayLook self.old (N.told notes.old) self.new
            (N.told notes.new) }
        ensures left { left_to_look self.new.conn ≡ left_to_look self.old.conn }
        ensures rouses { Rouses self.old self.new }
    {
        if !self.conn.sides(asked.stream).own || self.tunnels.get(asked.stream).is_some() {
            return;
        }
        let full = self.is_full(others, limit);
        match verdict_on(asked.request, held, &self.peer, full) {
            Verdict::Status(status) => self.refuse_request(asked, status, notes),
            Verdict::Reset => self.reset_request(asked.stream, notes),
            Verdict::Dial(target) => {
                if self.add_tunnel(asked.stream, target, asked.end).is_err() {
                    self.refuse_request(asked, 500, notes);
                }
            }
        }
    }
}
