//! What the streams of tunnels get that ended.

ghost use Rattle.std.specs.Prelude.{◌≡◌, ◌≤◌, ◌<◌, ◌+◌, None, Some, IfSome};
ghost use Rattle.hb_link.specs.Answering.{status_of_end, code_of_end, left_at, GotFailed, GotEnded, Gives};
ghost use Rattle.hb_link.specs.Settling.{Agrees, GotAll, AlwaysSettles, KeepsCame};

use crate::link::Link;
use crate::notes::Notes;
use crate::refusing::refuse;
use crate::tunnel::Stage;
use hb_base::Cause;

impl Link {
    /// The status that the stream of a tunnel is to get that was pending, where its cause has one: while the stream stands.
    fn status_of_end(&self, stream: u32, cause: Cause) -> Option<u16>
        ensures value { result ≡ status_of_end self.now stream cause }
        ensures range { IfSome result (λ status. (100 ≤ status) × (status < 1000)) }
    {
        if !(self.phase.is_serving() && self.conn.sides(stream).own) {
            return None;
        }
        match cause {
            Cause::Revoked => Some(401),
            Cause::UpFault => Some(502),
            _ => None,
        }
    }

    /// The code with which the stream of a tunnel is to be reset that was live, where its cause has one: while the stream stands.
    fn code_of_end(&self, stream: u32, cause: Cause) -> Option<u32>
        ensures { result ≡ code_of_end self.now stream cause }
    {
        let sides = self.conn.sides(stream);
        if !(self.phase.is_serving() && (sides.own || sides.peer)) {
            return None;
        }
        match cause {
            Cause::Revoked => Some(8),
            Cause::UpFault => Some(10),
            _ => None,
        }
    }

    /// The stream of a tunnel has got what it gets: its upstream, where it has one, is to be closed for this cause.
    fn leave(&mut self, stream: u32, cause: Cause)
        ensures { self.new ≡ record self.old { tunnels = left_at cause self.old.tunnels stream } }
    {
        let Some(tunnel) = self.tunnels.get(stream) else {
            return;
        };
        if tunnel.up == 0 {
            self.tunnels.remove(stream);
        } else if let Some(tunnel) = self.tunnels.at(stream) {
            tunnel.stage = Stage::Over(cause);
        }
    }

    /// The stream of a tunnel that failed gets what it gets.
    fn answer_failed<N: Notes>(&mut self, stream: u32, notes: &mut N)
        ensures { Gives (GotFailed (Some stream)) (GotFailed (Some (stream + 1)))
            self.old (N.told notes.old) self.new (N.told notes.new) }
    {
        let Some(tunnel) = self.tunnels.get(stream) else {
            return;
        };
        let Stage::Failed(cause) = tunnel.stage else {
            return;
        };
        let target = tunnel.target;
        if let Some(status) = self.status_of_end(stream, cause) {
            refuse(&mut self.conn, stream, status);
            notes.verdict(self.number, stream, status, &self.peer, Some(target));
        }
        self.leave(stream, cause);
    }

    /// That of a tunnel that ended does.
    fn answer_ended<N: Notes>(&mut self, stream: u32, notes: &mut N)
        ensures { Gives (GotEnded (Some stream)) (GotEnded (Some (stream + 1)))
            self.old (N.told notes.old) self.new (N.told notes.new) }
    {
        let Some(tunnel) = self.tunnels.get(stream) else {
            return;
        };
        let Stage::Ended(cause) = tunnel.stage else {
            return;
        };
        let up = tunnel.went_up;
        let down = tunnel.went_down;
        if let Some(code) = self.code_of_end(stream, cause) {
            self.conn.put_reset(stream, code);
        }
        notes.end(self.number, stream, cause, up, down);
        self.leave(stream, cause);
    }

    /// Each tunnel that failed, by rising stream.
    fn answer_failures<N: Notes>(&mut self, notes: &mut N)
        ensures { Gives Agrees (GotFailed None) self.old (N.told notes.old) self.new (N.told notes.new) }
    {
        let mut from = self.tunnels.first_from(0);
        while let Some(stream) = from {
            self.answer_failed(stream, notes);
            from = self.tunnels.first_behind(stream);
        }
    }

    /// Each that ended, by rising stream.
    fn answer_ends<N: Notes>(&mut self, notes: &mut N)
        ensures { Gives (GotFailed None) (GotEnded None)
            self.old (N.told notes.old) self.new (N.told notes.new) }
    {
        let mut from = self.tunnels.first_from(0);
        while let Some(stream) = from {
            self.answer_ended(stream, notes);
            from = self.tunnels.first_behind(stream);
        }
    }

    /// Each tunnel that failed, and then each that ended, by rising stream, gets what its stream gets. Its upstream is to be closed then,
    /// where it has one; else nothing is left of it.
    pub(crate) fn answer_all<N: Notes>(&mut self, notes: &mut N)
        ensures settles { AlwaysSettles Agrees GotAll self.old (N.told notes.old) self.new (N.told notes.new) }
        ensures came { KeepsCame self.old self.new }
    {
        if self.tunnels.counts().marked == 0 {
            return;
        }
        self.answer_failures(notes);
        self.answer_ends(notes);
    }
}
