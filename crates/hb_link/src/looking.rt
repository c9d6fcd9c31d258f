//! All that came on the connection is looked at.

ghost use Rattle.std.specs.Prelude.{◌≡◌, ◌<◌, ℕ, true};
ghost use Rattle.hb_link.specs.declared.hearing.Heard.TheVariants.{Data};
ghost use Rattle.hb_link.specs.Fronting.{HasCome};
ghost use Rattle.hb_link.specs.Looking.{left_to_look, FaultsFor, LacksMemory, HasHeard, IsFitting, Looked, goes_on};
ghost use Rattle.hb_link.specs.Rousing.{Rouses, roused_on};
ghost use Rattle.hb_link.specs.Settling.{MayPut, MayLook, AlwaysSettles, Settles};

use crate::hearing::{Heard, hear};
use crate::link::Link;
use crate::notes::Notes;
use crate::phase::Phase;
use hb_base::Cause;
use hb_held::Held;

impl Link {
    /// A connection error was told: all tunnels end.
    fn fail<N: Notes>(&mut self, code: u32, notes: &mut N)
        ensures settles { AlwaysSettles (FaultsFor code) MayPut self.old (N.told notes.old) self.new (N.told notes.new) }
        ensures rouses { Rouses self.old self.new }
    {
        self.end_with(Phase::Faulted(code), Cause::ConnFault(code));
        self.answer_all(notes);
    }

    /// Memory is wanting for a header block of the peer: it is to be closed, and all tunnels end.
    fn lack<N: Notes>(&mut self, notes: &mut N)
        ensures settles { AlwaysSettles LacksMemory MayPut self.old (N.told notes.old) self.new (N.told notes.new) }
        ensures rouses { Rouses self.old self.new }
    {
        self.end_with(Phase::Closing(Cause::NoMemory), Cause::NoMemory);
        self.answer_all(notes);
    }

    /// Does what was heard, and says whether more may be told.
    fn follow<N: Notes>(
        &mut self,
        held: &Held,
        others: usize,
        limit: usize,
        heard: Heard,
        notes: &mut N,
    ) -> bool
        requires { IsFitting heard }
        ensures settles { Settles others limit (λ h. h ≡ held.now) (HasHeard heard) (Looked result) self.old (N.told notes.old) self.new
            (N.told notes.new) }
        ensures more { result ≡ goes_on heard }
        ensures left { result ≡ true → left_to_look self.new.conn ≡ left_to_look self.old.conn }
        ensures rouses { Rouses self.old self.new }
        ensures came { (s : ℕ) → heard ≡ Data s → roused_on self.new s ≡ true }
    {
        match heard {
            Heard::Nothing => return false,
            Heard::Done => {}
            Heard::Data { stream } => self.roused.add(stream),
            Heard::Request(asked) => self.answer_request(held, others, limit, asked, notes),
            Heard::Left { stream, cause } => self.end_alone(stream, cause, notes),
            Heard::Fault { code } => {
                self.fail(code, notes);
                return false;
            }
        }
        true
    }

    /// Looks at what happens next, and says whether more may. Where memory is wanting for that the link is to be closed.
    pub(crate) fn look<N: Notes>(
        &mut self,
        held: &Held,
        others: usize,
        limit: usize,
        notes: &mut N,
    ) -> bool
        ensures settles { Settles others limit (λ h. h ≡ held.now) MayLook (Looked result) self.old (N.told notes.old) self.new
            (N.told notes.new) }
        ensures falls { result ≡ true → left_to_look self.new.conn < left_to_look self.old.conn }
        ensures rouses { Rouses self.old self.new }
    {
        match self.conn.next_happening() {
            Ok(told) => {
                let heard = hear(&mut self.tunnels, self.destination, told);
                self.follow(held, others, limit, heard, notes)
            }
            Err(_) => {
                self.lack(notes);
                false
            }
        }
    }

    /// Looks at all that came, where it is a connection.
    pub(crate) fn look_all<N: Notes>(
        &mut self,
        held: &Held,
        others: usize,
        limit: usize,
        notes: &mut N,
    )
        ensures settles { Settles others limit (λ h. h ≡ held.now) (λ k x. HasCome x.phase k x) MayPut self.old (N.told notes.old) self.new
            (N.told notes.new) }
        ensures rouses { Rouses self.old self.new }
    {
        if !self.phase.is_serving() {
            return;
        }
        while self.look(held, others, limit, notes) {}
    }
}
