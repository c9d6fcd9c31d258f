//! What the world of a script keeps of a link.

ghost use Rattle.std.specs.Prelude.{◌≡◌, ◌<◌, ◌≤◌, [], ◌∷◌, ◌++◌, length, drop, OnOk, OnErr, IfOk};
ghost use Rattle.hb_world.specs.LinkState.{LinkState, HasFront, IsNext, state_with, unnamed, front_of, finish_said, read_said, write_said, look_said};
ghost use Rattle.hb_world.specs.Script.{without_bytes, less_room};

use crate::line::Line;
use crate::world::{Finished, Looked, Read, Wrote};
use hb_base::{Bytes, NoMemory};
use std::alloc::Global;
use std::collections::VecDeque;
use std::marker::Model;

/// What lines say of a link. Contracts see what those say that were applied, and the pieces of those to come.
#[derive(Drop)]
pub struct ScriptLink {
    /// The pieces that aren't read whole, those of lines to come behind the others.
    pieces: VecDeque<Bytes>,
    /// How many of them are those of lines that were applied.
    given: usize,
    /// How many bytes of the first were read.
    offset: usize,
    opening: Option<bool>,
    ended: bool,
    broken: bool,
    room: Option<u64>,
}

impl Model for ScriptLink {
    ghost use Rattle.std.specs.Prelude.{◌<◌, ◌≤◌, length, take, drop};
    ghost use Rattle.std.specs.List.{All};
    ghost use Rattle.hb_world.specs.LinkState.{LinkState, behind, IsOffset};

    ghost Value = { LinkState };

    ghost view = { λ l. record {
      said = record {
        opening = l.opening;
        unread = behind l.offset (take l.given l.pieces.items);
        ended = l.ended;
        broken = l.broken;
        room = l.room;
      };
      coming = drop l.given l.pieces.items;
    } };

    ghost invariant = { λ l. (l.given ≤ length l.pieces.items) × All (λ p. 0 < length p) l.pieces.items
        × IsOffset l.offset (take l.given l.pieces.items) };
}

impl ScriptLink {
    /// A link of which no line has said anything.
    pub fn new(alloc: Global) -> ScriptLink
        ensures { result ≡ unnamed }
    {
        ScriptLink {
            pieces: VecDeque::new(alloc),
            given: 0,
            offset: 0,
            opening: None,
            ended: false,
            broken: false,
            room: None,
        }
    }

    /// One more piece of a line to come.
    ///
    /// Errors: `NoMemory`, and then nothing changes.
    pub fn expect(&mut self, piece: Bytes) -> Result<(), NoMemory>
        requires { 0 < length piece }
        ensures ok { OnOk result (self.new ≡ record self.old { coming = self.old.coming ++ piece ∷ [] }) }
        ensures err { OnErr result (self.new ≡ self.old) }
    {
        self.pieces.push_back(piece)?;
        Ok(())
    }

    /// The line of the next piece is applied.
    fn give(&mut self)
        requires { 0 < length self.old.coming }
        ensures { self.new ≡ record {
          said = record self.old.said { unread = self.old.said.unread ++ front_of self.old.coming ∷ [] };
          coming = drop 1 self.old.coming;
        } }
    {
        self.given += 1;
    }

    /// A line that names the link is applied.
    pub fn apply(&mut self, line: &Line)
        requires { IsNext self.old.coming line.now }
        ensures { self.new ≡ state_with self.old line.now }
    {
        match line {
            Line::Open(_) => self.opening = Some(true),
            Line::Refuse(_) => self.opening = Some(false),
            Line::Piece { bytes, .. } => {
                if !bytes.as_slice().is_empty() {
                    self.give();
                }
            }
            Line::End(_) => self.ended = true,
            Line::Break(_) => self.broken = true,
            Line::Room { room, .. } => self.room = Some(*room),
            Line::Accept(_)
            | Line::NoDial(_)
            | Line::Wake
            | Line::Tick
            | Line::Stop
            | Line::FaultWait
            | Line::FaultListen => {}
        }
    }

    /// How its opening ended, by the last line that says so: balked as long as none does.
    pub fn finish(&self) -> Finished
        ensures { result ≡ finish_said self.now.said.opening }
    {
        match self.opening {
            None => Finished::Balked,
            Some(true) => Finished::Opened,
            Some(false) => Finished::Failed,
        }
    }

    /// What is left of the piece in front, no bytes where nothing is to be read.
    pub fn front(&self) -> &[u8]
        ensures { result.now ≡ front_of self.now.said.unread }
    {
        if self.given == 0 {
            return &[];
        }
        match self.pieces.front() {
            Some(piece) => &piece.as_slice()[self.offset..],
            None => &[],
        }
    }

    /// What a read into a buffer of this length answers.
    pub fn read(&self, room: usize) -> Read
        ensures answer { result ≡ read_said self.now.said room }
        ensures piece { HasFront (front_of self.now.said.unread) result }
    {
        let piece = self.front();
        if !piece.is_empty() {
            return Read::Got(piece.len().min(room));
        }
        if self.broken {
            Read::Failed
        } else if self.ended {
            Read::End
        } else {
            Read::Balked
        }
    }

    /// So many bytes of the piece in front were read.
    pub fn skip(&mut self, n: usize)
        requires some { 0 < n }
        requires fits { n ≤ length (front_of self.old.said.unread) }
        ensures { self.new ≡ record self.old { said = record self.old.said { unread = without_bytes n self.old.said.unread } } }
    {
        let Some(piece) = self.pieces.front() else {
            return;
        };
        if n < piece.as_slice().len() - self.offset {
            self.offset += n;
            return;
        }
        let _ = self.pieces.pop_front();
        self.given -= 1;
        self.offset = 0;
    }

    /// What a write of so many bytes answers.
    pub fn write(&self, offered: usize) -> Wrote
        ensures { result ≡ write_said self.now.said offered }
    {
        if self.broken {
            return Wrote::Failed;
        }
        match self.room {
            None => Wrote::Took(offered),
            Some(0) => Wrote::Balked,
            Some(room) => Wrote::Took((offered as u64).min(room) as usize),
        }
    }

    /// What a look at it answers.
    pub fn look(&self) -> Looked
        ensures { result ≡ look_said self.now.said }
    {
        if self.broken {
            Looked::Failed
        } else {
            Looked::Fine
        }
    }

    /// So many bytes were written.
    pub fn use_room(&mut self, n: usize)
        ensures { self.new ≡ record self.old { said = record self.old.said { room = less_room n self.old.said.room } } }
    {
        if let Some(room) = self.room {
            self.room = Some(room.saturating_sub(n as u64));
        }
    }
}
