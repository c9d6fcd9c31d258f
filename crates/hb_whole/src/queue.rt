//! Notes that wait to be taken.

ghost use Rattle.std.specs.Prelude.{◌≡◌, ◌++◌, [], Some, IfOk, IfNone, OnErr};
ghost use Rattle.std.specs.Option.{option_to_list};
ghost use Rattle.hb_base.specs.declared.note.Note.TheVariants as note;
ghost use Rattle.hb_whole.specs.Queue.{told, waiting, Adds};

use hb_base::{Cause, NoMemory, Note, Peer, Target};
use hb_link::Notes;
use std::alloc::{AllocError, Global};
use std::collections::VecDeque;

/// Notes in order, or the knowledge that one was lost for want of memory.
#[derive(Drop)]
pub(crate) struct Queue {
    alloc: Global,
    notes: VecDeque<Note>,
    /// A note was lost.
    lost: bool,
}

/// A note of a request's answer, with the peer in memory of its own.
fn verdict(
    alloc: Global,
    link: u64,
    stream: u32,
    status: u16,
    peer: &Peer,
    target: Option<Target>,
) -> Result<Note, NoMemory>
    ensures { IfOk result (λ made. made ≡ note.Verdict link stream status peer.now target) }
{
    Ok(Note::Verdict {
        link,
        stream,
        status,
        peer: peer.copy(alloc)?,
        target,
    })
}

impl Queue {
    /// No note waits.
    pub fn new(alloc: Global) -> Queue
        ensures { told result ≡ Some [] }
    {
        Queue {
            alloc,
            notes: VecDeque::new(alloc),
            lost: false,
        }
    }

    /// One more note, or one that is lost.
    fn add(&mut self, note: Result<Note, NoMemory>)
        ensures { Adds note self.old self.new }
    {
        let Ok(note) = note else {
            self.lost = true;
            return;
        };
        if self.notes.push_back(note).is_err() {
            self.lost = true;
        }
    }

    /// The next note. `None` where none waits.
    ///
    /// Errors: `NoMemory`, where one was lost, and so at each call from then on.
    pub fn next(&mut self) -> Result<Option<Note>, NoMemory>
        ensures head { IfOk result (λ note. told self.old ≡ Some (option_to_list note ++ waiting self.new)) }
        ensures still { IfOk result (λ note. told self.new ≡ Some (waiting self.new)) }
        ensures none { IfOk result (λ note. IfNone note (waiting self.old ≡ [])) }
        ensures lost { OnErr result (self.new ≡ self.old) }
    {
        if self.lost {
            return Err(AllocError);
        }
        Ok(self.notes.pop_front())
    }
}

impl Notes for Queue {
    ghost use Rattle.hb_whole.specs.Queue.{told};

    ghost told = { told };

    fn verdict(
        &mut self,
        link: u64,
        stream: u32,
        status: u16,
        peer: &Peer,
        target: Option<Target>,
    ) {
        self.add(verdict(self.alloc, link, stream, status, peer, target));
    }

    fn end(&mut self, link: u64, stream: u32, cause: Cause, up: u64, down: u64) {
        self.add(Ok(Note::End {
            link,
            stream,
            cause,
            up,
            down,
        }));
    }
}
