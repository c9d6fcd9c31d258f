//! The tunnels that are open, with the notes that let them in.

use hb_base::{NoMemory, Note, Peer, Target};
use hb_report::add_was;
use std::alloc::Global;
use std::collections::BTreeMap;

/// An end is far behind its verdict where so many notes stand between them.
const FAR: u64 = 256;

/// Who was let in, and whereto.
#[derive(Drop)]
struct Entered {
    peer: Peer,
    target: Option<Target>,
    /// How many notes there were.
    at: u64,
}

/// The tunnels that are open. One for which memory lacked isn't known.
#[derive(Drop)]
pub(crate) struct Past {
    alloc: Global,
    /// By link and stream.
    tunnels: BTreeMap<(u64, u32), Entered>,
    /// How many notes there were.
    notes: u64,
}

impl Past {
    /// None is open.
    pub fn new(alloc: Global) -> Past {
        Past {
            alloc,
            tunnels: BTreeMap::new(alloc),
            notes: 0,
        }
    }

    /// A tunnel is let in.
    fn enter(
        &mut self,
        place: (u64, u32),
        peer: &Peer,
        target: Option<Target>,
    ) -> Result<(), NoMemory> {
        let peer = peer.copy(self.alloc)?;
        let at = self.notes;
        self.tunnels.insert(place, Entered { peer, target, at })?;
        Ok(())
    }

    /// A tunnel ended. Gives whose it was, where that is far behind. `None` where it isn't, or where memory lacks.
    fn end(&mut self, link: u64, stream: u32) -> Option<String> {
        let entered = self.tunnels.remove(&(link, stream))?;
        if self.notes.saturating_sub(entered.at) <= FAR {
            return None;
        }
        let mut line = String::new(self.alloc);
        match add_was(link, stream, &entered.peer, entered.target, &mut line) {
            Ok(()) => Some(line),
            Err(_) => None,
        }
    }

    /// A note comes. Gives the line that stands behind its own: of an end that is far behind its verdict whose tunnel it was. `None` of
    /// each other one, and where memory lacks.
    pub fn note(&mut self, n: &Note) -> Option<String> {
        self.notes = self.notes.saturating_add(1);
        match n {
            Note::Verdict {
                link,
                stream,
                status: 200,
                peer,
                target,
            } => {
                let _ = self.enter((*link, *stream), peer, *target);
                None
            }
            Note::Verdict { .. } => None,
            Note::End { link, stream, .. } => self.end(*link, *stream),
        }
    }
}
