//! What is seen of the links of a run: by the calls of its world, and by its notes.

use crate::counts::Counts;
use crate::state::{add_link, state_head, state_tail};
use hb_base::{Door, NoMemory, Note, Peer, Target, Why};
use std::alloc::Global;
use std::cell::RefCell;
use std::collections::BTreeMap;
use std::rc::Rc;
use std::sync::Arc;

/// What a link is.
#[derive(Clone, Copy)]
pub(crate) enum Part {
    /// It was accepted at this door.
    At(Door),
    /// It was dialled to this address, for this reason.
    To(Target, Why),
}

/// A tunnel, or a captured connection, whose stream is 0.
#[derive(Clone, Copy)]
pub(crate) struct Tunnel {
    pub stream: u32,
    pub target: Option<Target>,
    /// The link of its own to where it leads; none where it shares one to a gateway.
    pub own: Option<u64>,
    /// Whether it was let in.
    pub open: bool,
}

/// A link that lives.
#[derive(Drop)]
pub(crate) struct Link {
    pub part: Part,
    /// The octets that were read of it, and written to it.
    pub read: u64,
    pub wrote: u64,
    /// Who was let in by it last.
    pub peer: Option<Peer>,
    pub tunnels: Vec<Tunnel>,
}

/// The links that live.
#[derive(Drop)]
pub(crate) struct Seen {
    alloc: Global,
    links: BTreeMap<u64, Link>,
}

/// What is seen, for the world that sees the calls, and for who hears the notes.
#[derive(Drop)]
pub struct Sight {
    seen: Rc<RefCell<Seen>>,
    counts: Arc<Counts, Global>,
}

impl Part {
    /// The word of its kind.
    pub fn word(self) -> &'static str {
        match self {
            Part::At(Door::Inbound) => "inbound",
            Part::At(Door::Outbound) => "outbound",
            Part::At(Door::Plain) => "plain",
            Part::To(_, Why::Discovery) => "control",
            Part::To(_, Why::Gateway { .. }) => "gateway",
            Part::To(_, Why::Upstream { .. } | Why::Plain { .. } | Why::Direct { .. }) => {
                "upstream"
            }
        }
    }
}

impl Link {
    /// One on which nothing was read or written.
    fn new(alloc: Global, part: Part) -> Link {
        Link {
            part,
            read: 0,
            wrote: 0,
            peer: None,
            tunnels: Vec::new(alloc),
        }
    }

    /// A tunnel is let in; one whose link to its target was dialled is there already.
    fn let_in(&mut self, stream: u32, target: Option<Target>) {
        for tunnel in self.tunnels.iter_mut() {
            if tunnel.stream == stream {
                tunnel.target = target;
                tunnel.open = true;
                return;
            }
        }
        let _ = self.tunnels.push(Tunnel {
            stream,
            target,
            own: None,
            open: true,
        });
    }

    /// A tunnel was refused, or ended.
    fn end(&mut self, stream: u32) {
        self.tunnels.retain(|tunnel| tunnel.stream != stream);
    }
}

impl Seen {
    /// No link lives.
    fn new(alloc: Global) -> Seen {
        Seen {
            alloc,
            links: BTreeMap::new(alloc),
        }
    }

    /// A link of this number is born. One for which memory lacks isn't seen.
    fn born(&mut self, link: u64, part: Part) {
        let _ = self.links.insert(link, Link::new(self.alloc, part));
    }

    /// A link to a target is dialled for a tunnel.
    fn dialled(&mut self, at: u64, stream: u32, own: u64, target: Target) {
        if let Some(link) = self.links.get_mut(&at) {
            let _ = link.tunnels.push(Tunnel {
                stream,
                target: Some(target),
                own: Some(own),
                open: false,
            });
        }
    }

    fn note(&mut self, n: &Note) {
        match n {
            Note::Verdict {
                link,
                stream,
                status: 200,
                peer,
                target,
            } => {
                if let Some(seen) = self.links.get_mut(link) {
                    seen.let_in(*stream, *target);
                    seen.peer = peer.copy(self.alloc).ok();
                }
            }
            Note::Verdict { link, stream, .. } | Note::End { link, stream, .. } => {
                if let Some(seen) = self.links.get_mut(link) {
                    seen.end(*stream);
                }
            }
        }
    }

    /// The state, with a line for each link.
    fn state(&self, counts: &Counts) -> Result<String, NoMemory> {
        let mut text = state_head(self.alloc, counts)?;
        let mut is_first = true;
        for (number, link) in self.links.iter() {
            if !is_first {
                text.push_str(",\n")?;
            }
            is_first = false;
            add_link(self.alloc, &mut text, *number, link, &self.links)?;
        }
        state_tail(&mut text)?;
        Ok(text)
    }
}

impl Sight {
    /// Nothing was seen.
    ///
    /// Errors: `NoMemory`.
    pub(crate) fn new(alloc: Global, counts: Arc<Counts, Global>) -> Result<Sight, NoMemory> {
        let seen = Rc::new(alloc, RefCell::new(Seen::new(alloc)))?;
        Ok(Sight { seen, counts })
    }

    /// The same, for another one to hold.
    ///
    /// Errors: `NoMemory`.
    pub(crate) fn share(&self) -> Result<Sight, NoMemory> {
        Ok(Sight {
            seen: self.seen.clone()?,
            counts: Arc::try_clone(&self.counts)?,
        })
    }

    /// A link of this number is born.
    pub(crate) fn born(&self, link: u64, part: Part) {
        self.counts.add_link(part.word());
        let Ok(mut seen) = self.seen.try_borrow_mut() else {
            return;
        };
        seen.born(link, part);
        match part {
            Part::To(to, Why::Upstream { link: at, stream }) => seen.dialled(at, stream, link, to),
            Part::To(to, Why::Plain { link: at } | Why::Direct { link: at }) => {
                seen.dialled(at, 0, link, to);
            }
            _ => {}
        }
    }

    /// So many octets were read of a link.
    pub(crate) fn read(&self, link: u64, count: usize) {
        if let Ok(mut seen) = self.seen.try_borrow_mut()
            && let Some(link) = seen.links.get_mut(&link)
        {
            link.read = link.read.saturating_add(count as u64);
        }
    }

    /// So many octets were written to a link.
    pub(crate) fn wrote(&self, link: u64, count: usize) {
        if let Ok(mut seen) = self.seen.try_borrow_mut()
            && let Some(link) = seen.links.get_mut(&link)
        {
            link.wrote = link.wrote.saturating_add(count as u64);
        }
    }

    /// A link is closed.
    pub(crate) fn closed(&self, link: u64) {
        if let Ok(mut seen) = self.seen.try_borrow_mut()
            && let Some(link) = seen.links.remove(&link)
        {
            self.counts.remove_link(link.part.word());
        }
    }

    /// A note was made.
    pub(crate) fn note(&self, n: &Note) {
        if let Ok(mut seen) = self.seen.try_borrow_mut() {
            seen.note(n);
        }
    }

    /// The state of the run, as JSON.
    ///
    /// Errors: `NoMemory`.
    pub(crate) fn state(&self, counts: &Counts) -> Result<String, NoMemory> {
        match self.seen.try_borrow() {
            Ok(seen) => seen.state(counts),
            Err(_) => Err(NoMemory),
        }
    }
}
