//! The node.

ghost use Rattle.std.specs.Prelude.{◌≡◌, ◌≤◌, length, is_none, IfOk};
ghost use Rattle.hb_held.specs.Held.{nothing_held};
ghost use Rattle.hb_model.specs.Machine.{fresh};
ghost use Rattle.hb_world.specs.declared.entry.Entry.TheVariants as e;
ghost use Rattle.hb_node.specs.State.{fresh_state, wants_on, output_on, number_of, says_last, due_of, after_act, Shows, Enters, EntersAlone, EntersJudged, Answers, NoneIsDue, Goes, Acts, Wants, Puts, Stops};

use crate::judge::Judge;
use crate::link::Link;
use hb_base::{Cause, NoMemory, Why};
use hb_held::Held;
use hb_model::{Act, NodeConfig};
use std::alloc::Global;
use std::marker::Model;

/// A node of the mesh.
#[derive(Drop)]
pub struct Node {
    alloc: Global,
    config: NodeConfig,
    held: Held,
    /// The control plane is to be dialled.
    dials: bool,
    /// The run ends.
    over: bool,
    /// The link to the control plane that lives.
    link: Option<Link>,
}

impl Model for Node {
    ghost use Rattle.std.specs.Coded.{codes};
    ghost use Rattle.hb_held.specs.contracts.held.Held.{the_row as held_row};
    ghost use Rattle.hb_model.specs.contracts.config.NodeConfig.{the_row as config_row};
    ghost use Rattle.hb_node.specs.contracts.link.Link.{the_row as link_row};
    ghost use Rattle.hb_node.specs.State.{State};

    ghost Value = { State };

    ghost coded = { Prim.hlevel (codes, held_row.coded, config_row.coded, link_row.coded) };

    ghost view = { λ n. record { config = n.config; held = n.held; dials = n.dials; over = n.over; link = n.link } };
}

impl Node {
    /// A node that holds nothing, and whose control plane is to be dialled.
    ///
    /// Errors: `NoMemory`.
    pub fn new(alloc: Global, c: NodeConfig) -> Result<Node, NoMemory>
        ensures state { IfOk result (λ node. node ≡ fresh_state c (nothing_held c.network c.node c.doors)) }
        ensures shows { IfOk result (λ node. Shows node (fresh c)) }
    {
        let held = Held::new(alloc, c.network.copy(alloc)?, c.node.copy(alloc)?, c.doors);
        Ok(Node {
            alloc,
            config: c,
            held,
            dials: true,
            over: false,
            link: None,
        })
    }

    /// The resources held.
    pub fn held(&self) -> &Held
        ensures { result.now ≡ self.now.held }
    {
        &self.held
    }

    /// The number of the link to the control plane that lives. `None`: none does.
    pub fn number(&self) -> Option<u64>
        ensures { result ≡ number_of self.now.link }
    {
        match &self.link {
            Some(l) => Some(l.number),
            None => None,
        }
    }

    /// Whether a write on that link goes before its close: a connection error was told on it.
    pub fn last_words(&self) -> bool
        ensures { result ≡ says_last self.now.link }
    {
        match &self.link {
            Some(l) => l.phase.is_faulted(),
            None => false,
        }
    }

    /// Whether no call of the world is due.
    pub fn is_idle(&self) -> bool
        ensures { result ≡ is_none (due_of self.now) }
    {
        let closes = match &self.link {
            Some(l) => l.phase.closing().is_some(),
            None => false,
        };
        !closes & !self.dials
    }

    /// The dial that was due gave this link; `None`: it failed.
    ///
    /// Errors: `NoMemory`, after which only `stop` and `next_act` are called.
    pub fn dialled(&mut self, why: Why, link: Option<u64>) -> Result<(), NoMemory>
        ensures machine { IfOk result (λ _. Answers why link self.old self.new) }
        ensures due { IfOk result (λ _. NoneIsDue why self.old self.new) }
    {
        let Why::Discovery = why else {
            return Ok(());
        };
        self.dials = false;
        if let Some(number) = link {
            let link = Link::dialled(self.alloc, number, &self.config, &self.held)?;
            self.link = Some(link);
        }
        Ok(())
    }

    /// The link is open.
    pub fn opened(&mut self, link: u64)
        ensures { EntersAlone (e.Opened link) self.old self.new }
    {
        if let Some(l) = &mut self.link {
            if l.number == link {
                l.phase = l.phase.opened();
            }
        }
    }

    /// How many bytes may be read of the link now.
    pub fn wants(&self, link: u64) -> usize
        ensures value { result ≡ wants_on self.now.link link }
        ensures machine { Wants self.now link result }
    {
        match &self.link {
            Some(l) if l.number == link => l.wants(),
            _ => 0,
        }
    }

    /// These bytes came on the link, at most as many as it wants. Behind each response that they complete the judge is shown
    /// what is held then.
    ///
    /// Errors: `NoMemory`, after which only `stop` and `next_act` are called.
    pub fn take_bytes<J: Judge>(
        &mut self,
        link: u64,
        b: &[u8],
        judge: &mut J,
    ) -> Result<(), NoMemory>
        ensures judged { IfOk result (λ _. EntersJudged J.judges (e.Came link b.now) self.old self.new judge.old judge.new) }
        ensures enters { IfOk result (λ _. Enters (e.Came link b.now) self.old self.new) }
    {
        if let Some(l) = &mut self.link {
            if l.number == link {
                return l.take(self.alloc, &mut self.held, judge, b);
            }
        }
        Ok(())
    }

    /// The link's peer sends no more.
    pub fn ended(&mut self, link: u64)
        ensures { EntersAlone (e.Ended link) self.old self.new }
    {
        if let Some(l) = &mut self.link {
            if l.number == link {
                l.phase = l.phase.ended();
            }
        }
    }

    /// A call on the link failed.
    pub fn broke(&mut self, link: u64)
        ensures { EntersAlone (e.Broke link) self.old self.new }
    {
        if let Some(l) = &mut self.link {
            if l.number == link {
                l.phase = l.phase.broken();
            }
        }
    }

    /// Time passed: the control plane is dialled again where no link to it lives.
    pub fn tick(&mut self)
        ensures state { self.new ≡ record self.old { dials = is_none self.old.link } }
        ensures enters { EntersAlone e.Tick self.old self.new }
    {
        self.dials = self.link.is_none();
    }

    /// What may be written on the link now.
    pub fn output(&self, link: u64) -> &[u8]
        ensures value { result.now ≡ output_on self.now.link link }
        ensures machine { Puts self.now link result.now }
    {
        match &self.link {
            Some(l) if l.number == link => l.output(),
            _ => b"",
        }
    }

    /// The first `n` bytes of the link's output were written.
    pub fn wrote(&mut self, link: u64, n: usize)
        requires { n ≤ length (output_on self.old.link link) }
        ensures { Goes link n self.old self.new }
    {
        if let Some(l) = &mut self.link {
            if l.number == link {
                l.wrote(n);
            }
        }
    }

    /// The call of the world that is due, `None` where none is. A link that is to be closed counts as closed from now
    /// on; a dial stays due until `dialled` says what became of it.
    pub fn next_act(&mut self) -> Option<Act>
        ensures act { result ≡ due_of self.old }
        ensures after { self.new ≡ after_act self.old }
        ensures machine { Acts result self.old self.new }
    {
        let closing = match &self.link {
            Some(l) => match l.phase.closing() {
                Some(cause) => Some((l.number, cause)),
                None => None,
            },
            None => None,
        };
        if let Some((link, cause)) = closing {
            self.link = None;
            return Some(Act::Close { link, cause });
        }
        if self.dials {
            return Some(Act::Dial {
                to: self.config.discovery,
                why: Why::Discovery,
            });
        }
        None
    }

    /// The run ends for this cause.
    pub fn stop(&mut self, cause: Cause)
        ensures { Stops cause self.old self.new }
    {
        self.dials = false;
        self.over = true;
        if let Some(l) = &mut self.link {
            l.phase = l.phase.stopped(cause);
        }
    }
}
