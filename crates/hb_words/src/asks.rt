//! What the words ask for.

use crate::page::Page;
use hb_base::{Ip, Peer, Target};

/// What `check` asks: is this peer admitted at this target of this node of this network?
#[derive(Drop)]
pub struct Check<'a> {
    pub node: &'a str,
    /// Empty where it isn't named.
    pub network: &'a str,
    pub peer: Peer,
    pub target: Target,
    /// Whether the policies that count are told, too.
    pub explain: bool,
}

/// What `route` asks: which way does a connection of this workload of this node of this network take to this target?
#[derive(Clone, Copy)]
pub struct Route<'a> {
    pub node: &'a str,
    /// Empty where it isn't named.
    pub network: &'a str,
    /// From 1 to 65,535.
    pub hbone_port: u16,
    /// The workload's address.
    pub source: Ip,
    pub target: Target,
}

/// What `show` asks: what the node holds.
#[derive(Clone, Copy)]
pub struct Show {
    /// Whether the fields of each record are told, too.
    pub fields: bool,
}

/// What a run of the proxy is asked, over a script or over real sockets.
#[derive(Clone, Copy)]
pub struct RunWords<'a> {
    pub node: &'a str,
    /// The id that the node tells its control plane.
    pub id: &'a str,
    /// The control plane.
    pub discovery: Target,
    /// Where the inbound door listens. None: no door listens.
    pub inbound: Option<Target>,
    /// Where the outbound door listens. None: no door listens.
    pub outbound: Option<Target>,
    /// Where the plain door listens. None: no door listens.
    pub plain: Option<Target>,
    /// Empty where it isn't named.
    pub network: &'a str,
    /// From 1 to 65,535.
    pub hbone_port: u16,
    /// The most tunnels at a time, from 1 to 4,096.
    pub tunnels: u16,
    /// The most turns, at least 1.
    pub turns: u64,
}

/// What `replay` asks: a run over a script, and a report on it.
#[derive(Clone, Copy)]
pub struct Replay<'a> {
    pub run: RunWords<'a>,
    pub trace: bool,
    pub brief: bool,
}

/// What `serve` asks: a run over real sockets.
#[derive(Clone, Copy)]
pub struct Serve<'a> {
    pub run: RunWords<'a>,
    /// The tick that ends it, at least 1. None: no number of them does.
    pub ticks: Option<u64>,
    /// Whether the end of standard input, or its first byte, ends it.
    pub stop_on_input: bool,
    /// Where the state of the run is told over HTTP. None: nowhere.
    pub status: Option<Target>,
    /// Whether the lines of answers and ends are left out.
    pub quiet: bool,
    /// Whether all others are.
    pub notes_only: bool,
}

/// What `make` asks: a script of so many tunnels.
#[derive(Clone, Copy)]
pub struct Make {
    /// From 1 to 1,000.
    pub count: u32,
    /// Whether it is run, and not printed.
    pub run: bool,
}

/// What is asked for.
#[derive(Drop)]
pub enum Command<'a> {
    Check(Check<'a>),
    Route(Route<'a>),
    Show(Show),
    Replay(Replay<'a>),
    Serve(Serve<'a>),
    Make(Make),
    /// That this is printed.
    Print(Page),
}
