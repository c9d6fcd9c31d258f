//! One connection.

ghost use Rattle.std.specs.Prelude.{◌≡◌, ◌≤◌, ◌<◌, ◌+◌, min, length, IfOk, OnErr, IsTrue};
ghost use Rattle.std.specs.Borrow.{sem};
ghost use Rattle.hb_hpack.specs.Table.{total};
ghost use Rattle.hb_streams.specs.declared.role.Role.TheVariants.{Client};
ghost use Rattle.hb_conn.specs.Connection.{fresh_core, fresh_server, fresh_client, space_of, count_of, taken, Finds, LeavesLess};
ghost use Rattle.hb_conn.specs.Loan.{EndsTold};
ghost use Rattle.hb_conn.specs.Observed.{output, room, role, sides, own_side_open, IsActiveOn, streams_open, creditable, count_put, data_unbegun, data_begun, end_waits, next_stream, LacksBlock};
ghost use Rattle.hb_conn.specs.Observed.{KeepsWhatCame, wrote, Opens, data_put, credited, status_put, end_put, aborted};

use crate::found::Found;
use crate::happening::Happening;
use crate::machine::{Core, Peer};
use crate::plain_encoder::PlainEncoder;
use crate::preface::{PREFACE, Preface};
use crate::receiver::Receiver;
use hb_base::{List, NoMemory, Or};
use hb_blocks::Blocks;
use hb_flow::Flow;
use hb_frames::FrameReader;
use hb_frames::numbers::{FIRST_FRAME_SIZE, PROTOCOL_ERROR, SETTINGS};
use hb_hpack::Header;
use hb_outgoing::{Outgoing, Unbegun};
use hb_owed::Owed;
use hb_streams::{OpenFault, Role, Sides, Streams};
use std::alloc::Global;
use std::marker::Model;

/// At most 100 streams (SETTINGS_MAX_CONCURRENT_STREAMS), header lists of 16,384 octets
/// (SETTINGS_MAX_HEADER_LIST_SIZE).
const SERVER_SETTINGS: [u8; 12] = [0, 3, 0, 0, 0, 100, 0, 6, 0, 0, 64, 0];

/// No pushes (SETTINGS_ENABLE_PUSH), header lists of 16,384 octets.
const CLIENT_SETTINGS: [u8; 12] = [0, 2, 0, 0, 0, 0, 0, 6, 0, 0, 64, 0];

/// One end of a connection.
#[derive(Drop)]
pub struct Conn {
    /// Where header blocks are made.
    alloc: Global,
    preface: Preface,
    receiver: Receiver,
    /// The stream that the peer has ended, of which it is still to be told.
    ended: Option<u32>,
}

impl Model for Conn {
    ghost use Rattle.hb_conn.specs.Connection.{Connection, connection_code};
    ghost use Rattle.hb_conn.specs.contracts.preface.Preface.{the_row as preface_row};
    ghost use Rattle.hb_conn.specs.contracts.receiver.Receiver.{the_row as receiver_row};

    ghost Value = { Connection };

    ghost coded = { connection_code preface_row.coded receiver_row.coded };

    ghost view = { λ c. record { preface = c.preface; receiver = c.receiver; ended = c.ended } };
}

fn core(alloc: Global, role: Role, out: Outgoing) -> Result<Core, NoMemory>
    ensures { IfOk result (λ c. c ≡ fresh_core role out) }
{
    Ok(Core {
        streams: Streams::new(alloc, role)?,
        flow: Flow::new(alloc),
        out,
        owed: Owed::new(alloc),
        encoder: PlainEncoder::new(),
        blocks: Blocks::new(alloc),
        peer: Peer {
            frame_size: FIRST_FRAME_SIZE,
            streams: u32::MAX,
        },
        settled: false,
        over: false,
    })
}

impl Conn {
    /// A server's end; its SETTINGS are put (RFC 9113 section 3.4).
    ///
    /// Errors: `NoMemory`.
    pub fn server(alloc: Global) -> Result<Conn, NoMemory>
        ensures { IfOk result (λ c. c ≡ fresh_server) }
    {
        let mut out = Outgoing::new(alloc)?;
        out.put_frame(SETTINGS, 0, 0, &SERVER_SETTINGS);
        let core = core(alloc, Role::Server, out)?;
        let reader = FrameReader::new(alloc, FIRST_FRAME_SIZE)?;
        Ok(Conn {
            alloc,
            preface: Preface::new(false),
            receiver: Receiver { reader, core },
            ended: None,
        })
    }

    /// A client's end; its preface and its SETTINGS are put (RFC 9113 section 3.4).
    ///
    /// Errors: `NoMemory`.
    pub fn client(alloc: Global) -> Result<Conn, NoMemory>
        ensures { IfOk result (λ c. c ≡ fresh_client) }
    {
        let mut out = Outgoing::new(alloc)?;
        out.put_opening(&PREFACE);
        out.put_frame(SETTINGS, 0, 0, &CLIENT_SETTINGS);
        let core = core(alloc, Role::Client, out)?;
        let reader = FrameReader::new(alloc, FIRST_FRAME_SIZE)?;
        Ok(Conn {
            alloc,
            preface: Preface::new(true),
            receiver: Receiver { reader, core },
            ended: None,
        })
    }

    /// How many octets can be taken now: none where `room` is below 256 or a connection error was told.
    pub fn space(&self) -> usize
        ensures { result ≡ space_of self.now }
    {
        if self.receiver.core.pauses() {
            0
        } else {
            self.receiver.reader.space()
        }
    }

    /// Takes as many of the peer's octets as there is space for, and says how many.
    pub fn take(&mut self, b: &[u8]) -> usize
        ensures count { result ≡ count_of self.old b.now }
        ensures after { self.new ≡ taken self.old b.now }
    {
        let n = b.len().min(self.space());
        let front = self.preface.feed(&b[..n]);
        self.receiver.reader.feed(&b[front..n]);
        n
    }

    /// What is found next.
    fn next_found(&mut self) -> Result<Found, NoMemory>
        ensures all { IfOk result (Finds self.old self.new) }
        ensures falls { IfOk result (LeavesLess self.old self.new) }
        ensures lacks { OnErr result (LacksBlock self.old) }
    {
        if self.receiver.core.pauses() {
            return Ok(Found::Silent);
        }
        if let Some(stream) = self.ended.take() {
            return Ok(Found::Ended { stream });
        }
        if !self.preface.is_whole() {
            return Ok(Found::Silent);
        }
        if !self.preface.is_same() {
            return Ok(self.receiver.core.fail(PROTOCOL_ERROR));
        }
        let found = self.receiver.receive()?;
        self.ended = found.ended();
        Ok(found)
    }

    /// What happened next. `None` where nothing more did: no whole frame is left that makes a happening, `room` is
    /// below 256, or a connection error was told.
    ///
    /// Errors: `NoMemory`, where a header block wants memory; the connection isn't used again then.
    pub fn next_happening(&mut self) -> Result<Option<Happening<'_>>, NoMemory>
        ensures* after { sem 𝓛 (EndsTold self.entry result) }
        ensures lacks { OnErr result (LacksBlock self.old) }
    {
        let found = self.next_found()?;
        Ok(match found {
            Found::Silent => None,
            Found::Opened { stream, end } => Some(Happening::Opened {
                stream,
                headers: self.receiver.core.blocks.headers(),
                end,
            }),
            Found::Chunk { stream, .. } => Some(Happening::Chunk {
                stream,
                bytes: self.receiver.reader.last_bytes(),
            }),
            Found::Ended { stream } => Some(Happening::Ended { stream }),
            Found::Reset { stream, code } => Some(Happening::Reset { stream, code }),
            Found::Broken { stream, code } => Some(Happening::Broken { stream, code }),
            Found::GoneAway { last } => Some(Happening::GoneAway { last }),
            Found::Fault { code } => Some(Happening::Fault { code }),
        })
    }

    /// All octets that wait to be written.
    pub fn output(&self) -> &[u8]
        ensures { result.now ≡ output self.now }
    {
        self.receiver.core.out.front()
    }

    /// Removes the first `n` octets of the output, which were written. Then what is owed is put, as far as there is room.
    pub fn wrote(&mut self, n: usize)
        requires { n ≤ length (output self.old) }
        ensures { self.new ≡ wrote self.old n }
    {
        self.receiver.core.wrote(n);
    }

    /// Opens the next stream of this client with these headers, whose block goes in one HEADERS frame; `end` ends
    /// this end's side at once (RFC 9113 sections 5.1.1 and 8.5).
    ///
    /// Errors: `Full` where 100 streams are open or half-closed, or as many as the peer's
    /// SETTINGS_MAX_CONCURRENT_STREAMS, and `Spent` where no number is left; nothing has changed then. `NoMemory`,
    /// after which the connection isn't used again.
    pub fn open(&mut self, headers: &List<Header>, end: bool) -> Result<u32, Or<OpenFault>>
        requires client { role self.old ≡ Client }
        requires room { 1024 ≤ room self.old }
        requires headers { total headers.now ≤ 900 }
        ensures told { Opens self.old headers.now end self.new result }
        ensures rest { KeepsWhatCame self.old self.new }
    {
        self.receiver.core.open(self.alloc, headers, end)
    }

    /// The number of the stream that a client opens next (RFC 9113 sections 5.1.1 and 5.1.2).
    ///
    /// Errors: `Full` and `Spent` as `open` has them.
    pub fn next_stream(&self) -> Result<u32, OpenFault>
        ensures { result ≡ next_stream self.now }
    {
        let core = &self.receiver.core;
        core.streams.next_number(core.peer.streams)
    }

    /// Puts the first octets in one DATA frame, as many as the stream's window, the connection's, the peer's
    /// SETTINGS_MAX_FRAME_SIZE and 16,384 let go, and says how many; none while the output holds any octet, nor behind a
    /// connection error (RFC 9113 sections 5.4.1 and 6.9).
    pub fn put_some(&mut self, stream: u32, bytes: &[u8]) -> usize
        requires { IsTrue (own_side_open self.old stream) }
        ensures count { result ≡ count_put self.old stream bytes.now }
        ensures after { self.new ≡ data_put self.old stream bytes.now }
    {
        self.receiver.core.put_some(stream, bytes)
    }

    /// `n` octets that came on the stream are used up. WINDOW_UPDATE is put or owed where it is due, as long as the peer
    /// hasn't ended the stream (RFC 9113 section 6.9).
    pub fn credit(&mut self, stream: u32, n: u32)
        requires { n ≤ creditable self.old stream }
        ensures { self.new ≡ credited self.old stream n }
    {
        self.receiver.core.credit(stream, n);
    }

    /// Answers on the stream with a status in HEADERS, which end this end's side where `end` says so. They are owed as
    /// long as room lacks.
    pub fn put_status(&mut self, stream: u32, status: u16, end: bool)
        requires open { IsTrue (own_side_open self.old stream) }
        requires low { 100 ≤ status }
        requires high { status < 1000 }
        ensures { self.new ≡ status_put self.old stream (record { number = status; end = end }) }
    {
        self.receiver.core.put_status(stream, status, end);
    }

    /// Ends this end's side of the stream with an empty DATA frame, which is owed as long as room lacks.
    pub fn put_end(&mut self, stream: u32)
        requires { IsTrue (own_side_open self.old stream) }
        ensures { self.new ≡ end_put self.old stream }
    {
        self.receiver.core.put_end(stream);
    }

    /// Resets the stream: its DATA that hasn't begun is taken back, and RST_STREAM is put, or owed as long as room lacks
    /// (RFC 9113 section 6.4).
    pub fn put_reset(&mut self, stream: u32, code: u32)
        requires { IsActiveOn self.old stream }
        ensures { self.new ≡ aborted self.old stream code }
    {
        self.receiver.core.abort(stream, code);
    }

    /// The octets that came on the stream and aren't used up: so many may be given to `credit`.
    pub fn creditable(&self, stream: u32) -> u32
        ensures { result ≡ creditable self.now stream }
    {
        self.receiver.core.flow.creditable(stream)
    }

    /// Which end of the connection this is.
    pub fn role(&self) -> Role
        ensures { result ≡ role self.now }
    {
        self.receiver.core.streams.role()
    }

    /// The first DATA frame with payload that waits and of which no octet was written. `None` where no such frame waits.
    pub fn unbegun(&self) -> Option<Unbegun>
        ensures { result ≡ data_unbegun self.now }
    {
        self.receiver.core.out.unbegun()
    }

    /// Of a DATA frame of the stream octets were written, and octets wait.
    pub fn data_begun(&self, stream: u32) -> bool
        ensures { result ≡ data_begun self.now stream }
    {
        self.receiver.core.out.data_begun(stream)
    }

    /// A frame of the stream with END_STREAM is owed, or has an octet in the output.
    pub fn end_waits(&self, stream: u32) -> bool
        ensures { result ≡ end_waits self.now stream }
    {
        self.receiver.core.end_waits(stream)
    }

    /// How many octets more the output has room for.
    pub fn room(&self) -> usize
        ensures { result ≡ room self.now }
    {
        self.receiver.core.out.room()
    }

    /// How many streams are open or half-closed.
    pub fn streams_open(&self) -> u32
        ensures { result ≡ min (streams_open self.now) 4294967295 }
    {
        self.receiver.core.streams.active().min(u32::MAX as usize) as u32
    }

    /// Which sides of a stream are open: none exactly of an idle or a closed one.
    pub fn sides(&self, stream: u32) -> Sides
        ensures { result ≡ sides self.now stream }
    {
        self.receiver.core.streams.sides(stream)
    }
}
