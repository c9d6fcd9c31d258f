//! What a run counts for whoever asks after its state.

use hb_base::{Cause, NoMemory, Note};
use hb_disco::Kind;
use hb_held::{Held, HeldRecord, Outcome};
use hb_records::AddressRecord;
use std::alloc::Global;
use std::sync::Mutex;
use std::sync::atomic::{AtomicBool, AtomicU64, Ordering};

/// The status of a tunnel that is let in.
const LET_IN: &str = "200";

/// The word under which any other status is counted.
const OTHER: &str = "other";

/// The statuses of answers, and their words; 0 is that of a malformed request.
static STATUSES: [(u16, &'static str); 10] = [
    (0, "0"),
    (200, LET_IN),
    (400, "400"),
    (401, "401"),
    (404, "404"),
    (405, "405"),
    (431, "431"),
    (500, "500"),
    (502, "502"),
    (503, "503"),
];

/// The causes by which a tunnel that was let in may end.
static CAUSES: [Cause; 11] = [
    Cause::Done,
    Cause::PeerReset(0),
    Cause::PeerGone,
    Cause::UpFault,
    Cause::ConnFault(0),
    Cause::StreamFault(0),
    Cause::GoneAway,
    Cause::Revoked,
    Cause::Broken,
    Cause::Stopped,
    Cause::NoMemory,
];

/// The kinds of what is held.
const WORKLOADS: &str = "workloads";

const SERVICES: &str = "services";

const POLICIES: &str = "policies";

static HELD: [&'static str; 3] = [WORKLOADS, SERVICES, POLICIES];

/// The kinds of links.
static LINKS: [&'static str; 6] = [
    "control", "inbound", "outbound", "plain", "gateway", "upstream",
];

/// The kinds of responses, and of their resources.
const ADDRESS: &str = "address";

const AUTHORIZATION: &str = "authorization";

static KINDS: [&'static str; 2] = [ADDRESS, AUTHORIZATION];

/// How often a thing of this word came, or how many there are.
#[derive(Drop)]
pub(crate) struct Counter {
    pub word: &'static str,
    times: AtomicU64,
}

/// What a run counts. Its loop adds, without a wait, and the thread that tells the state reads.
#[derive(Drop)]
pub struct Counts {
    /// How often the loop looked up: its waits and glances.
    looks: AtomicU64,
    /// The answers, by status.
    pub(crate) answers: Vec<Counter>,
    /// The ends of tunnels, by cause.
    pub(crate) ends: Vec<Counter>,
    /// The bytes of the tunnels that ended.
    up: AtomicU64,
    down: AtomicU64,
    /// What is held, as of the last tick, by kind.
    pub(crate) held: Vec<Counter>,
    /// The links that live, by kind.
    pub(crate) links: Vec<Counter>,
    /// The responses that were applied, by kind.
    pub(crate) updates: Vec<Counter>,
    /// Their resources that were refused, by kind.
    pub(crate) refused: Vec<Counter>,
    /// Whether a response was applied since what is held was counted.
    is_stale: AtomicBool,
    /// Whether the state was asked for since it was handed over.
    is_asked: AtomicBool,
    /// The state that was handed over, until it is taken.
    state: Mutex<Option<String>>,
    /// Whether workloads and policies were told, as of the last tick.
    is_synced: AtomicBool,
    /// Whether the lines of the notes ended, since one couldn't be taken.
    is_silent: AtomicBool,
    /// Whether the run ended.
    is_over: AtomicBool,
}

impl Counter {
    fn new(word: &'static str) -> Counter {
        Counter {
            word,
            times: AtomicU64::new(0),
        }
    }

    /// How often it came.
    pub fn times(&self) -> u64 {
        self.times.load(Ordering::SeqCst)
    }
}

/// The word of a status.
fn word_of(status: u16) -> &'static str {
    for known in STATUSES.iter() {
        if known.0 == status {
            return known.1;
        }
    }
    OTHER
}

/// Counts one more of this word, or of any other where it has no place of its own.
fn count(counters: &[Counter], word: &str) {
    for counter in counters {
        if counter.word == word || counter.word == OTHER {
            counter.times.fetch_add(1, Ordering::SeqCst);
            return;
        }
    }
}

/// Adds so many of this word.
fn add(counters: &[Counter], word: &str, number: u64) {
    for counter in counters {
        if counter.word == word {
            counter.times.fetch_add(number, Ordering::SeqCst);
        }
    }
}

/// One counter for each of these words.
fn counters(alloc: Global, words: &[&'static str]) -> Result<Vec<Counter>, NoMemory> {
    let mut counters = Vec::new(alloc);
    for word in words {
        counters.push(Counter::new(word))?;
    }
    Ok(counters)
}

/// The word of a kind.
fn kind_word(kind: Kind) -> &'static str {
    match kind {
        Kind::Address => ADDRESS,
        Kind::Authorization => AUTHORIZATION,
    }
}

/// The word of what is held.
fn held_word(record: &HeldRecord<'_>) -> &'static str {
    match record {
        HeldRecord::Address(AddressRecord::Workload(_)) => WORKLOADS,
        HeldRecord::Address(AddressRecord::Service(_)) => SERVICES,
        HeldRecord::Policy(_) => POLICIES,
    }
}

/// The sum of all.
fn sum(counters: &[Counter]) -> u64 {
    let mut sum: u64 = 0;
    for counter in counters {
        sum = sum.saturating_add(counter.times());
    }
    sum
}

impl Counts {
    /// Nothing came yet.
    ///
    /// Errors: `NoMemory`.
    pub(crate) fn new(alloc: Global) -> Result<Counts, NoMemory> {
        let mut answers = Vec::new(alloc);
        for status in STATUSES.iter() {
            answers.push(Counter::new(status.1))?;
        }
        answers.push(Counter::new(OTHER))?;
        let mut ends = Vec::new(alloc);
        for cause in CAUSES.iter() {
            ends.push(Counter::new(cause.word()))?;
        }
        ends.push(Counter::new(OTHER))?;
        Ok(Counts {
            looks: AtomicU64::new(0),
            answers,
            ends,
            up: AtomicU64::new(0),
            down: AtomicU64::new(0),
            held: counters(alloc, HELD.as_slice())?,
            links: counters(alloc, LINKS.as_slice())?,
            updates: counters(alloc, KINDS.as_slice())?,
            refused: counters(alloc, KINDS.as_slice())?,
            is_stale: AtomicBool::new(false),
            is_asked: AtomicBool::new(false),
            state: Mutex::new(None),
            is_synced: AtomicBool::new(false),
            is_silent: AtomicBool::new(false),
            is_over: AtomicBool::new(false),
        })
    }

    /// Counts a note.
    pub(crate) fn note(&self, n: &Note) {
        match n {
            Note::Verdict { status, .. } => count(self.answers.as_slice(), word_of(*status)),
            Note::End {
                cause,
                up,
                down,
                ..
            } => {
                self.up.fetch_add(*up, Ordering::SeqCst);
                self.down.fetch_add(*down, Ordering::SeqCst);
                count(self.ends.as_slice(), cause.word());
            }
        }
    }

    /// A link of this kind is born.
    pub(crate) fn add_link(&self, word: &str) {
        add(self.links.as_slice(), word, 1);
    }

    /// A link of this kind is closed.
    pub(crate) fn remove_link(&self, word: &str) {
        for counter in self.links.iter() {
            if counter.word == word {
                counter.times.fetch_sub(1, Ordering::SeqCst);
            }
        }
    }

    /// Counts a response that was applied, and what it refused.
    pub(crate) fn apply(&self, kind: Kind, did: &Outcome) {
        let word = kind_word(kind);
        add(self.updates.as_slice(), word, 1);
        add(self.refused.as_slice(), word, did.refused.len() as u64);
        self.is_stale.store(true, Ordering::SeqCst);
    }

    /// Whether a response was applied since what is held was counted.
    pub(crate) fn is_stale(&self) -> bool {
        self.is_stale.load(Ordering::SeqCst)
    }

    /// Counts what is held.
    pub(crate) fn hold(&self, held: &Held) {
        for counter in self.held.iter() {
            counter.times.store(0, Ordering::SeqCst);
        }
        let mut rows = held.rows();
        while let Some(row) = rows.next() {
            add(self.held.as_slice(), held_word(&row.content), 1);
        }
        self.is_stale.store(false, Ordering::SeqCst);
    }

    /// The state is to be handed over.
    pub(crate) fn ask_state(&self) {
        self.is_asked.store(true, Ordering::SeqCst);
    }

    /// Whether the state is to be handed over.
    pub(crate) fn is_asked(&self) -> bool {
        self.is_asked.load(Ordering::SeqCst)
    }

    /// Hands the state over, unless the one before is just being taken: then it stays asked for.
    pub(crate) fn give_state(&self, state: String) {
        if let Some(mut place) = self.state.try_lock() {
            *place = Some(state);
            self.is_asked.store(false, Ordering::SeqCst);
        }
    }

    /// Takes the state that was handed over. `None` where none was since it was taken last, or where one is just being.
    pub(crate) fn take_state(&self) -> Option<String> {
        let mut place = self.state.try_lock()?;
        place.take()
    }

    /// The loop looked up.
    pub fn look(&self) {
        self.looks.fetch_add(1, Ordering::SeqCst);
    }

    /// Time passed; whether workloads and policies were told by then.
    pub(crate) fn tick(&self, synced: bool) {
        self.is_synced.store(synced, Ordering::SeqCst);
    }

    /// No line of a note is written any more.
    pub(crate) fn silence(&self) {
        self.is_silent.store(true, Ordering::SeqCst);
    }

    /// The run ended.
    pub(crate) fn end(&self) {
        self.is_over.store(true, Ordering::SeqCst);
    }

    /// How often the loop looked up.
    pub(crate) fn looks(&self) -> u64 {
        self.looks.load(Ordering::SeqCst)
    }

    /// The bytes to the side that was dialled, of the tunnels that ended.
    pub(crate) fn up(&self) -> u64 {
        self.up.load(Ordering::SeqCst)
    }

    /// The bytes back, of the tunnels that ended.
    pub(crate) fn down(&self) -> u64 {
        self.down.load(Ordering::SeqCst)
    }

    /// Whether workloads and policies were told, as of the last tick.
    pub(crate) fn is_synced(&self) -> bool {
        self.is_synced.load(Ordering::SeqCst)
    }

    /// Whether no line of a note is written any more.
    pub(crate) fn is_silent(&self) -> bool {
        self.is_silent.load(Ordering::SeqCst)
    }

    /// Whether the run ended.
    pub(crate) fn is_over(&self) -> bool {
        self.is_over.load(Ordering::SeqCst)
    }

    /// How many tunnels are open. Each was let in before it ended.
    pub(crate) fn open(&self) -> u64 {
        let ended = sum(self.ends.as_slice());
        let mut open: u64 = 0;
        for answer in self.answers.iter() {
            if answer.word == LET_IN {
                open = answer.times();
            }
        }
        open.saturating_sub(ended)
    }
}
