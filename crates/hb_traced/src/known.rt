//! What is kept of the calls so far.

ghost use Rattle.std.specs.Prelude.{◌≡◌, nat_eq};
ghost use Rattle.hb_world.specs.Seen.{CountsUp};
ghost use Rattle.hb_world.specs.Trace.{births};
ghost use Rattle.hb_traced.specs.Known.{KeepsLiving, Unborn, Unclosed};

use crate::call::Call;
use crate::past::Past;
use hb_base::{Cause, NoMemory};
use std::alloc::Global;
use std::collections::HashMap;

/// What the calls so far did. When the program runs it is how many links were born, and how often calls failed: of listens and waits, of
/// births, and for each link that lives.
#[derive(Drop)]
pub(crate) struct Known {
    pub past: Past,
    pub links: HashMap<u64, u64>,
    pub born: u64,
    pub faults: u64,
    pub birth_faults: u64,
    ghost count: { births past.entries ≡ born },
    ghost living: { KeepsLiving past.entries links },
    ghost unborn: { Unborn past.entries born },
    ghost unclosed: { Unclosed past.entries born },
}

/// One more where a call failed. It stays at its largest number.
fn counted(count: u64, failed: bool) -> u64
    ensures { CountsUp count result failed }
{
    if failed {
        count.saturating_add(1)
    } else {
        count
    }
}

impl Known {
    ghost use Rattle.std.specs.Prelude.{◌<◌, ◌+◌, ◌++◌, [], ℕ, IsTrue, IfOk, OnOk, Some};
    ghost use Rattle.std.specs.HashMap.{spare};
    ghost use Rattle.hb_world.specs.Calls.{close_entries};
    ghost use Rattle.hb_world.specs.Trace.{lives};
    ghost use Rattle.hb_traced.specs.Call.{entries_of, birth_of, is_still};
    ghost use Rattle.hb_traced.specs.Known.{faults_at, SameFaults, OthersSame};

    /// No call was made.
    pub fn new(alloc: Global) -> Known
        ensures trace { result.past.entries ≡ [] }
        ensures faults { (result.faults ≡ 0) × (result.birth_faults ≡ 0) }
        ensures link_faults { (l : ℕ) → faults_at result.links l ≡ 0 }
    {
        Known {
            past: Past::new(),
            links: HashMap::new(alloc),
            born: 0,
            faults: 0,
            birth_faults: 0,
        }
    }

    /// Whether a link lives.
    pub fn lives(&self, link: u64) -> bool
        ensures { result ≡ lives link self.now.past.entries }
    {
        self.links.contains_key(&link)
    }

    /// Takes the room for one more link, and gives its number.
    ///
    /// Errors: `NoMemory`, also where no number is left.
    pub fn expect(&mut self) -> Result<u64, NoMemory>
        ensures number { IfOk result (λ n. n ≡ births self.old.past.entries + 1) }
        ensures room { OnOk result (0 < spare self.new.links) }
        ensures trace { self.new.past.entries ≡ self.old.past.entries }
        ensures faults { (self.new.faults ≡ self.old.faults) × (self.new.birth_faults ≡ self.old.birth_faults) }
        ensures link_faults { SameFaults self.old.links self.new.links }
    {
        let number = self.born.checked_add(1).ok_or(NoMemory)?;
        self.links.reserve(1)?;
        Ok(number)
    }

    /// A listen, a wait, a glance or a shut was made.
    pub fn hear(&mut self, call: &Call<'_>, failed: bool)
        requires { IsTrue (is_still call.now) }
        ensures trace { self.new.past.entries ≡ self.old.past.entries ++ entries_of call.now self.old.past.entries }
        ensures faults { CountsUp self.old.faults self.new.faults failed × (self.new.birth_faults ≡ self.old.birth_faults) }
        ensures link_faults { SameFaults self.old.links self.new.links }
    {
        self.past.hear(call);
        self.faults = counted(self.faults, failed);
    }

    /// A link was asked for, and none was born.
    pub fn miss(&mut self, call: &Call<'_>, failed: bool)
        requires { IsTrue (is_still call.now) }
        ensures trace { self.new.past.entries ≡ self.old.past.entries ++ entries_of call.now self.old.past.entries }
        ensures faults { (self.new.faults ≡ self.old.faults) × CountsUp self.old.birth_faults self.new.birth_faults failed }
        ensures link_faults { SameFaults self.old.links self.new.links }
    {
        self.past.hear(call);
        self.birth_faults = counted(self.birth_faults, failed);
    }

    /// The next link was born, for which room was taken.
    pub fn bear(&mut self, link: u64, call: &Call<'_>)
        requires room { 0 < spare self.old.links }
        requires next { link ≡ births self.old.past.entries + 1 }
        requires birth { birth_of call.now ≡ Some link }
        ensures trace { self.new.past.entries ≡ self.old.past.entries ++ entries_of call.now self.old.past.entries }
        ensures faults { (self.new.faults ≡ self.old.faults) × (self.new.birth_faults ≡ self.old.birth_faults) }
        ensures link_faults { SameFaults self.old.links self.new.links }
    {
        match self.links.insert(link, 0) {
            Ok(_) => {}
            Err(_) => unreachable!(),
        }
        self.past.hear(call);
        self.born = link;
    }

    /// Counts a call on a link where it failed, which it does at most where the link lives.
    fn count_of(&mut self, link: u64, failed: bool)
        requires { IsTrue failed → IsTrue (lives link self.old.past.entries) }
        ensures trace { self.new.past.entries ≡ self.old.past.entries }
        ensures faults { (self.new.faults ≡ self.old.faults) × (self.new.birth_faults ≡ self.old.birth_faults) }
        ensures count { CountsUp (faults_at self.old.links link) (faults_at self.new.links link) failed }
        ensures others { OthersSame link self.old.links self.new.links }
    {
        if !failed {
            return;
        }
        if let Some(count) = self.links.get_mut(&link) {
            *count = count.saturating_add(1);
        }
    }

    /// A call on a link was made, which failed at most where it lives.
    pub fn hear_of(&mut self, link: u64, call: &Call<'_>, failed: bool)
        requires still { IsTrue (is_still call.now) }
        requires living { IsTrue failed → IsTrue (lives link self.old.past.entries) }
        ensures trace { self.new.past.entries ≡ self.old.past.entries ++ entries_of call.now self.old.past.entries }
        ensures faults { (self.new.faults ≡ self.old.faults) × (self.new.birth_faults ≡ self.old.birth_faults) }
        ensures count { CountsUp (faults_at self.old.links link) (faults_at self.new.links link) failed }
        ensures others { OthersSame link self.old.links self.new.links }
    {
        self.count_of(link, failed);
        self.past.hear(call);
    }

    /// A link is closed, and forgotten.
    pub fn close(&mut self, link: u64, cause: Cause)
        ensures trace { self.new.past.entries ≡ self.old.past.entries ++ close_entries link cause self.old.past.entries }
        ensures faults { (self.new.faults ≡ self.old.faults) × (self.new.birth_faults ≡ self.old.birth_faults) }
        ensures others { OthersSame link self.old.links self.new.links }
    {
        self.links.remove(&link);
        self.past.hear(&Call::Close(link, cause));
    }
}
