//! Values under names, and what stood under the names that were changed.

ghost use Rattle.std.specs.Prelude.{◌≡◌, IfOk, IfErr, OnOk, OnErr};
ghost use Rattle.std.specs.FinMap as map;
ghost use Rattle.hb_index.specs.Kept.{note, note_removal};

use crate::by_name::ByName;
use hb_base::{NoMemory, Text};
use std::alloc::{AllocFailed, Global};

/// Values under names, and what stood under each name that was changed since the last `begin`.
#[derive(Drop)]
pub struct Kept<T> {
    pub now: ByName<T>,
    /// `None` under a name under which nothing stood.
    pub past: ByName<Option<T>>,
}

impl<T> Kept<T> {
    /// Nothing is held and nothing was changed. Takes no memory.
    pub fn new(alloc: Global) -> Kept<T>
        ensures now { result.now ≡ map.empty }
        ensures past { result.past ≡ map.empty }
    {
        Kept {
            now: ByName::new(alloc),
            past: ByName::new(alloc),
        }
    }
}

/// Notes what stood under a name; the first note of a name counts. With want of memory it comes back, and nothing changes.
pub fn note<T: Drop>(
    past: &mut ByName<Option<T>>,
    alloc: Global,
    name: &Text,
    stood: Option<T>,
) -> Result<(), AllocFailed<Option<T>>>
    ensures ok { OnOk result (past.new ≡ note past.old name.now stood) }
    ensures back { IfErr result (λ refused. refused.value ≡ stood) }
    ensures err { OnErr result (past.new ≡ past.old) }
{
    if let Some(first) = past.insert(alloc, name, stood)? {
        past.set(name, first);
    }
    Ok(())
}

impl<T: Drop> Kept<T> {
    /// Forgets what was changed so far.
    pub fn begin(&mut self, alloc: Global)
        ensures now { self.new.now ≡ self.old.now }
        ensures past { self.new.past ≡ map.empty }
    {
        self.past = ByName::new(alloc);
    }

    /// Takes the value under a name out, which is noted, and tells whether one stood there. Memory for the note is
    /// taken before.
    ///
    /// Errors: `NoMemory`, and then nothing changes.
    pub fn remove(&mut self, alloc: Global, name: &Text) -> Result<bool, NoMemory>
        ensures held { IfOk result (λ held. held ≡ map.contains_key self.old.now name.now) }
        ensures now { OnOk result (self.new.now ≡ map.remove self.old.now name.now) }
        ensures past { OnOk result (self.new.past ≡ note_removal self.old.past name.now (map.get self.old.now name.now)) }
        ensures err { OnErr result (self.new ≡ self.old) }
    {
        if !self.now.contains(name) {
            return Ok(false);
        }
        if self.past.contains(name) {
            self.now.take(name);
            return Ok(true);
        }
        self.past.put(alloc, name, None)?;
        let stood = self.now.take(name);
        self.past.set(name, stood);
        Ok(true)
    }
}
