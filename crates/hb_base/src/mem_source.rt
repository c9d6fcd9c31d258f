//! A source over memory.

ghost use Rattle.std.specs.Prelude.{◌≡◌, ◌<◌, ◌≤◌, length, IfOk};
ghost use Rattle.hb_base.specs.Count.{Counts};
ghost use Rattle.hb_base.specs.MemSource.{Reading, take_answer, after_take};
ghost use Rattle.hb_base.specs.Source.{Takes, take_failed};

use crate::or::NoMemory;
use crate::source::{Source, Taken};
use std::alloc::Global;
use std::marker::Model;

/// A source over a copy of bytes, of which chosen calls fail. Contracts see what is left, the numbers of
/// the calls that fail, counted from 1, and how many calls came and failed. Both counts stay at
/// `u64::MAX` once they are there.
#[derive(Drop)]
pub struct MemSource {
    bytes: Vec<u8>,
    at: usize,
    fails: Vec<u64>,
    calls: u64,
    faults: u64,
}

impl Model for MemSource {
    ghost use Rattle.std.specs.Prelude.{◌≤◌, drop, vec_len};
    ghost use Rattle.hb_base.specs.MemSource.{Reading};

    ghost Value = { Reading };

    ghost view = { λ s. record {
      left = drop s.at s.bytes.items;
      fails = s.fails.items;
      calls = s.calls;
      faults = s.faults;
    } };

    ghost invariant = { λ s. s.at ≤ vec_len s.bytes };
}

impl MemSource {
    /// A source of these bytes, whose calls of these numbers fail.
    ///
    /// Errors: `NoMemory`.
    pub fn over(alloc: Global, bytes: &[u8], fails: &[u64]) -> Result<MemSource, NoMemory>
        ensures { IfOk result (λ s. s ≡ record { left = bytes.now; fails = fails.now; calls = 0; faults = 0 }) }
    {
        let bytes = Vec::from_slice(alloc, bytes)?;
        let fails = Vec::from_slice(alloc, fails)?;
        Ok(MemSource {
            bytes,
            at: 0,
            fails,
            calls: 0,
            faults: 0,
        })
    }
}

impl Source for MemSource {
    ghost use Rattle.std.specs.Prelude.{Some};

    ghost left = { λ s. Some s.left };

    ghost faults = { λ s. s.faults };

    /// As many bytes as fit, unless the call is one that fails.
    fn take(&mut self, into: &mut [u8]) -> Taken
        requires { 0 < length into.old }
        ensures bytes { Takes (Some self.old.left) (Some self.new.left) into.new result }
        ensures later { self.old.faults ≤ self.new.faults }
        ensures counts { Counts self.old.faults self.new.faults (take_failed result) }
        ensures answer { result ≡ take_answer self.old (length into.old) }
        ensures after { self.new ≡ after_take self.old result }
    {
        self.calls = self.calls.saturating_add(1);
        if self.fails.contains(&self.calls) {
            self.faults = self.faults.saturating_add(1);
            return Taken::Failed;
        }
        let left = &self.bytes[self.at..];
        if left.is_empty() {
            return Taken::End;
        }
        let n = into.len().min(left.len());
        into[..n].copy_from_slice(&left[..n]);
        self.at += n;
        Taken::Got(n)
    }
}
