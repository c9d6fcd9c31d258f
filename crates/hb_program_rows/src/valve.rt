//! A sink that says so often that it takes no more.

use hb_base::Put;
use hb_line_audit::Polled;
use std::alloc::Global;

/// Takes what is put, once it was asked often enough.
#[derive(Drop)]
pub struct Valve {
    bytes: Vec<u8>,
    /// How often it says that it takes no more.
    refusals: u64,
    answer: Option<bool>,
    asked: u64,
    puts: u64,
    /// Each put was of whole lines, and of 4,096 octets at most.
    is_whole: bool,
    faults: u64,
}

impl Valve {
    pub fn new(alloc: Global, refusals: u64) -> Valve {
        Valve {
            bytes: Vec::new(alloc),
            refusals,
            answer: None,
            asked: 0,
            puts: 0,
            is_whole: true,
            faults: 0,
        }
    }

    pub fn as_slice(&self) -> &[u8] {
        self.bytes.as_slice()
    }

    pub fn puts(&self) -> u64 {
        self.puts
    }

    pub fn is_whole(&self) -> bool {
        self.is_whole
    }
}

impl Polled for Valve {
    ghost use Rattle.std.specs.Prelude.{Some};

    ghost written = { λ s. Some s.bytes.items };

    ghost faults = { λ s. s.faults };

    ghost answer = { λ s. s.answer };

    ghost asked = { λ s. s.asked };

    fn takes_more(&mut self) -> bool {
        self.asked = self.asked.saturating_add(1);
        let takes = self.asked > self.refusals;
        self.answer = Some(takes);
        takes
    }

    fn put(&mut self, from: &[u8]) -> Put {
        self.answer = None;
        self.puts = self.puts.saturating_add(1);
        self.is_whole = self.is_whole && from.len() <= 4096 && from.ends_with(b"\n");
        if self.bytes.extend_from_slice(from).is_ok() {
            return Put::Took(from.len());
        }
        self.faults = self.faults.saturating_add(1);
        Put::Failed
    }
}
