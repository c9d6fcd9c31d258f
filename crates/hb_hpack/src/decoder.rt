//! The decoder of header blocks (RFC 7541 section 3).

ghost use Rattle.std.specs.Prelude.{◌≡◌, ◌≤◌, ℕ, List, [], length, IfOk};
ghost use Rattle.hb_hpack.specs.Outcome.{Gives};
ghost use Rattle.hb_hpack.specs.declared.header.Header.{Header};
ghost use Rattle.hb_hpack.specs.Table.{total, Table};
ghost use Rattle.hb_hpack.specs.Block.{Reads};
ghost use Rattle.hb_hpack.specs.Reader.{is_update, update_at, updates_at, headers_at, block_at, GivesList};
ghost use Rattle.hb_hpack.specs.Decoded.{IsListOf, IsReadAs, IsBroken, IsRefusedAs};
ghost use Rattle.hb_hpack.specs.Breaks.{BreaksAt};
ghost use Rattle.hb_hpack.specs.declared.fault.HpackWhy.{HpackWhy};

use crate::dynamic_table::DynamicTable;
use crate::fault::{HpackFault, HpackWhy, Stop};
use crate::header::HeaderList;
use crate::integer::integer_at;
use crate::representation::add_field;
use hb_base::{List, NoMemory, Or};
use std::alloc::Global;
use std::marker::Model;

/// Whether the bytes begin with a size update.
fn is_update(bytes: &[u8]) -> bool
    ensures { result ≡ is_update bytes.now }
{
    match bytes.first() {
        None => false,
        Some(first) => 32 <= *first && *first < 64,
    }
}

/// The maximum of the size update in front, and the bytes behind it.
#[tactic(auto, unfolding(crate::specs::Reader::update_at))]
fn update_at(bytes: &[u8]) -> Result<(usize, &[u8]), Stop>
    ensures { Gives (λ x. (x.0, x.1.now)) result (update_at bytes.now) }
{
    let (maximum, rest) = integer_at(bytes, 5)?;
    if 4096 < maximum {
        return Err(Stop {
            left: rest.len() + 1,
            why: HpackWhy::BadSize,
        });
    }
    Ok((maximum, rest))
}

/// Takes the size updates in front. Gives the bytes behind them.
fn updates_at<'b>(table: &mut DynamicTable, bytes: &'b [u8]) -> Result<&'b [u8], Stop>
    ensures { Gives (λ rest. (table.new, rest.now)) result (updates_at (length bytes.now) table.old bytes.now) }
{
    let mut rest = bytes;
    while is_update(rest) {
        let (maximum, after) = update_at(rest)?;
        table.resize(maximum as u64);
        rest = after;
    }
    Ok(rest)
}

/// Reads headers to the end. On an error the table isn't used again.
fn headers_at(alloc: Global, table: &mut DynamicTable, bytes: &[u8]) -> Result<HeaderList, Or<Stop>>
    ensures { GivesList table.new result (headers_at (length bytes.now) table.old bytes.now) }
{
    let mut list = HeaderList::new(alloc)?;
    let mut rest = bytes;
    while !rest.is_empty() {
        rest = add_field(alloc, table, &mut list, rest)?;
    }
    Ok(list)
}

/// Reads header blocks, one after another, and keeps the table from each to the next. After an error it isn't
/// used again. Contracts see it as its table.
#[derive(Drop)]
pub struct Decoder {
    alloc: Global,
    table: DynamicTable,
}

impl Model for Decoder {
    ghost use Rattle.hb_hpack.specs.Table.{Table};

    ghost Value = { Table };

    ghost view = { λ d. d.table };
}

impl Decoder {
    /// A decoder with an empty table of the default size, 4,096 (RFC 9113 section 6.5.2).
    pub fn new(alloc: Global) -> Decoder
        ensures { result ≡ record { entries = []; maximum = 4096 } }
    {
        Decoder {
            alloc,
            table: DynamicTable::new(alloc),
        }
    }

    /// The sum of the sizes of the entries in the table (RFC 7541 section 4.1).
    pub fn table_size(&self) -> usize
        ensures size { result ≡ total self.now.entries }
        ensures small { result ≤ 4096 }
    {
        self.table.size() as usize
    }

    fn read(&mut self, b: &[u8]) -> Result<HeaderList, Or<Stop>>
        ensures { GivesList self.new result (block_at self.old b.now) }
    {
        match updates_at(&mut self.table, b) {
            Ok(rest) => headers_at(self.alloc, &mut self.table, rest),
            Err(stop) => Err(Or::Fault(stop)),
        }
    }

    /// The headers of a block (RFC 7541 sections 3.2 and 6), whose entries go into the table.
    ///
    /// Errors: where the block stands for no headers, what is wrong with it and the place of that, by `HpackWhy`; and
    /// `NoMemory`. After either the decoder isn't used again.
    pub fn block(&mut self, b: &[u8]) -> Result<HeaderList, Or<HpackFault>>
        // What is read is what the block stands for.
        ensures read { IfOk result (λ list. (headers : List Header) × Reads self.old b.now headers self.new × IsListOf headers list) }
        // What stands for headers is read as them, and leaves their table.
        ensures only { (headers : List Header) (next : Table) → Reads self.old b.now headers next → IsReadAs headers next self.new result }
        // What is refused is broken so, at the fault's place.
        ensures broken { IsBroken self.old b.now result }
        // What is broken is refused with that fault.
        ensures refused { (at : ℕ) (why : HpackWhy) → BreaksAt self.old b.now at why → IsRefusedAs at why result }
    {
        match self.read(b) {
            Ok(list) => Ok(list),
            Err(Or::NoMemory) => Err(Or::NoMemory),
            Err(Or::Fault(stop)) => Err(Or::Fault(HpackFault {
                at: b.len() - stop.left,
                why: stop.why,
            })),
        }
    }
}
