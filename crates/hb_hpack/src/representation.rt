//! One representation of a header (RFC 7541 section 6).

ghost use Rattle.std.specs.Prelude.{◌≡◌, ◌<◌};
ghost use Rattle.std.specs.Option.{option_map};
ghost use Rattle.hb_hpack.specs.Outcome.{Gives, GivesOr};
ghost use Rattle.hb_hpack.specs.StaticTable.{header};
ghost use Rattle.hb_hpack.specs.Table.{entry_at};
ghost use Rattle.hb_hpack.specs.Reader.{octets, entry_or, name_at, literal_at, indexed_at, entered_at, field_at, Adds};

use crate::dynamic_table::{DynamicTable, Entry};
use crate::fault::{HpackWhy, Stop};
use crate::header::HeaderList;
use crate::integer::integer_at;
use crate::literal::string_at;
use crate::octets::Octets;
use crate::static_table::static_header;
use hb_base::Or;
use std::alloc::Global;

/// The name and the value of the header of an index, where there is one.
#[inline(always)]
fn entry_at<'a>(table: &'a DynamicTable, index: usize) -> Option<(&'a [u8], &'a [u8])>
    ensures { option_map (λ e. header e.0.now e.1.now) result ≡ entry_at table.now index }
{
    if index == 0 {
        return None;
    }
    let place = index - 1;
    if place < 61 {
        return Some(static_header(place));
    }
    match table.get(place - 61) {
        None => None,
        Some(entry) => Some(entry.parts()),
    }
}

/// The same, or the fault of an index that ends before `rest`.
#[inline(always)]
fn entry_or<'a>(
    table: &'a DynamicTable,
    index: usize,
    rest: &[u8],
) -> Result<(&'a [u8], &'a [u8]), Stop>
    ensures { Gives (λ e. header e.0.now e.1.now) result (entry_or (entry_at table.now index) rest.now) }
{
    match entry_at(table, index) {
        None => Err(Stop {
            left: rest.len() + 1,
            why: HpackWhy::BadIndex,
        }),
        Some(entry) => Ok(entry),
    }
}

/// The name in front of a literal, and the bytes behind it.
#[tactic(auto, unfolding(crate::specs::Reader::name_at))]
#[inline(always)]
fn name_at<'a, 'b: 'a>(
    alloc: Global,
    table: &'a DynamicTable,
    bytes: &'b [u8],
    prefix: u8,
) -> Result<(Octets<'a>, &'b [u8]), Or<Stop>>
    requires { prefix < 8 }
    ensures { GivesOr (λ x. (octets x.0, x.1.now)) result (name_at table.now prefix bytes.now) }
{
    let (index, rest) = integer_at(bytes, prefix).map_err(Or::Fault)?;
    if index == 0 {
        return string_at(alloc, rest);
    }
    let (name, _) = entry_or(table, index, rest).map_err(Or::Fault)?;
    Ok((Octets::Standing(name), rest))
}

/// The name and the value of the literal in front, and the bytes behind it.
#[tactic(auto, unfolding(crate::specs::Reader::literal_at))]
#[inline(always)]
fn literal_at<'a, 'b: 'a>(
    alloc: Global,
    table: &'a DynamicTable,
    bytes: &'b [u8],
    prefix: u8,
) -> Result<(Octets<'a>, Octets<'b>, &'b [u8]), Or<Stop>>
    requires { prefix < 8 }
    ensures { GivesOr (λ x. (header (octets x.0) (octets x.1), x.2.now)) result (literal_at table.now prefix bytes.now) }
{
    let (name, rest) = name_at(alloc, table, bytes, prefix)?;
    let (value, rest) = string_at(alloc, rest)?;
    Ok((name, value, rest))
}

/// The name and the value of the indexed header in front, and the bytes behind it.
#[tactic(auto, unfolding(crate::specs::Reader::indexed_at))]
#[inline(always)]
fn indexed_at<'a, 'b>(
    table: &'a DynamicTable,
    bytes: &'b [u8],
) -> Result<(&'a [u8], &'a [u8], &'b [u8]), Stop>
    ensures { Gives (λ x. (header x.0.now x.1.now, x.2.now)) result (indexed_at table.now bytes.now) }
{
    let (index, rest) = integer_at(bytes, 7)?;
    let (name, value) = entry_or(table, index, rest)?;
    Ok((name, value, rest))
}

/// Adds the header of the literal in front to the list and to the table. Gives the bytes behind it. On an error
/// neither is used again.
#[inline(always)]
fn enter<'b>(
    alloc: Global,
    table: &mut DynamicTable,
    list: &mut HeaderList,
    bytes: &'b [u8],
) -> Result<&'b [u8], Or<Stop>>
    ensures { Adds list.old list.new table.new result (entered_at table.old bytes.now) }
{
    let (name, value, rest) = literal_at(alloc, table, bytes, 6)?;
    let entry = Entry::of(alloc, name.as_slice(), value.as_slice())?;
    list.add(alloc, name, value)?;
    table.add(entry)?;
    Ok(rest)
}

/// Adds the header that the representation in front stands for to the list. Gives the bytes behind it. On an error
/// the list and the table aren't used again.
#[tactic(auto, unfolding(crate::specs::Reader::field_at))]
#[inline(always)]
pub(crate) fn add_field<'b>(
    alloc: Global,
    table: &mut DynamicTable,
    list: &mut HeaderList,
    bytes: &'b [u8],
) -> Result<&'b [u8], Or<Stop>>
    ensures { Adds list.old list.new table.new result (field_at table.old bytes.now) }
{
    let Some(first) = bytes.first() else {
        return Err(Or::Fault(Stop {
            left: 0,
            why: HpackWhy::Truncated,
        }));
    };
    if 128 <= *first {
        let (name, value, rest) = indexed_at(table, bytes).map_err(Or::Fault)?;
        list.add(alloc, Octets::Standing(name), Octets::Standing(value))?;
        return Ok(rest);
    }
    if 64 <= *first {
        return enter(alloc, table, list, bytes);
    }
    if 32 <= *first {
        return Err(Or::Fault(Stop {
            left: bytes.len(),
            why: HpackWhy::LateSize,
        }));
    }
    let (name, value, rest) = literal_at(alloc, table, bytes, 4)?;
    list.add(alloc, name, value)?;
    Ok(rest)
}
