//! The encoder of header blocks. It never enters a header into the table.

ghost use Rattle.std.specs.Prelude.{◌≡◌, ◌<◌, ◌≤◌, ◌+◌, ◌++◌, ◌^◌, ◌&&◌, List, length, take, drop, false, [], ◌∷◌, OnOk, OnErr};
ghost use Rattle.std.specs.List.{flat_map};
ghost use Rattle.std.specs.Str.{bytes_eq};
ghost use Rattle.hb_hpack.specs.Table.{Table};
ghost use Rattle.hb_hpack.specs.Block.{Reads};
ghost use Rattle.hb_hpack.specs.Fronts.{IsFrontOf};
ghost use Rattle.hb_hpack.specs.Integer.{full};
ghost use Rattle.hb_hpack.specs.StaticTable.{header, static_headers};
ghost use Rattle.hb_hpack.specs.Encoding.{integer_of, string_of, static_at, same_name, same_header, index_from, literal_of, header_of, opening, status_of, Writing, block_of, going, cleared, MayHave, AreWritable, status_header};

use crate::header::Header;
use crate::huffman::huffman_put;
use crate::spelling::Spelling;
use crate::static_table::{NAME_LENGTHS, static_header};
use hb_base::{List, NoMemory, put_groups};
use std::alloc::Global;
use std::marker::Model;

/// Writes an integer with a prefix of so many bits, behind a flag (RFC 7541 section 5.1).
fn put_integer(out: &mut Vec<u8>, prefix: u8, flag: u8, n: u64) -> Result<(), NoMemory>
    requires prefix { prefix < 8 }
    requires flag { flag + 2 ^ prefix ≤ 256 }
    ensures ok { OnOk result (out.new.items ≡ out.old.items ++ integer_of prefix flag n) }
    ensures grows { IsFrontOf out.old.items out.new.items }
    ensures err { OnErr result (IsFrontOf out.new.items (out.old.items ++ integer_of prefix flag n)) }
{
    let full = (1u8 << prefix) - 1;
    if n < u64::from(full) {
        out.push(flag + n as u8)?;
        return Ok(());
    }
    out.push(flag + full)?;
    put_groups(out, n - u64::from(full), 10)
}

/// Writes bytes.
fn put_bytes(out: &mut Vec<u8>, bytes: &[u8]) -> Result<(), NoMemory>
    ensures ok { OnOk result (out.new.items ≡ out.old.items ++ bytes.now) }
    ensures err { OnErr result (out.new.items ≡ out.old.items) }
{
    out.extend_from_slice(bytes)
}

/// Writes a string literal of bytes that are spelled already, behind its Huffman bit.
fn put_spelled(out: &mut Vec<u8>, bit: u8, bytes: &[u8]) -> Result<(), NoMemory>
    requires { bit ≤ 128 }
    ensures ok { OnOk result (out.new.items ≡ out.old.items ++ (integer_of 7 bit (length bytes.now) ++ bytes.now)) }
    ensures grows { IsFrontOf out.old.items out.new.items }
    ensures err { OnErr result (IsFrontOf out.new.items (out.old.items ++ (integer_of 7 bit (length bytes.now) ++ bytes.now))) }
{
    put_integer(out, 7, bit, bytes.len() as u64)?;
    put_bytes(out, bytes)
}

/// Writes a string literal (RFC 7541 section 5.2).
#[tactic(auto, unfolding(crate::specs::Encoding::string_of))]
fn put_string(
    alloc: Global,
    out: &mut Vec<u8>,
    spelling: Spelling,
    text: &[u8],
) -> Result<(), NoMemory>
    ensures ok { OnOk result (out.new.items ≡ out.old.items ++ string_of spelling text.now) }
    ensures grows { IsFrontOf out.old.items out.new.items }
    ensures err { OnErr result (IsFrontOf out.new.items (out.old.items ++ string_of spelling text.now)) }
{
    match spelling {
        Spelling::Plain => put_spelled(out, 0, text),
        Spelling::Huffman => {
            let mut coded = Vec::new(alloc);
            huffman_put(alloc, text, &mut coded)?;
            put_spelled(out, 128, coded.as_slice())
        }
    }
}

/// Whether the header at this place of the static table has this name. Most names aren't even of its length.
fn has_name(name: &[u8], place: u8) -> bool
    requires { place < 61 }
    ensures { result ≡ bytes_eq (static_at place).name name.now }
{
    if name.len() != usize::from(NAME_LENGTHS[usize::from(place)]) {
        return false;
    }
    let (there, _) = static_header(usize::from(place));
    there == name
}

/// Whether the header at this place of the static table has this value.
fn has_value(value: &[u8], place: u8) -> bool
    requires { place < 61 }
    ensures { result ≡ bytes_eq (static_at place).value value.now }
{
    let (_, there) = static_header(usize::from(place));
    there == value
}

/// Whether the header at this place of the static table has this name and this value.
fn has_header(name: &[u8], value: &[u8], place: u8) -> bool
    requires { place < 61 }
    ensures { result ≡ (bytes_eq (static_at place).name name.now && bytes_eq (static_at place).value value.now) }
{
    has_name(name, place) && has_value(value, place)
}

/// The index of the first header of the static table with this name, where there is one.
fn index_of_name(h: &Header) -> Option<u8>
    ensures { result ≡ index_from (same_name h.now) 1 static_headers }
{
    let name = h.name.as_slice();
    for place in 0..61u8 {
        if has_name(name, place) {
            return Some(place + 1);
        }
    }
    None
}

/// The index of a header in the static table, where it is there.
fn index_of_header(h: &Header) -> Option<u8>
    ensures { result ≡ index_from (same_header h.now) 1 static_headers }
{
    let name = h.name.as_slice();
    let value = h.value.as_slice();
    for place in 0..61u8 {
        if has_header(name, value, place) {
            return Some(place + 1);
        }
    }
    None
}

/// Writes a literal without indexing (RFC 7541 section 6.2.2).
fn put_literal(
    alloc: Global,
    out: &mut Vec<u8>,
    spelling: Spelling,
    h: &Header,
) -> Result<(), NoMemory>
    ensures ok { OnOk result (out.new.items ≡ out.old.items ++ literal_of (index_from (same_name h.now) 1 static_headers) spelling h.now) }
    ensures grows { IsFrontOf out.old.items out.new.items }
    ensures err { OnErr result (IsFrontOf out.new.items
        (out.old.items ++ literal_of (index_from (same_name h.now) 1 static_headers) spelling h.now)) }
{
    match index_of_name(h) {
        Some(index) => {
            put_integer(out, 4, 0, u64::from(index))?;
            put_string(alloc, out, spelling, h.value.as_slice())
        }
        None => {
            out.push(0)?;
            put_string(alloc, out, spelling, h.name.as_slice())?;
            put_string(alloc, out, spelling, h.value.as_slice())
        }
    }
}

/// Writes the representation of a header.
#[tactic(auto, unfolding(crate::specs::Encoding::header_of))]
fn put_header(
    alloc: Global,
    out: &mut Vec<u8>,
    spelling: Spelling,
    h: &Header,
) -> Result<(), NoMemory>
    ensures ok { OnOk result (out.new.items ≡ out.old.items ++ header_of spelling h.now) }
    ensures grows { IsFrontOf out.old.items out.new.items }
    ensures err { OnErr result (IsFrontOf out.new.items (out.old.items ++ header_of spelling h.now)) }
{
    match index_of_header(h) {
        Some(index) => put_integer(out, 7, 128, u64::from(index)),
        None => put_literal(alloc, out, spelling, h),
    }
}

/// Writes the size update to 0 in front of the first block (RFC 7541 section 6.3).
fn put_opening(out: &mut Vec<u8>, started: bool) -> Result<(), NoMemory>
    ensures ok { OnOk result (out.new.items ≡ out.old.items ++ opening started) }
    ensures err { OnErr result (out.new.items ≡ out.old.items) }
{
    if !started {
        out.push(0x20)?;
    }
    Ok(())
}

/// Writes the representations of headers.
fn put_headers(
    alloc: Global,
    out: &mut Vec<u8>,
    spelling: Spelling,
    headers: &[Header],
) -> Result<(), NoMemory>
    ensures ok { OnOk result (out.new.items ≡ out.old.items ++ flat_map (header_of spelling) headers.now) }
    ensures grows { IsFrontOf out.old.items out.new.items }
    ensures err { OnErr result (IsFrontOf out.new.items (out.old.items ++ flat_map (header_of spelling) headers.now)) }
{
    for h in headers {
        put_header(alloc, out, spelling, h)?;
    }
    Ok(())
}

/// The representation of a status, and how many bytes it has.
#[tactic(auto, unfolding(crate::specs::Encoding::status_of))]
fn status_bytes(status: u16) -> ([u8; 5], usize)
    requires low { 100 ≤ status }
    requires high { status < 1000 }
    ensures bytes { take result.1 result.0 ≡ status_of status }
    ensures length { result.1 ≤ 5 }
{
    let digits = [
        8,
        3,
        48 + (status / 100) as u8,
        48 + (status / 10 % 10) as u8,
        48 + (status % 10) as u8,
    ];
    match status {
        200 => ([136, 0, 0, 0, 0], 1),
        204 => ([137, 0, 0, 0, 0], 1),
        206 => ([138, 0, 0, 0, 0], 1),
        304 => ([139, 0, 0, 0, 0], 1),
        400 => ([140, 0, 0, 0, 0], 1),
        404 => ([141, 0, 0, 0, 0], 1),
        500 => ([142, 0, 0, 0, 0], 1),
        _ => (digits, 5),
    }
}

/// Writes bytes from a place on.
fn put_at(into: &mut [u8], start: usize, bytes: &[u8])
    requires { start + length bytes.now ≤ length into.old }
    ensures { into.new ≡ take start into.old ++ (bytes.now ++ drop (start + length bytes.now) into.old) }
{
    into[start..start + bytes.len()].copy_from_slice(bytes);
}

/// Writes the block of a status. Gives its length.
fn put_status(started: bool, status: u16, into: &mut [u8]) -> usize
    requires low { 100 ≤ status }
    requires high { status < 1000 }
    requires room { 8 ≤ length into.old }
    ensures block { take result into.new ≡ opening started ++ status_of status }
    ensures rest { drop result into.new ≡ drop result into.old }
{
    let (bytes, length) = status_bytes(status);
    if started {
        put_at(into, 0, &bytes[..length]);
        return length;
    }
    into[0] = 0x20;
    put_at(into, 1, &bytes[..length]);
    1 + length
}

/// Writes header blocks for one decoder, one after another. After NoMemory it isn't used again. Contracts see how
/// it spells, and whether it has written a block.
#[derive(Drop)]
pub struct Encoder {
    spelling: Spelling,
    started: bool,
}

impl Model for Encoder {
    ghost use Rattle.hb_hpack.specs.Encoding.{Writing};

    ghost Value = { Writing };

    ghost view = { λ e. record { spelling = e.spelling; started = e.started } };
}

impl Encoder {
    /// An encoder that has written no block.
    pub fn new(spelling: Spelling) -> Encoder
        ensures { result ≡ record { spelling = spelling; started = false } }
    {
        Encoder {
            spelling,
            started: false,
        }
    }

    /// Writes the block of the headers, in which none enters the table (RFC 7541 section 6).
    ///
    /// Errors: `NoMemory`, and then the old bytes stand in `out`, and a front of the block.
    pub fn block(
        &mut self,
        alloc: Global,
        headers: &List<Header>,
        out: &mut Vec<u8>,
    ) -> Result<(), NoMemory>
        ensures ok { OnOk result (out.new.items ≡ out.old.items ++ block_of self.old headers.now) }
        ensures goes_on { OnOk result (self.new ≡ going self.old) }
        ensures spelling { self.new.spelling ≡ self.old.spelling }
        // The block stands for the headers, from each table that a decoder may have.
        ensures read { (table : Table) → AreWritable self.old.spelling headers.now → MayHave self.old.started table
            → Reads table (block_of self.old headers.now) headers.now cleared }
        ensures grows { IsFrontOf out.old.items out.new.items }
        ensures err { OnErr result (IsFrontOf out.new.items (out.old.items ++ block_of self.old headers.now)) }
    {
        put_opening(out, self.started)?;
        self.started = true;
        put_headers(alloc, out, self.spelling, headers.as_slice())
    }

    /// Writes the block of the header `:status` alone at the front of `into`, its value always plain. Gives the
    /// block's length; the bytes behind it stay.
    pub fn put_status_block(&mut self, status: u16, into: &mut [u8]) -> usize
        requires low { 100 ≤ status }
        requires high { status < 1000 }
        requires room { 8 ≤ length into.old }
        ensures block { take result into.new ≡ opening self.old.started ++ header_of Spelling.Plain (status_header status) }
        ensures rest { drop result into.new ≡ drop result into.old }
        ensures goes_on { self.new ≡ going self.old }
        // The block stands for the header, from each table that a decoder may have.
        ensures read { (table : Table) → MayHave self.old.started table
            → Reads table (take result into.new) (status_header status ∷ []) cleared }
    {
        let started = self.started;
        self.started = true;
        put_status(started, status, into)
    }
}
