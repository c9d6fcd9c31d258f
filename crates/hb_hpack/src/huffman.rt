//! Text in the Huffman code (RFC 7541 section 5.2).

ghost use Rattle.std.specs.Prelude.{◌≡◌, ℕ, ◌+◌, ◌-◌, ◌*◌, ◌%◌, ◌<◌, ◌^◌, ◌≤◌, ◌==◌, ◌&&◌, nat_lt, List, [], ◌∷◌, ◌++◌, Some, None, IfOk, IfSome, IsTrue, OnOk, OnErr, MatchOption, if◌then◌else◌};
ghost use Rattle.hb_hpack.specs.Huffman.{bits, word, Spells, IsPrefixFree, are_ones};
ghost use Rattle.hb_hpack.specs.HuffmanSteps.{text_of, with_ones, huffman_of};
ghost use Rattle.hb_hpack.specs.Partial.{IsInFront, HasNoWord, read_on, written_on};
ghost use Rattle.hb_hpack.specs.Fronts.{IsFrontOf};

use crate::code_table::{END, LONGEST, code_at, row_at, short_at, symbol_at};
use crate::partial::{Found, Held, Unfinished};
use hb_base::{Bytes, NoMemory};
use std::alloc::Global;

/// The word in front, where it has at most eight bits.
fn short_word(held: Held) -> Option<Found>
    requires { 8 ≤ held.count }
    ensures front { IfSome result (λ found. IsInFront held found) }
    ensures octet { IfSome result (λ found. found.symbol < 256) }
{
    let found = short_at(((held.bits >> (held.count - 8)) % 256) as u8);
    if found.length == 0 { None } else { Some(found) }
}

/// The word in front, where it is whole.
fn whole_word(held: Held) -> Option<Found>
    ensures { MatchOption result (HasNoWord held) (λ found. IsInFront held found) }
{
    let number = held.number();
    for length in 1..LONGEST + 1 {
        if held.count < length {
            return None;
        }
        let code = (number >> (held.count - length)) as u32;
        let row = row_at(length);
        if code < row.limit {
            let symbol = symbol_at(usize::from(row.place) + (code - row.first) as usize);
            return Some(Found { symbol, length });
        }
    }
    None
}

/// Takes the words of at most eight bits in front, as long as there are eight bits.
fn take_short(text: &mut Vec<u8>, held: Held) -> Result<Held, NoMemory>
    ensures read { IfOk result (λ left. (rest : List ℕ)
        → read_on text.new.items (Some left) rest ≡ read_on text.old.items (Some held) rest) }
    ensures fewer { IfOk result (λ left. left.count ≤ held.count) }
{
    let mut held = held;
    while held.count >= 8 {
        let Some(found) = short_word(held) else {
            return Ok(held);
        };
        text.push(found.symbol as u8)?;
        held = held.behind(found.length);
    }
    Ok(held)
}

/// Takes the word in front as a symbol of the text. None where it is EOS, and no text is read.
fn take_word(text: &mut Vec<u8>, held: Held, found: Found) -> Result<Option<Held>, NoMemory>
    requires { IsInFront held found }
    ensures read { IfOk result (λ r. (rest : List ℕ) → read_on text.new.items r rest ≡ read_on text.old.items (Some held) rest) }
    ensures fewer { IfOk result (λ r. IfSome r (λ left. left.count < held.count)) }
{
    if found.symbol == END {
        return Ok(None);
    }
    text.push(found.symbol as u8)?;
    Ok(Some(held.behind(found.length)))
}

/// Takes the words in front. What is left are fewer than eight bits, or the front of a longer word.
fn take_words(text: &mut Vec<u8>, held: Held) -> Result<Option<Held>, NoMemory>
    ensures read { IfOk result (λ r. (rest : List ℕ) → read_on text.new.items r rest ≡ read_on text.old.items (Some held) rest) }
    ensures few { IfOk result (λ r. IfSome r (λ left. left.count < 30)) }
{
    let mut held = take_short(text, held)?;
    while held.count >= 8 {
        let Some(found) = whole_word(held) else {
            return Ok(Some(held));
        };
        let Some(left) = take_word(text, held, found)? else {
            return Ok(None);
        };
        held = take_short(text, left)?;
    }
    Ok(Some(held))
}

/// Takes a byte more. The words wait until there are 56 bits, so that the loops that take them are long.
fn take_byte(text: &mut Vec<u8>, held: Held, byte: u8) -> Result<Option<Held>, NoMemory>
    requires { held.count < 56 }
    ensures read { IfOk result (λ r. (rest : List ℕ)
        → read_on text.new.items r rest ≡ read_on text.old.items (Some held) (bits 8 byte ++ rest)) }
    ensures few { IfOk result (λ r. IfSome r (λ left. left.count < 56)) }
{
    let held = held.with(byte);
    if held.count < 56 {
        return Ok(Some(held));
    }
    take_words(text, held)
}

/// Whether these bits may end a text: at most seven, all ones.
fn is_padding(held: Held) -> bool
    ensures { result ≡ (nat_lt held.count 8 && (held.bits % 2 ^ held.count + 1 == 2 ^ held.count)) }
{
    held.count < 8 && held.number() + 1 == 1 << held.count
}

/// Takes the words that are left, and says whether the bits behind them may end a text.
fn take_last(text: &mut Vec<u8>, held: Held) -> Result<bool, NoMemory>
    ensures { IfOk result (λ ends. (if ends then Some text.new.items else None) ≡ read_on text.old.items (Some held) []) }
{
    let mut held = held;
    while let Some(found) = whole_word(held) {
        match take_word(text, held, found)? {
            None => return Ok(false),
            Some(left) => held = left,
        }
    }
    Ok(is_padding(held))
}

fn text_of(alloc: Global, b: &[u8]) -> Result<Option<Bytes>, NoMemory>
    ensures { IfOk result (λ r. r ≡ text_of b.now) }
{
    // A word has five bits at least.
    let mut text = Vec::with_capacity(alloc, b.len() / 5 * 8 + 8)?;
    let mut held = Held::new();
    for byte in b {
        match take_byte(&mut text, held, *byte)? {
            None => return Ok(None),
            Some(left) => held = left,
        }
    }
    let Some(held) = take_words(&mut text, held)? else {
        return Ok(None);
    };
    if take_last(&mut text, held)? {
        text.shrink_to_fit();
        Ok(Some(Bytes::from_vec(text)))
    } else {
        Ok(None)
    }
}

/// The text that the bytes spell (RFC 7541 section 5.2). `None` exactly where they spell none: the padding has more
/// than seven bits or isn't all ones, or there is a whole EOS.
///
/// Errors: `NoMemory`.
#[inline(never)]
pub fn huffman_read(alloc: Global, b: &[u8]) -> Result<Option<Bytes>, NoMemory>
    // What is read is spelled so.
    ensures found { IfOk result (λ r. IfSome r (λ text. Spells b.now text)) }
    // What is spelled so is read, and no other text is.
    ensures only { IfOk result (λ r. (text : List ℕ) → Spells b.now text → r ≡ Some text) }
    ensures exact { IfOk result (λ r. r ≡ text_of b.now) }
    // So no word of the code is a front of another, and the end of a string is all ones.
    ensures apart { IsPrefixFree }
    ensures last { IsTrue (are_ones (word 256)) }
{
    text_of(alloc, b)
}

/// Writes one bit more.
fn put_bit(out: &mut Vec<u8>, at: Unfinished, bit: u8) -> Result<Unfinished, NoMemory>
    requires { bit < 2 }
    ensures written { IfOk result (λ next. (rest : List ℕ) →
        written_on out.new.items next rest ≡ written_on out.old.items at (bit ∷ rest)) }
    ensures grows { IsFrontOf out.old.items out.new.items }
    ensures err { OnErr result (out.new.items ≡ out.old.items) }
{
    let byte = 2 * at.byte + bit;
    if at.count == 7 {
        out.push(byte)?;
        return Ok(Unfinished::new());
    }
    Ok(Unfinished {
        byte,
        count: at.count + 1,
    })
}

/// Writes the low `left` bits of a word, the highest first.
fn put_bits(out: &mut Vec<u8>, at: Unfinished, word: u32, left: u8) -> Result<Unfinished, NoMemory>
    requires { left ≤ 30 }
    ensures written { IfOk result (λ next. (rest : List ℕ) →
        written_on out.new.items next rest ≡ written_on out.old.items at (bits left word ++ rest)) }
    ensures grows { IsFrontOf out.old.items out.new.items }
    ensures err { OnErr result ((rest : List ℕ) → IsFrontOf out.new.items (written_on out.old.items at (bits left word ++ rest))) }
{
    if left == 0 {
        return Ok(at);
    }
    let next = put_bit(out, at, (word >> (left - 1) & 1) as u8)?;
    put_bits(out, next, word, left - 1)
}

/// The byte with ones behind its bits.
fn with_ones(at: Unfinished) -> u8
    ensures { result ≡ with_ones (8 - at.count) at.byte }
{
    let mut byte = at.byte;
    for _ in at.count..8 {
        byte = 2 * byte + 1;
    }
    byte
}

/// Writes the word of a symbol.
fn put_word(out: &mut Vec<u8>, at: Unfinished, symbol: u8) -> Result<Unfinished, NoMemory>
    ensures written { IfOk result (λ next. (rest : List ℕ) →
        written_on out.new.items next rest ≡ written_on out.old.items at (word symbol ++ rest)) }
    ensures grows { IsFrontOf out.old.items out.new.items }
    ensures err { OnErr result ((rest : List ℕ) → IsFrontOf out.new.items (written_on out.old.items at (word symbol ++ rest))) }
{
    let code = code_at(symbol);
    put_bits(out, at, code.bits, code.length)
}

/// Writes the last byte, where there is one.
fn finish(out: &mut Vec<u8>, at: Unfinished) -> Result<(), NoMemory>
    ensures ok { OnOk result (out.new.items ≡ written_on out.old.items at []) }
    ensures err { OnErr result (out.new.items ≡ out.old.items) }
{
    if at.count != 0 {
        out.push(with_ones(at))?;
    }
    Ok(())
}

fn put_text(b: &[u8], out: &mut Vec<u8>) -> Result<(), NoMemory>
    ensures ok { OnOk result (out.new.items ≡ out.old.items ++ huffman_of b.now) }
    ensures grows { IsFrontOf out.old.items out.new.items }
    ensures err { OnErr result (IsFrontOf out.new.items (out.old.items ++ huffman_of b.now)) }
{
    let mut at = Unfinished::new();
    for symbol in b {
        at = put_word(out, at, *symbol)?;
    }
    finish(out, at)
}

/// Writes the bytes that spell the text (RFC 7541 section 5.2).
///
/// Errors: `NoMemory`, and then the old bytes stand there, and a front of these.
pub fn huffman_put(_alloc: Global, b: &[u8], out: &mut Vec<u8>) -> Result<(), NoMemory>
    ensures ok { OnOk result (out.new.items ≡ out.old.items ++ huffman_of b.now) }
    // What is written spells the text, and is read as the text.
    ensures spelled { Spells (huffman_of b.now) b.now }
    ensures read { text_of (huffman_of b.now) ≡ Some b.now }
    ensures grows { IsFrontOf out.old.items out.new.items }
    ensures err { OnErr result (IsFrontOf out.new.items (out.old.items ++ huffman_of b.now)) }
{
    put_text(b, out)
}
