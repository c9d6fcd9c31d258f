//! What the world of a script keeps of all links.

ghost use Rattle.std.specs.Prelude.{◌≡◌, ◌<◌, ◌≤◌, ◌==◌, ℕ, true, false, [], ◌∷◌, ◌++◌, length, ◌||◌, if◌then◌else◌, OnOk, IfOk};
ghost use Rattle.std.specs.Option.{option_copied, is_some};
ghost use Rattle.hb_world.specs.LinkState.{IsNext, unnamed, state_with, front_of};
ghost use Rattle.hb_world.specs.LinkStates.{entry_at, state_at, is_named, expecting, awaiting, skipped, written};
ghost use Rattle.hb_world.specs.Script.{blank, is_of, pieces_by, pieces_on};
ghost use Rattle.std.specs.List.{list_any};

use crate::line::Line;
use crate::script_link::ScriptLink;
use crate::turn::named_link;
use hb_base::{Bytes, NoMemory};
use std::alloc::Global;
use std::collections::BTreeMap;

/// What lines say of each link that a line of the script names.
#[derive(Drop)]
pub struct Links {
    map: BTreeMap<u64, ScriptLink>,
}

impl Links {
    /// No line names a link.
    pub fn new(alloc: Global) -> Links
        ensures states { (l : ℕ) → state_at result l ≡ unnamed }
        ensures names { (l : ℕ) → is_named result l ≡ false }
    {
        Links {
            map: BTreeMap::new(alloc),
        }
    }

    /// What is kept of a link. `None` where no line names it.
    pub fn get(&self, link: u64) -> Option<&ScriptLink>
        ensures { option_copied result ≡ entry_at self.now link }
    {
        self.map.get(&link)
    }

    /// What a line to come will give the link that it names.
    ///
    /// Errors: `NoMemory`, and then what is kept of that link isn't said.
    pub fn expect(&mut self, alloc: Global, line: &Line) -> Result<(), NoMemory>
        ensures states { OnOk result ((l : ℕ) → state_at self.new l
            ≡ (if is_of l line.now then expecting (state_at self.old l) line.now else state_at self.old l)) }
        ensures names { OnOk result ((l : ℕ) → is_named self.new l ≡ (is_named self.old l || is_of l line.now)) }
    {
        let Some(link) = named_link(line) else {
            return Ok(());
        };
        self.name(alloc, link)?;
        match line {
            Line::Piece { bytes, .. } if !bytes.as_slice().is_empty() => {
                self.expect_piece(link, bytes.copy(alloc)?)
            }
            _ => Ok(()),
        }
    }

    /// A line names the link.
    fn name(&mut self, alloc: Global, link: u64) -> Result<(), NoMemory>
        ensures states { OnOk result ((l : ℕ) → state_at self.new l ≡ state_at self.old l) }
        ensures names { OnOk result ((l : ℕ) → is_named self.new l ≡ (is_named self.old l || link == l)) }
    {
        if self.map.contains_key(&link) {
            return Ok(());
        }
        self.map.insert(link, ScriptLink::new(alloc))?;
        Ok(())
    }

    /// One more piece of a line to come, for a link that is named.
    fn expect_piece(&mut self, link: u64, piece: Bytes) -> Result<(), NoMemory>
        requires some { 0 < length piece }
        requires named { is_named self.old link ≡ true }
        ensures states { OnOk result ((l : ℕ) → state_at self.new l
            ≡ (if link == l then awaiting piece (state_at self.old l) else state_at self.old l)) }
        ensures names { OnOk result ((l : ℕ) → is_named self.new l ≡ is_named self.old l) }
    {
        match self.map.get_mut(&link) {
            Some(slot) => slot.expect(piece),
            None => Ok(()),
        }
    }

    /// A line that names the link is applied.
    pub fn apply(&mut self, link: u64, line: &Line)
        requires named { is_named self.old link ≡ true }
        requires next { IsNext (state_at self.old link).coming line.now }
        ensures states { (l : ℕ) → state_at self.new l ≡ (if link == l then state_with
            (state_at self.old l) line.now else state_at self.old l) }
        ensures names { (l : ℕ) → is_named self.new l ≡ is_named self.old l }
    {
        if let Some(slot) = self.map.get_mut(&link) {
            slot.apply(line);
        }
    }

    /// So many bytes of the piece in front were read from the link.
    pub fn skip(&mut self, link: u64, n: usize)
        requires some { 0 < n }
        requires fits { n ≤ length (front_of (state_at self.old link).said.unread) }
        ensures states { (l : ℕ) → state_at self.new l ≡ (if link == l then skipped n (state_at self.old l) else state_at self.old l) }
        ensures names { (l : ℕ) → is_named self.new l ≡ is_named self.old l }
    {
        if let Some(slot) = self.map.get_mut(&link) {
            slot.skip(n);
        }
    }

    /// So many bytes were written to the link.
    pub fn use_room(&mut self, link: u64, n: usize)
        ensures states { (l : ℕ) → state_at self.new l ≡ (if link == l then written n (state_at self.old l) else state_at self.old l) }
        ensures names { (l : ℕ) → is_named self.new l ≡ is_named self.old l }
    {
        if let Some(slot) = self.map.get_mut(&link) {
            slot.use_room(n);
        }
    }
}

/// What the lines of a script will give the links that they name.
///
/// Errors: `NoMemory`.
pub fn links_of(alloc: Global, lines: &[Line]) -> Result<Links, NoMemory>
    ensures states { IfOk result (λ r. (l : ℕ) → state_at r l ≡ record { said = blank; coming = pieces_on l lines.now }) }
    ensures names { IfOk result (λ r. (l : ℕ) → is_named r l ≡ list_any (is_of l) lines.now) }
{
    let mut links = Links::new(alloc);
    for line in lines {
        links.expect(alloc, line)?;
    }
    Ok(links)
}
