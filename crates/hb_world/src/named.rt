//! What the lines of a turn name.

ghost use Rattle.std.specs.Prelude.{◌≡◌, [], IfOk, OnOk};
ghost use Rattle.hb_base.specs.declared.door.Door.{Door};
ghost use Rattle.hb_world.specs.DoorState.{door_at};
ghost use Rattle.hb_world.specs.Script.{named_by, may_be_ready, with_item, with_named, ready_in};
ghost use Rattle.hb_world.specs.Trace.{listens};

use crate::doors::{Doors, ScriptDoor};
use crate::entry::ReadyItem;
use crate::line::Line;
use crate::trace::Trace;
use crate::turn::named_link;
use hb_base::{Door, NoMemory};
use std::alloc::Global;
use std::collections::BTreeSet;
use std::marker::Model;

/// Items in order, each once. Contracts see their list.
#[derive(Drop)]
struct Named {
    items: Vec<ReadyItem>,
    links: BTreeSet<u64>,
    doors: Doors<bool>,
}

impl Model for Named {
    ghost use Rattle.std.specs.Prelude.{◌≡◌, ℕ, List};
    ghost use Rattle.std.specs.BTreeSet.{contains};
    ghost use Rattle.std.specs.List.{list_any};
    ghost use Rattle.std.specs.Ordering.{nat_cmp};
    ghost use Rattle.hb_base.specs.declared.door.Door.{Door as door};
    ghost use Rattle.hb_world.specs.DoorState.{door_at};
    ghost use Rattle.hb_world.specs.Script.{same_item};
    ghost use Rattle.hb_world.specs.declared.entry.ReadyItem.{ReadyItem};
    ghost use Rattle.hb_world.specs.declared.entry.ReadyItem.TheVariants.{Door, Link};

    ghost Value = { List ReadyItem };

    ghost view = { λ n. n.items.items };

    ghost invariant = { λ n. ((l : ℕ) → contains nat_cmp n.links l ≡ list_any (same_item (Link l)) n.items.items)
        × ((d : door) → door_at n.doors d ≡ list_any (same_item (Door d)) n.items.items) };
}

impl Named {
    fn new(alloc: Global) -> Named
        ensures { result ≡ [] }
    {
        Named {
            items: Vec::new(alloc),
            links: BTreeSet::new(alloc),
            doors: Doors::new(false),
        }
    }

    /// Adds an item behind the others, unless it is among them.
    fn add(&mut self, item: ReadyItem) -> Result<(), NoMemory>
        ensures { OnOk result (self.new ≡ with_item self.old item) }
    {
        match item {
            ReadyItem::Link(link) => self.add_link(link),
            ReadyItem::Door(door) => self.add_door(door),
        }
    }

    /// Adds what a line names, if it may be ready.
    fn add_line(
        &mut self,
        line: &Line,
        trace: &Trace,
        doors: &Doors<ScriptDoor>,
    ) -> Result<(), NoMemory>
        requires { (d : Door) → (door_at doors.now d).listening ≡ listens d trace.now }
        ensures { OnOk result (self.new ≡ with_named trace.now self.old (named_by line.now)) }
    {
        match named_item(line) {
            Some(item) if is_ready(item, trace, doors) => self.add(item),
            _ => Ok(()),
        }
    }

    fn add_link(&mut self, link: u64) -> Result<(), NoMemory>
        ensures { OnOk result (self.new ≡ with_item self.old (ReadyItem.Link link)) }
    {
        if self.links.contains(&link) {
            return Ok(());
        }
        self.items.reserve(1)?;
        self.links.insert(link)?;
        match self.items.push(ReadyItem::Link(link)) {
            Ok(()) => Ok(()),
            Err(_) => unreachable!(),
        }
    }

    fn add_door(&mut self, door: Door) -> Result<(), NoMemory>
        ensures { OnOk result (self.new ≡ with_item self.old (ReadyItem.Door door)) }
    {
        if self.doors.at(door) {
            return Ok(());
        }
        self.items.push(ReadyItem::Door(door))?;
        self.doors.set(door, true);
        Ok(())
    }

    fn into_items(self) -> Vec<ReadyItem>
        ensures { result.items ≡ self }
    {
        let Named { items, .. } = self;
        items
    }
}

/// The door or link that a line names.
fn named_item(line: &Line) -> Option<ReadyItem>
    ensures { result ≡ named_by line.now }
{
    if let Line::Accept(door) = line {
        return Some(ReadyItem::Door(*door));
    }
    Some(ReadyItem::Link(named_link(line)?))
}

/// Whether it is a listening door or a link that lives.
fn is_ready(item: ReadyItem, trace: &Trace, doors: &Doors<ScriptDoor>) -> bool
    requires { (d : Door) → (door_at doors.now d).listening ≡ listens d trace.now }
    ensures { result ≡ may_be_ready trace.now item }
{
    match item {
        ReadyItem::Door(door) => doors.at(door).listening,
        ReadyItem::Link(link) => trace.lives(link),
    }
}

/// The listening doors and living links that lines name, in order, each once.
///
/// Errors: `NoMemory`.
pub fn ready_items(
    alloc: Global,
    lines: &[Line],
    trace: &Trace,
    doors: &Doors<ScriptDoor>,
) -> Result<Vec<ReadyItem>, NoMemory>
    requires { (d : Door) → (door_at doors.now d).listening ≡ listens d trace.now }
    ensures { IfOk result (λ items. items.items ≡ ready_in lines.now trace.now) }
{
    let mut named = Named::new(alloc);
    for line in lines {
        named.add_line(line, trace, doors)?;
    }
    Ok(named.into_items())
}
