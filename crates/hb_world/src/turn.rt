//! The lines of a script that one wait applies.

ghost use Rattle.std.specs.Prelude.{◌≡◌, ◌<◌, ◌≤◌, ◌++◌, ◌∷◌, [], ℕ, true, length, take, drop, if◌then◌else◌, IfOk};
ghost use Rattle.std.specs.List.{fold, list_any};
ghost use Rattle.hb_base.specs.declared.door.Door.{Door};
ghost use Rattle.hb_world.specs.DoorState.{door_at};
ghost use Rattle.hb_world.specs.LinkState.{LinkState, state_with, IsNext};
ghost use Rattle.hb_world.specs.LinkStates.{state_at, is_named};
ghost use Rattle.hb_world.specs.Script.{woken_by, link_of, is_of, turn_of, turn_ends, pieces_on, link_with, failing_with, waiting_with};

use crate::doors::{Doors, ScriptDoor};
use crate::line::Line;
use crate::links::Links;

/// How a wait of a script's world ends.
#[derive(Clone, Copy)]
pub enum Ending {
    Woke,
    Tick,
    Stop,
    Failed,
}

/// How the wait ends that this line ends. `None` where the line ends no wait.
pub fn woken(line: &Line) -> Option<Ending>
    ensures { result ≡ woken_by line.now }
{
    match line {
        Line::Wake => Some(Ending::Woke),
        Line::Tick => Some(Ending::Tick),
        Line::Stop => Some(Ending::Stop),
        Line::FaultWait => Some(Ending::Failed),
        Line::Accept(_)
        | Line::Open(_)
        | Line::Refuse(_)
        | Line::Piece { .. }
        | Line::End(_)
        | Line::Break(_)
        | Line::Room { .. }
        | Line::NoDial(_)
        | Line::FaultListen => None,
    }
}

/// The link that a line names. `None` where it names none.
pub fn named_link(line: &Line) -> Option<u64>
    ensures { result ≡ link_of line.now }
{
    match line {
        Line::Open(link)
        | Line::Refuse(link)
        | Line::Piece { link, .. }
        | Line::End(link)
        | Line::Break(link)
        | Line::Room { link, .. } => Some(*link),
        Line::Accept(_)
        | Line::NoDial(_)
        | Line::Wake
        | Line::Tick
        | Line::Stop
        | Line::FaultWait
        | Line::FaultListen => None,
    }
}

/// How many lines the next wait applies.
pub fn turn_len(lines: &[Line]) -> usize
    ensures { result ≡ length (turn_of lines.now) }
{
    let mut passed = 0;
    for line in lines {
        passed += 1;
        if woken(line).is_some() {
            return passed;
        }
    }
    passed
}

/// How the next wait ends.
pub fn turn_end(lines: &[Line]) -> Ending
    ensures { result ≡ turn_ends lines.now }
{
    for line in lines {
        if let Some(woken) = woken(line) {
            return woken;
        }
    }
    Ending::Stop
}

/// A line is applied to what is kept of the doors.
pub fn apply_to_doors(line: &Line, doors: &mut Doors<ScriptDoor>)
    ensures listening { (d : Door) → (door_at doors.new d).listening ≡ (door_at doors.old d).listening }
    ensures waiting { (d : Door) → (door_at doors.new d).waiting ≡ waiting_with (door_at doors.old d).listening d
        (door_at doors.old d).waiting line.now }
{
    let Line::Accept(door) = line else {
        return;
    };
    let at_door = doors.at(*door);
    if at_door.listening {
        let one_more = ScriptDoor {
            listening: true,
            waiting: at_door.waiting.saturating_add(1),
        };
        doors.set(*door, one_more);
    }
}

/// How many of the next dials fail, once a line is applied.
pub fn failing_after_line(line: &Line, failing: u64) -> u64
    ensures { result ≡ failing_with failing line.now }
{
    match line {
        Line::NoDial(dials) => failing.max(*dials),
        _ => failing,
    }
}

/// A line is applied to what is kept of the links.
pub fn apply_to_links(line: &Line, links: &mut Links)
    requires named { (l : ℕ) → is_of l line.now ≡ true → is_named links.old l ≡ true }
    requires next { (l : ℕ) → is_of l line.now ≡ true → IsNext (state_at links.old l).coming line.now }
    ensures states { (l : ℕ) → state_at links.new l ≡ (if is_of l line.now then state_with
        (state_at links.old l) line.now else state_at links.old l) }
    ensures names { (l : ℕ) → is_named links.new l ≡ is_named links.old l }
{
    if let Some(link) = named_link(line) {
        links.apply(link, line);
    }
}

/// The first lines, so many, are applied to what is kept of the links.
pub fn turn_to_links(lines: &[Line], count: usize, links: &mut Links)
    requires count { count ≤ length lines.now }
    requires named { (l : ℕ) → list_any (is_of l) lines.now ≡ true → is_named links.old l ≡ true }
    requires coming { (l : ℕ) → (state_at links.old l).coming ≡ pieces_on l lines.now }
    ensures states { (l : ℕ) → state_at links.new l ≡ record {
      said = fold (link_with l) (state_at links.old l).said (take count lines.now);
      coming = pieces_on l (drop count lines.now);
    } }
    ensures names { (l : ℕ) → is_named links.new l ≡ is_named links.old l }
{
    for i in 0..count {
        apply_to_links(&lines[i], links);
    }
}

/// Lines are applied to what is kept of the doors.
pub fn turn_to_doors(turn: &[Line], doors: &mut Doors<ScriptDoor>)
    ensures listening { (d : Door) → (door_at doors.new d).listening ≡ (door_at doors.old d).listening }
    ensures waiting { (d : Door) → (door_at doors.new d).waiting
        ≡ fold (waiting_with (door_at doors.old d).listening d) (door_at doors.old d).waiting turn.now }
{
    for line in turn {
        apply_to_doors(line, doors);
    }
}

/// How many of the next dials fail, once lines are applied.
pub fn failing_after_turn(turn: &[Line], failing: u64) -> u64
    ensures { result ≡ fold failing_with failing turn.now }
{
    let mut now = failing;
    for line in turn {
        now = failing_after_line(line, now);
    }
    now
}
