//! A script's line as text.

ghost use Rattle.std.specs.Prelude.{◌≡◌, ◌++◌, string_bytes, IfOk, OnOk, OnErr};
ghost use Rattle.hb_world.specs.declared.line.Line.TheVariants.{Piece, Room};
ghost use Rattle.hb_script.specs.Spelling.{door_word, line_text};

use hb_base::{Bytes, Door, NoMemory};
use hb_world::Line;
use std::alloc::Global;

/// The word of a door.
pub fn door_word(door: Door) -> &'static str
    ensures { result.now ≡ door_word door }
{
    match door {
        Door::Inbound => "inbound",
        Door::Outbound => "outbound",
        Door::Plain => "plain",
    }
}

fn piece_text(alloc: Global, link: u64, bytes: &Bytes) -> Result<String, NoMemory>
    ensures { IfOk result (λ text. string_bytes text ≡ line_text (Piece link bytes.now)) }
{
    let digits = hex::encode(alloc, bytes.as_slice())?;
    format!(in alloc; "{{\"bytes\":\"{digits}\",\"link\":{link}}}")
}

fn room_text(alloc: Global, link: u64, room: u64) -> Result<String, NoMemory>
    ensures { IfOk result (λ text. string_bytes text ≡ line_text (Room link room)) }
{
    format!(in alloc; "{{\"link\":{link},\"room\":{room}}}")
}

fn line_text(alloc: Global, line: &Line) -> Result<String, NoMemory>
    ensures { IfOk result (λ text. string_bytes text ≡ line_text line.now) }
{
    match line {
        Line::Accept(door) => {
            let word = door_word(*door);
            format!(in alloc; "{{\"accept\":\"{word}\"}}")
        }
        Line::Open(link) => format!(in alloc; "{{\"open\":{link}}}"),
        Line::Refuse(link) => format!(in alloc; "{{\"refuse\":{link}}}"),
        Line::Piece { link, bytes } => piece_text(alloc, *link, bytes),
        Line::End(link) => format!(in alloc; "{{\"end\":{link}}}"),
        Line::Break(link) => format!(in alloc; "{{\"break\":{link}}}"),
        Line::Room { link, room } => room_text(alloc, *link, *room),
        Line::NoDial(dials) => format!(in alloc; "{{\"nodial\":{dials}}}"),
        Line::Wake => String::from_str(alloc, "{\"wake\":true}"),
        Line::Tick => String::from_str(alloc, "{\"tick\":true}"),
        Line::Stop => String::from_str(alloc, "{\"stop\":true}"),
        Line::FaultWait => String::from_str(alloc, "{\"fault\":\"wait\"}"),
        Line::FaultListen => String::from_str(alloc, "{\"fault\":\"listen\"}"),
    }
}

/// Appends the line's text, compact JSON (RFC 8259) without a newline.
///
/// Errors: `NoMemory`, and then nothing is appended.
pub fn put_line(alloc: Global, line: &Line, out: &mut Vec<u8>) -> Result<(), NoMemory>
    ensures ok { OnOk result (out.new.items ≡ out.old.items ++ line_text line.now) }
    ensures err { OnErr result (out.new.items ≡ out.old.items) }
{
    let text = line_text(alloc, line)?;
    out.extend_from_slice(text.as_bytes())
}
