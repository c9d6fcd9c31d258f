//! The lines of a made script.

ghost use Rattle.std.specs.Prelude.{◌≡◌, ◌≤◌, ◌+◌, ◌++◌, ◌∷◌, [], length, codes, IfOk, OnOk};
ghost use Rattle.hb_frames.specs.Numbers.{first_frame_size};
ghost use Rattle.hb_base.specs.declared.door.Door.TheVariants.{Inbound};
ghost use Rattle.hb_world.specs.declared.line.Line.TheVariants.{Accept, Open, Piece, Wake};
ghost use Rattle.hb_make.specs.Made.{base, opening, tunnel, tunnels, update, made};
ghost use Rattle.hb_make.specs.Octets.{data_frame, marks};

use crate::octets::{
    answered, changed_policies, client, policies, request_8080, request_9090, workloads,
};
use hb_base::{Bytes, Door, List, NoMemory};
use hb_frames::Output;
use hb_frames::numbers::DATA;
use hb_world::Line;
use std::alloc::Global;

fn piece(alloc: Global, link: u64, octets: &[u8]) -> Result<Line, NoMemory>
    ensures { IfOk result (λ line. line ≡ Piece link octets.now) }
{
    let bytes = Bytes::of(alloc, octets)?;
    Ok(Line::Piece { link, bytes })
}

/// A piece that is a DATA frame of stream 1.
#[tactic(auto, unfolding(crate::specs::Octets::data_frame))]
fn data_piece(alloc: Global, link: u64, content: &[u8]) -> Result<Line, NoMemory>
    requires { length content.now ≤ first_frame_size }
    ensures { IfOk result (λ line. line ≡ Piece link (data_frame content.now)) }
{
    let mut frame = Output::new(alloc, content.len() + 9)?;
    frame.put_frame(DATA, 0, 1, content);
    piece(alloc, link, frame.front())
}

/// The piece that tunnel `i` begins with.
#[tactic(auto, unfolding(crate::specs::Made::opening))]
fn opening(alloc: Global, link: u64, i: u64) -> Result<Line, NoMemory>
    ensures { IfOk result (λ line. line ≡ Piece link (opening i)) }
{
    let mut octets = Vec::from_slice(alloc, client())?;
    octets.extend_from_slice(if i % 2 == 1 {
        request_8080()
    } else {
        request_9090()
    })?;
    Ok(Line::Piece {
        link,
        bytes: Bytes::from_vec(octets),
    })
}

/// Adds a line, and the end of a wait behind it.
fn add(lines: &mut List<Line>, line: Line) -> Result<(), NoMemory>
    ensures { OnOk result (lines.new ≡ lines.old ++ line ∷ Wake ∷ []) }
{
    lines.push(line)?;
    lines.push(Line::Wake)
}

fn add_base(alloc: Global, lines: &mut List<Line>) -> Result<(), NoMemory>
    ensures { OnOk result (lines.new ≡ lines.old ++ base) }
{
    add(lines, Line::Open(1))?;
    add(lines, piece(alloc, 1, answered())?)?;
    add(lines, data_piece(alloc, 1, workloads())?)?;
    add(lines, data_piece(alloc, 1, policies())?)
}

/// The piece of so many octets `a`, in a DATA frame of stream 1.
fn marks(alloc: Global, link: u64, n: u32) -> Result<Line, NoMemory>
    requires { n ≤ first_frame_size }
    ensures { IfOk result (λ line. line ≡ Piece link (data_frame (marks n))) }
{
    let content = vec![in alloc; b'a'; n as usize]?;
    data_piece(alloc, link, content.as_slice())
}

/// Adds the lines by which tunnel `i` is asked for on this link.
fn add_request(alloc: Global, lines: &mut List<Line>, link: u64, i: u64) -> Result<(), NoMemory>
    ensures { OnOk result (lines.new ≡ lines.old ++ Accept Inbound ∷ Piece link (opening i) ∷ Wake ∷ []) }
{
    lines.push(Line::Accept(Door::Inbound))?;
    add(lines, opening(alloc, link, i)?)
}

/// Adds the lines by which octets go up a tunnel whose upstream opens, so many of them, and three come down.
fn add_use(
    alloc: Global,
    lines: &mut List<Line>,
    link: u64,
    upstream: u64,
    n: u32,
) -> Result<(), NoMemory>
    requires { n ≤ first_frame_size }
    ensures { OnOk result (lines.new ≡ lines.old ++ Open upstream ∷ Wake ∷ Piece link (data_frame (marks n)) ∷ Wake
        ∷ Piece upstream (codes "abc") ∷ Wake ∷ []) }
{
    add(lines, Line::Open(upstream))?;
    add(lines, marks(alloc, link, n)?)?;
    add(lines, piece(alloc, upstream, b"abc")?)
}

/// Adds the lines of tunnel `i`.
fn add_tunnel(alloc: Global, lines: &mut List<Line>, i: u32) -> Result<(), NoMemory>
    requires { i ≤ first_frame_size }
    ensures { OnOk result (lines.new ≡ lines.old ++ tunnel i) }
{
    let link = 2 * i as u64;
    add_request(alloc, lines, link, i as u64)?;
    add_use(alloc, lines, link, link + 1, i)
}

/// Adds the lines of tunnels 1 to n.
fn add_tunnels(alloc: Global, lines: &mut List<Line>, n: u32) -> Result<(), NoMemory>
    requires { n ≤ first_frame_size }
    ensures { OnOk result (lines.new ≡ lines.old ++ tunnels n) }
{
    for i in 0..n {
        add_tunnel(alloc, lines, i + 1)?;
    }
    Ok(())
}

/// The lines of the script of n tunnels. As one DATA frame of tunnel n has n octets, there are at most as many tunnels as any
/// peer takes octets in a frame, 16,384 (RFC 9113 section 4.2).
///
/// Errors: `NoMemory`.
pub fn lines_made(alloc: Global, n: u32) -> Result<List<Line>, NoMemory>
    requires { n ≤ first_frame_size }
    ensures { IfOk result (λ lines. lines ≡ made n) }
{
    let mut lines = List::new(alloc);
    add_base(alloc, &mut lines)?;
    add_tunnels(alloc, &mut lines, n)?;
    add(&mut lines, data_piece(alloc, 1, changed_policies())?)?;
    Ok(lines)
}
