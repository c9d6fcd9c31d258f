//! Rows of what a tunnel tells. A row has moves, and what is told after the last: the phase, and `s` where the upstream may
//! be shut, `e` where END_STREAM may be put and `d` where all is done.
//!
//! Moves are `o` its upstream opens; `u` a byte comes that goes up, `U` one is taken there, `x` the way up ends; `d`, `D` and
//! `y` the same of the way down.

use hb_tunnel::{Phase, Tunnel};
use std::process::Abort;

const ROWS: &str = "\
=Dialling---
u=Dialling---
x=Dialling---
y=Dialling---
xy=Dialling--d
uxy=Dialling---
uxyU=Dialling--d
o=Open---
ud=Dialling---
udo=Open---
ox=UpEnded s--
xo=UpEnded s--
oux=UpEnded ---
ouxU=UpEnded s--
oxd=UpEnded s--
oy=DownEnded -e-
yo=DownEnded -e-
ody=DownEnded ---
odyD=DownEnded -e-
oyu=DownEnded -e-
oxy=BothEnded sed
oyx=BothEnded sed
xyo=BothEnded sed
ouxy=BothEnded -e-
odxy=BothEnded s--
oudxy=BothEnded ---
oudxyU=BothEnded s--
oudxyUD=BothEnded sed
ouUuxy=BothEnded -e-";

fn phase_text(phase: Phase) -> &'static str {
    match phase {
        Phase::Dialling => "Dialling",
        Phase::Open => "Open",
        Phase::UpEnded => "UpEnded ",
        Phase::DownEnded => "DownEnded ",
        Phase::BothEnded => "BothEnded ",
    }
}

fn flag(holds: bool, letter: &'static str) -> &'static str {
    if holds { letter } else { "-" }
}

fn open(rt: &impl Abort, tunnel: &mut Tunnel) {
    assert!(rt; matches!(tunnel.phase(), Phase::Dialling));
    tunnel.opened();
}

fn push_up(rt: &impl Abort, tunnel: &mut Tunnel) {
    assert!(rt; !tunnel.up_ended() && tunnel.room_up() > 0);
    tunnel.push_up(b"u");
}

fn push_down(rt: &impl Abort, tunnel: &mut Tunnel) {
    assert!(rt; !tunnel.down_ended() && tunnel.room_down() > 0);
    tunnel.push_down(b"d");
}

fn take_up(rt: &impl Abort, tunnel: &mut Tunnel) {
    assert!(rt; tunnel.held_up().first() == Some(&b'u'));
    tunnel.took_up(1);
}

fn take_down(rt: &impl Abort, tunnel: &mut Tunnel) {
    assert!(rt; tunnel.held_down().first() == Some(&b'd'));
    tunnel.took_down(1);
}

fn make(rt: &impl Abort, tunnel: &mut Tunnel, letter: u8) {
    match letter {
        b'o' => open(rt, tunnel),
        b'u' => push_up(rt, tunnel),
        b'U' => take_up(rt, tunnel),
        b'x' => tunnel.end_up(),
        b'd' => push_down(rt, tunnel),
        b'D' => take_down(rt, tunnel),
        _ => tunnel.end_down(),
    }
}

/// What is told of a tunnel is the text.
fn tells(tunnel: &Tunnel, text: &str) -> bool {
    let phase = phase_text(tunnel.phase());
    let flags = text.strip_prefix(phase).unwrap_or("none");
    let shut = flag(tunnel.may_shut(), "s");
    let end = flag(tunnel.may_end(), "e");
    let done = flag(tunnel.done(), "d");
    flags
        .strip_prefix(shut)
        .unwrap_or("none")
        .strip_prefix(end)
        .unwrap_or("none")
        == done
}

fn play(rt: &impl Abort, tunnel: &mut Tunnel, row: &str) {
    let (moves, text) = row.split_once('=').unwrap_or((row, ""));
    for letter in moves.as_bytes() {
        make(rt, tunnel, *letter);
    }
    assert!(rt; tells(tunnel, text), "{row}");
}

#[test]
fn each_row_is_told_as_written(rt: HostRuntime) {
    for row in ROWS.split('\n') {
        let mut tunnel = Tunnel::new(rt.alloc()).ok().expect(&rt, "memory");
        play(&rt, &mut tunnel, row);
    }
}
