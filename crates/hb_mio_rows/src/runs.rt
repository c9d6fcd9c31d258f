//! The runs.

use crate::play::{Play, Told, cut, words_of};
use crate::rows::ROWS;
use hb_world::Born;
use std::alloc::AllocError;
use std::test::Fail;

/// Plays the lines of a run. The first that tells something else, and what it tells; nothing where all go as they say.
fn play_lines(rt: &HostRuntime, play: &mut Play, lines: &str) -> Result<String, AllocError> {
    for line in lines.lines() {
        let (call, want) = cut(line, " = ");
        let told = words_of(rt.alloc(), play.told(rt, call))?;
        if told.as_str() != want {
            return format!(in rt.alloc(); "{line}: {told}");
        }
    }
    Ok(String::new(rt.alloc()))
}

fn play_row(rt: &HostRuntime, lines: &str) -> Result<String, Fail> {
    let mut play = Play::new(rt)?;
    Ok(play_lines(rt, &mut play, lines)?)
}

#[test]
fn runs_go_as_their_lines_say(rt: HostRuntime) -> Result<(), Fail> {
    for row in ROWS.split("row ") {
        let (name, lines) = cut(row, "\n");
        if !lines.is_empty() {
            let told = play_row(&rt, lines)?;
            assert!(rt; told.is_empty(), "{name}: {told}");
        }
    }
    Ok(())
}

/// A link to which its other end writes five octets and then closes, before the world waits.
fn ended_behind_five(play: &mut Play, link: u64) -> Told {
    let _ = play.at_peer("says", link, "hello");
    let _ = play.at_peer("leaves", link, "");
    // This takes the one event that tells the end.
    let _ = play.wait();
    play.hear(link, 1000)
}

#[test]
fn an_end_right_behind_the_last_octets_is_told(rt: HostRuntime) -> Result<(), Fail> {
    let mut play = Play::new(&rt)?;
    for link in 1..301u64 {
        let born = play.pair();
        assert!(rt;
            matches!(born, Born::New(number) if number == link),
            "link {link}"
        );
        let told = ended_behind_five(&mut play, link);
        assert!(rt; matches!(told, Told::Heard(5, 532, "end")), "link {link}");
        play.close(link);
    }
    Ok(())
}
