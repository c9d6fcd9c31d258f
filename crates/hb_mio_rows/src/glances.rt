//! Glances, which don't wait.

use crate::play::Play;
use hb_world::{Glanced, Read};
use std::test::Fail;
use std::time::{Duration, Instant};

#[test]
fn a_glance_in_silence_does_not_wait(rt: HostRuntime) -> Result<(), Fail> {
    let mut play = Play::new(&rt)?;
    let begun = Instant::now(&rt)?;
    assert!(rt; matches!(play.glance(), Glanced::Woke));
    assert!(rt; begun.elapsed(&rt)? < Duration::from_millis(500));
    assert!(rt; !play.is_ready());
    Ok(())
}

#[test]
fn a_glance_finds_what_came(rt: HostRuntime) -> Result<(), Fail> {
    let mut play = Play::new(&rt)?;
    let _ = play.pair();
    let _ = play.glance();
    assert!(rt; matches!(play.read(1).0, Read::Balked));
    let _ = play.at_peer("says", 1, "x");
    let begun = Instant::now(&rt)?;
    for _ in 0..u32::MAX {
        let _ = play.glance();
        if play.is_ready() || begun.elapsed(&rt)? > Duration::from_secs(20) {
            break;
        }
    }
    assert!(rt; play.is_ready());
    assert!(rt; matches!(play.read(1).0, Read::Got(1)));
    Ok(())
}

#[test]
fn a_glance_tells_a_tick_once_a_second_passed(rt: HostRuntime) -> Result<(), Fail> {
    let mut play = Play::new(&rt)?;
    let begun = Instant::now(&rt)?;
    let mut glances = 0u32;
    for _ in 0..u32::MAX {
        glances = glances.saturating_add(1);
        if matches!(play.glance(), Glanced::Tick) || begun.elapsed(&rt)? > Duration::from_secs(20) {
            break;
        }
    }
    assert!(rt; glances > 10);
    assert!(rt; begun.elapsed(&rt)? >= Duration::from_millis(999));
    assert!(rt; begun.elapsed(&rt)? < Duration::from_secs(20));
    assert!(rt; !play.is_ready());
    Ok(())
}
