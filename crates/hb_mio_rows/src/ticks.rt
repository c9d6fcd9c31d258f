//! Ticks, by the clock.

use crate::play::Play;
use hb_world::{Read, Waited};
use std::test::Fail;
use std::time::{Duration, Instant};

/// An octet comes, a wait is made, and the octet is read. Whether the wait told a tick.
fn traffic(play: &mut Play) -> bool {
    let _ = play.at_peer("says", 1, "x");
    let waited = play.wait();
    for _ in 0..64u32 {
        if matches!(play.read(1).0, Read::Balked) {
            break;
        }
    }
    matches!(waited, Waited::Tick)
}

#[test]
fn a_tick_comes_each_second_under_traffic(rt: HostRuntime) -> Result<(), Fail> {
    let mut play = Play::new(&rt)?;
    let _ = play.pair();
    let begun = Instant::now(&rt)?;
    let mut ticks = 0u32;
    let mut waits = 0u32;
    for _ in 0..u32::MAX {
        if ticks == 2 || begun.elapsed(&rt)? > Duration::from_secs(20) {
            break;
        }
        waits = waits.saturating_add(1);
        if traffic(&mut play) {
            ticks = ticks.saturating_add(1);
        }
    }
    assert_eq!(rt; ticks, 2);
    assert!(rt; waits > 10);
    assert!(rt; begun.elapsed(&rt)? > Duration::from_millis(1000));
    Ok(())
}

#[test]
fn a_wait_in_silence_ends_with_a_tick(rt: HostRuntime) -> Result<(), Fail> {
    let mut play = Play::new(&rt)?;
    let begun = Instant::now(&rt)?;
    assert!(rt; matches!(play.wait(), Waited::Tick));
    assert!(rt; begun.elapsed(&rt)? >= Duration::from_millis(999));
    assert!(rt; !play.is_ready());
    Ok(())
}
