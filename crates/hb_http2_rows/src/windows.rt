//! What the windows hold (RFC 9113 section 6.9).

use crate::told::{assert_told, tell};
use hb_windows::{SendWindow, TakeWindow};

#[test]
fn a_resize_moves_the_window_below_zero(rt: HostRuntime) {
    let mut window = SendWindow::new(65_535);
    let first = (window.resize(65_535, 0), window.held());
    let mut spent = SendWindow::new(65_535);
    spent.spend(65_535);
    let second = (spent.resize(65_535, 16_384), spent.held());
    let mut told = String::new(rt.alloc());
    tell(&rt, &mut told, &[first, second]);
    assert_told(
        &rt,
        "resize",
        told.as_str(),
        "[(Ok(()), 0), (Ok(()), -49151)]\n",
    );
}

#[test]
fn what_is_given_back_is_spent_again(rt: HostRuntime) {
    let mut window = SendWindow::new(16_384);
    window.spend(16_384);
    window.give_back(9_000);
    assert!(rt; window.held() == 9_000);
    window.spend(9_000);
    assert!(rt; window.held() == 0);
}

#[test]
fn a_grant_past_the_largest_is_refused(rt: HostRuntime) {
    let mut window = SendWindow::new(0);
    let granted = window.grant(2_147_483_647);
    let moves = [granted, window.grant(1), window.resize(0, 1)];
    let mut told = String::new(rt.alloc());
    tell(&rt, &mut told, &(moves, window.held()));
    assert_told(
        &rt,
        "grants",
        told.as_str(),
        "([Ok(()), Err(Overrun { held: 2147483647, asked: 1 }), Err(Overrun { held: 2147483647, asked: 1 })], \
            2147483647)\n",
    );
}

#[test]
fn what_is_taken_is_bounded_and_granted_again(rt: HostRuntime) {
    let mut window = TakeWindow::new(65_535);
    let mut told = String::new(rt.alloc());
    tell(&rt, &mut told, &window.spend(65_536));
    assert!(rt; window.spend(65_535).is_ok());
    window.owe(32_767);
    let first = window.due();
    window.owe(1);
    tell(&rt, &mut told, &[first, window.due(), window.due()]);
    assert_told(
        &rt,
        "grants",
        told.as_str(),
        "Err(Overrun { held: 65535, asked: 65536 })\n[None, Some(32768), None]\n",
    );
}
