//! HTTP/2 flow-control windows (RFC 9113 sections 5.2 and 6.9): what this end may still send and what
//! its peer may still send, as exact sums that never pass 2,147,483,647.
#![tactic(auto)]

mod overrun;
mod send_window;
mod take_window;

pub use overrun::Overrun;
pub use send_window::SendWindow;
pub use take_window::TakeWindow;
