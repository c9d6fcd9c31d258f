//! Scripts that the program makes: discovery, tunnels, and an update that revokes every other one.
#![tactic(auto)]

mod laws;
mod lines;
mod octets;
mod text;

pub use laws::{
    made_scripts_are_read_back, made_scripts_have_their_lines, the_first_tunnel_is_told_apart,
};
pub use lines::lines_made;
pub use text::put_made;
