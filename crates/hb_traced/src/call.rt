//! A call that was made, with its answer.

use hb_base::{Cause, Door, Target, Why};
use hb_world::{Born, Finished, Glanced, Listened, Looked, Read, Ready, Waited, Wrote};

/// A call of a world, with what it answered.
#[derive(Clone, Copy)]
pub(crate) enum Call<'a> {
    Listen(Target, Door, Listened),
    Accept(Door, Born),
    Dial(Target, Why, Born),
    Finish(u64, Finished),
    /// With the buffer as it is behind the call.
    Read(u64, &'a [u8], Read),
    Write(u64, &'a [u8], Wrote),
    Look(u64, Looked),
    Shut(u64),
    Close(u64, Cause),
    /// With what is ready behind the call.
    Wait(&'a Ready, Waited),
    Glance(&'a Ready, Glanced),
}
