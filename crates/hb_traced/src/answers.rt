//! Answers that a world which tells its trace may give, and which tell a failure.

ghost use Rattle.std.specs.Prelude.{◌≡◌};
ghost use Rattle.hb_world.specs.Answers.{listen_failed, finish_failed, read_failed, write_failed, look_failed, wait_failed, glance_failed};
ghost use Rattle.hb_traced.specs.Answers.{finish_of, read_of, write_of, look_of};

use hb_world::{Finished, Glanced, Listened, Looked, Read, Waited, Wrote};

/// A link that doesn't live neither opens nor breaks.
pub(crate) fn finish_of(lives: bool, answer: Finished) -> Finished
    ensures { result ≡ finish_of lives answer }
{
    match answer {
        Finished::Opened | Finished::Failed if !lives => Finished::Balked,
        answer => answer,
    }
}

/// Nothing comes on a link that doesn't live, and it doesn't break.
pub(crate) fn read_of(lives: bool, answer: Read) -> Read
    ensures { result ≡ read_of lives answer }
{
    match answer {
        Read::Got(_) | Read::End | Read::Failed if !lives => Read::Balked,
        answer => answer,
    }
}

/// Nothing goes on a link that doesn't live, and it doesn't break.
pub(crate) fn write_of(lives: bool, answer: Wrote) -> Wrote
    ensures { result ≡ write_of lives answer }
{
    match answer {
        Wrote::Took(_) | Wrote::Failed if !lives => Wrote::Balked,
        answer => answer,
    }
}

/// A link that doesn't live is fine.
pub(crate) fn look_of(lives: bool, answer: Looked) -> Looked
    ensures { result ≡ look_of lives answer }
{
    match answer {
        Looked::Failed if !lives => Looked::Fine,
        answer => answer,
    }
}

pub(crate) fn listen_failed(answer: Listened) -> bool
    ensures { result ≡ listen_failed answer }
{
    matches!(answer, Listened::Failed)
}

pub(crate) fn finish_failed(answer: Finished) -> bool
    ensures { result ≡ finish_failed answer }
{
    matches!(answer, Finished::Failed)
}

pub(crate) fn read_failed(answer: Read) -> bool
    ensures { result ≡ read_failed answer }
{
    matches!(answer, Read::Failed)
}

pub(crate) fn write_failed(answer: Wrote) -> bool
    ensures { result ≡ write_failed answer }
{
    matches!(answer, Wrote::Failed)
}

pub(crate) fn look_failed(answer: Looked) -> bool
    ensures { result ≡ look_failed answer }
{
    matches!(answer, Looked::Failed)
}

pub(crate) fn wait_failed(answer: Waited) -> bool
    ensures { result ≡ wait_failed answer }
{
    matches!(answer, Waited::Failed)
}

pub(crate) fn glance_failed(answer: Glanced) -> bool
    ensures { result ≡ glance_failed answer }
{
    matches!(answer, Glanced::Failed)
}
