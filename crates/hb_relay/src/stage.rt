//! How far a link is.

ghost use Rattle.std.specs.Prelude.{◌≡◌};
ghost use Rattle.hb_captured.specs.Captured.{left_by, ends_by, is_judged};
ghost use Rattle.hb_relay.specs.Shows.{stage_of};

use hb_base::Cause;

/// How far a link and its tunnel are, between two calls.
#[derive(Clone, Copy)]
pub(crate) enum Stage {
    /// Its front header isn't whole.
    Fronting,
    /// Its destination is to be dialled.
    Due,
    /// That is dialled, and not open yet.
    Opening,
    /// Bytes come and go.
    Live,
    /// Its links are to be closed for this cause.
    Over(Cause),
}

impl Stage {
    /// It is pending, its front header whole, or lives.
    pub fn is_judged(self) -> bool
        ensures { result ≡ is_judged (stage_of self) }
    {
        match self {
            Stage::Due | Stage::Opening | Stage::Live => true,
            _ => false,
        }
    }

    /// Behind an end for a cause, which is noted at once. The first end counts.
    pub fn ended(self, cause: Cause) -> Stage
        ensures { stage_of result ≡ left_by (ends_by cause (stage_of self)) }
    {
        match self {
            Stage::Over(first) => Stage::Over(first),
            _ => Stage::Over(cause),
        }
    }
}
