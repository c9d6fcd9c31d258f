//! The initial size of windows, while the settings of one frame are applied (RFC 9113 section 6.9.2): of the sizes that
//! follow one another only the last one moves the windows, as long as all of them fit.

ghost use Rattle.std.specs.Prelude.{◌≡◌, IfSome};
ghost use Rattle.hb_conn.specs.Settings.{Applies, Resized};
ghost use Rattle.hb_conn.specs.Sizes.{allows, sized, FitsAll, AreKnown, Postpones};

use crate::machine::Core;
use hb_frames::numbers::INITIAL_WINDOW_SIZE;

/// What is known of the initial size.
#[derive(Clone, Copy)]
pub(crate) struct Sizes {
    /// The size that is set once the settings are applied.
    pub pending: Option<u32>,
    /// Each size up to this one fits the window of each stream; below zero none does.
    pub limit: Option<i64>,
}

/// No size is put off, and no window was looked at.
pub(crate) const NOTHING_KNOWN: Sizes = Sizes {
    pending: None,
    limit: None,
};

impl Sizes {
    fn allows(self, size: u32) -> bool
        ensures { result ≡ allows self size }
    {
        match self.limit {
            Some(limit) => i64::from(size) <= limit,
            None => false,
        }
    }
}

impl Core {
    /// Sets the size that was put off.
    pub(crate) fn set_pending(&mut self, pending: Option<u32>)
        requires fits { IfSome pending (FitsAll self.old) }
        ensures after { self.new ≡ sized self.old pending }
        ensures out { self.new.out ≡ self.old.out }
    {
        if let Some(size) = pending {
            self.resize(size);
        }
    }

    /// What is known once the windows were looked at, which they are only where more settings follow.
    fn known(&self, sizes: Sizes, more: bool) -> Sizes
        requires { AreKnown self.now sizes }
        ensures known { AreKnown self.now result }
        ensures same { result.pending ≡ sizes.pending }
    {
        if !more || sizes.limit.is_some() {
            return sizes;
        }
        let unbegun = self.unbegun();
        Sizes {
            pending: sizes.pending,
            limit: Some(self.flow.size_limit(unbegun.stream, unbegun.size)),
        }
    }

    /// The initial size is this one: it is put off where it is known to fit, and else set. None: it doesn't fit.
    fn apply_size(&mut self, sizes: Sizes, size: u32, more: bool) -> Option<Sizes>
        requires known { AreKnown self.old sizes }
        ensures after { Postpones (λ old new fits. Resized old size new fits) self.old sizes self.new result }
        ensures out { self.new.out ≡ self.old.out }
    {
        let known = self.known(sizes, more);
        if known.allows(size) {
            return Some(Sizes {
                pending: Some(size),
                limit: known.limit,
            });
        }
        self.set_pending(sizes.pending);
        if !self.resize(size) {
            return None;
        }
        Some(NOTHING_KNOWN)
    }

    /// Applies one setting. None: it doesn't fit.
    pub(crate) fn apply(&mut self, sizes: Sizes, setting: (u32, u32), more: bool) -> Option<Sizes>
        requires known { AreKnown self.old sizes }
        ensures after { Postpones (λ old new fits. Applies old setting new fits) self.old sizes self.new result }
        ensures out { self.new.out ≡ self.old.out }
    {
        let (identifier, value) = setting;
        if identifier == INITIAL_WINDOW_SIZE {
            return self.apply_size(sizes, value, more);
        }
        self.note(identifier, value);
        Some(sizes)
    }
}
