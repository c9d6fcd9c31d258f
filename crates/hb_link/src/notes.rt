//! Where notes go.

use hb_base::{Cause, Peer, Target};

/// What takes notes, one after another, at the point at which each is made. It is lent the peer, so that a note takes no memory here.
/// Where it has no room for a note, that is lost, and none counts as told from then on.
pub trait Notes {
    ghost use Rattle.std.specs.Prelude.{◌∷◌, []};
    ghost use Rattle.hb_base.specs.declared.note.Note.TheVariants as note;
    ghost use Rattle.hb_link.specs.Noted.{Told, Takes};

    /// The notes that it took, `None` once it lost one.
    ghost told: { Self → Told };

    /// A request was answered with this status, 0 where it was malformed.
    fn verdict(&mut self, link: u64, stream: u32, status: u16, peer: &Peer, target: Option<Target>)
        ensures { Takes (told self.old) (note.Verdict link stream status peer.now target ∷ []) (told self.new) };

    /// A tunnel that had been live ended, after so many bytes to its upstream and back.
    fn end(&mut self, link: u64, stream: u32, cause: Cause, up: u64, down: u64)
        ensures { Takes (told self.old) (note.End link stream cause up down ∷ []) (told self.new) };
}
