//! What the event loop needs of a node.

use hb_base::{Cause, Door, NoMemory, Note, Why};
use hb_world::Act;

/// A node: it is told what the calls of a world did, and says which calls are due. A node stores no trace; it stands for each trace
/// that it may have been told.
///
/// `NoMemory` means that the run ends: the node then stands for no trace, and is told nothing more but that.
pub trait Node {
    ghost use Rattle.std.specs.Prelude.{◌≡◌, ◌≤◌, ◌++◌, [], ◌∷◌, ℕ, List, length, take, true, false, OnOk, IfOk, IfNone, IfSome, Some};
    ghost use Rattle.std.specs.Option.{option_to_list};
    ghost use Rattle.hb_base.specs.declared.note.Note.{Note};
    ghost use Rattle.hb_base.specs.declared.target.Target.{Target};
    ghost use Rattle.hb_world.specs.declared.entry.Entry.{Entry};
    ghost use Rattle.hb_world.specs.declared.entry.Entry.TheVariants as e;
    ghost use Rattle.hb_world.specs.declared.entry.Way.{Way};
    ghost use Rattle.hb_world.specs.declared.entry.ReadyItem.{ReadyItem};
    ghost use Rattle.hb_world.specs.declared.entry.Woken.{Woken};
    ghost use Rattle.hb_world.specs.declared.act.Act.TheVariants as act;
    ghost use Rattle.hb_turns.specs.Shown.{Shown, IsFront, IsSame, Hears, Tells, StandsAs, StandsForNone, Stops, Acts, ActsFor, dial_entry, MovesNothing};

    /// The traces that it stands for, once these notes of them were taken.
    ghost stands: { List Note → Self → List Entry → Type 0 };

    /// What the loop sees of it.
    ghost shown: { Self → Shown };

    /// A link was accepted at a door.
    ///
    /// Errors: `NoMemory`, behind which the run ends.
    fn accepted(&mut self, link: u64, door: Door) -> Result<(), NoMemory>
        ensures { OnOk result (Tells stands shown (e.Accepted link door) self.old self.new) };

    /// What came of the dial that was given: a link, or none.
    ///
    /// Errors: `NoMemory`, behind which the run ends.
    fn dialled(&mut self, why: Why, link: Option<u64>) -> Result<(), NoMemory>
        ensures { OnOk result ((to : Target) → Tells stands shown (dial_entry to why link) self.old self.new) };

    /// A dialled link is open.
    ///
    /// Errors: `NoMemory`, behind which the run ends.
    fn opened(&mut self, link: u64) -> Result<(), NoMemory>
        ensures { OnOk result (Tells stands shown (e.Opened link) self.old self.new) };

    /// How many bytes may be read on a link now.
    fn wants(&self, link: u64) -> usize
        ensures { result ≡ (shown self.now).wants link };

    /// The link that goes first: what may be read on it is read in front of all others. `None`: no such link lives.
    fn first(&self) -> Option<u64>
        ensures { result ≡ (shown self.now).first };

    /// These bytes were read on a link.
    ///
    /// Errors: `NoMemory`, behind which the run ends.
    fn take_bytes(&mut self, link: u64, bytes: &[u8]) -> Result<(), NoMemory>
        requires { length bytes.now ≤ (shown self.old).wants link }
        ensures { OnOk result (Tells stands shown (e.Came link bytes.now) self.old self.new) };

    /// The link's peer sends no more.
    fn ended(&mut self, link: u64)
        ensures { Tells stands shown (e.Ended link) self.old self.new };

    /// A call on the link failed.
    fn broke(&mut self, link: u64)
        ensures { Tells stands shown (e.Broke link) self.old self.new };

    /// Time passed. No shut and no close is due for that.
    fn tick(&mut self)
        ensures tells { Tells stands shown e.Tick self.old self.new }
        ensures closes { (shown self.new).none_closes ≡ (shown self.old).none_closes };

    /// Bytes that are to be written on a link now: the first of them, and as many more as lie in one piece.
    fn output(&self, link: u64) -> &[u8]
        ensures { IsFront result.now ((shown self.now).output link) };

    /// So many of the bytes that were to be written on the link are.
    fn wrote(&mut self, link: u64, n: usize)
        requires { n ≤ length ((shown self.old).output link) }
        ensures { Tells stands shown (e.Went link (take n ((shown self.old).output link))) self.old self.new };

    /// Whether one write on the link goes before the acts that are due: a GOAWAY waits on it, and its close is due behind that.
    fn last_words(&self, link: u64) -> bool
        ensures { result ≡ (shown self.now).last_words link };

    /// The next call that is due. `None` where none is. A shut or a close counts as done; a dial is to be answered next.
    fn next_act(&mut self) -> Option<Act>
        ensures acts { Acts stands shown result self.old self.new }
        ensures none { IfNone result ((shown self.new).idle ≡ true × (shown self.new).none_closes ≡ true) }
        ensures ends_for { (shown self.new).ends_for ≡ (shown self.old).ends_for }
        ensures closes { ActsFor (shown self.old).ends_for result }
        ensures all { IfNone result (IfSome (shown self.old).ends_for (λ cause. StandsForNone stands self.new)) };

    /// The next note. `None` exactly where each was taken.
    ///
    /// Errors: `NoMemory`, behind which the run ends: a note was lost.
    fn next_note(&mut self) -> Result<Option<Note>, NoMemory>
        ensures head { IfOk result (λ note. (shown self.old).noted ≡ option_to_list note ++ (shown self.new).noted) }
        ensures none { IfOk result (λ note. IfNone note ((shown self.old).noted ≡ [])) }
        ensures same { IsSame (shown self.old) (shown self.new) }
        ensures stirs { (l : ℕ) → (shown self.new).stirs l ≡ (shown self.old).stirs l }
        ensures takes { IfOk result (λ note. (notes : List Note) (trace : List Entry) → stands notes self.old trace
            → stands (notes ++ option_to_list note) self.new trace) };

    /// The run ends: from now on each act closes a link, for this cause, until none lives.
    fn stop(&mut self, cause: Cause)
        ensures ends_for { (shown self.new).ends_for ≡ Some cause }
        ensures stands { Stops stands shown self.old self.new };

    /// The next link on which more may be read or is to be written than before. `None` exactly where none stirred that wasn't told.
    fn next_stirred(&mut self) -> Option<u64>
        ensures hears { (notes : List Note) (trace : List Entry) → stands notes self.old trace
            → stands notes self.new trace × Hears trace result (shown self.old) (shown self.new) }
        ensures none { IfNone result ((l : ℕ) → (shown self.new).stirs l ≡ false) }
        ensures same { IsSame (shown self.old) (shown self.new) }
        ensures noted { (shown self.new).noted ≡ (shown self.old).noted };

    /// A call that moved nothing, or a wait, is told to no node: where no act is due, it stands for the trace with that entry too. So
    /// it does with a listen, behind listens alone.
    ghost rests: { (notes : List Note) → (n : Self) → (trace : List Entry) → (x : Entry) → MovesNothing (shown n) trace x
        → stands notes n trace → stands notes n (trace ++ x ∷ []) };
}
