//! The proxy as the event loop runs it, with the audits to which its notes are told. Contracts know what it is asked for, and the audits
//! as they were before the run.

ghost use Rattle.std.specs.Prelude.{◌≡◌, ◌++◌, List};
ghost use Rattle.hb_audit.specs.HeldBy.{each, answers_by};
ghost use Rattle.hb_audit.specs.Tells.{Tells};
ghost use Rattle.hb_audit.specs.Told.{Told};
ghost use Rattle.hb_reason.specs.Reasons.{told_by};

use hb_audit::{Audit, Audits};
use hb_base::{Cause, Door, NoMemory, Note, Why};
use hb_held::Held;
use hb_reason::reason_beside;
use hb_turns::Node;
use hb_whole::{Applied, Proxy};
use hb_world::Act;
use std::marker::{Brand, PhantomData};

/// What a node is asked for, and the audits before its run, which contracts name by a type. No code reads it.
pub(crate) trait Given<A> {
    ghost use Rattle.std.specs.Prelude.{List};
    ghost use Rattle.hb_model.specs.declared.config.NodeConfig.{NodeConfig};

    ghost config: { NodeConfig };

    ghost before: { List A };
}

impl<A> Given<A> for Brand {
    ghost use Rattle.std.specs.Prelude.{[]};
    ghost use Rattle.hb_serve.specs.Asked.{nobody};

    ghost config = { nobody };

    ghost before = { [] };
}

/// A proxy that was asked for this, and the audits that are left.
#[derive(Drop)]
pub(crate) struct Asked<G: Given<A>, A> {
    proxy: Proxy,
    audits: Audits<A>,
    of: PhantomData<G>,
}

impl<G: Given<A>, A: Audit> Asked<G, A> {
    /// One whose notes are told to these audits.
    pub fn over(proxy: Proxy, audits: Audits<A>) -> Asked<G, A>
        ensures proxy { result.proxy ≡ proxy }
        ensures audits { result.audits ≡ audits }
    {
        Asked {
            proxy,
            audits,
            of: PhantomData,
        }
    }

    /// The audits that are left.
    pub fn into_audits(self) -> Audits<A>
        ensures { result ≡ self.audits }
    {
        self.audits
    }
}

/// Tells a note, where there is one, with its reason by what is held.
fn tell<A: Audit>(audits: &mut Audits<A>, held: &Held, note: &Option<Note>)
    ensures { (before : List A) (told : List Told) → Tells (answers_by A.notes A.answers) before (each audits.old) told
        → Tells (answers_by A.notes A.answers) before (each audits.new) (told ++ told_by held.now note.now) }
{
    match note {
        Some(made) => {
            let _ = audits.tell(made, reason_beside(held, made));
        }
        None => {}
    }
}

/// Tells what responses did.
fn tell_applied<A: Audit>(audits: &Audits<A>, applied: &[Applied]) {
    for response in applied {
        audits.applied(response.kind, &response.did);
    }
}

impl<G: Given<A>, A: Audit> Node for Asked<G, A> {
    ghost use Rattle.hb_audit.specs.HeldBy.{each, answers_by};
    ghost use Rattle.hb_whole.proofs.Resting as whole;
    ghost use Rattle.hb_whole.specs.Sight.{shown_of};
    ghost use Rattle.hb_reason.proofs.Hearing.{longer};
    ghost use Rattle.hb_serve.specs.Asked.{StandsWith};

    ghost stands = { λ taken node trace.
        StandsWith (answers_by A.notes A.answers) G.config G.before taken node.proxy (each node.audits) trace };

    ghost shown = { λ node. shown_of node.proxy };

    fn accepted(&mut self, link: u64, door: Door) -> Result<(), NoMemory> {
        self.proxy.accepted(link, door)
    }

    fn dialled(&mut self, why: Why, link: Option<u64>) -> Result<(), NoMemory> {
        self.proxy.dialled(why, link)
    }

    fn opened(&mut self, link: u64) -> Result<(), NoMemory> {
        self.proxy.opened(link);
        Ok(())
    }

    fn wants(&self, link: u64) -> usize {
        self.proxy.wants(link)
    }

    fn first(&self) -> Option<u64> {
        self.proxy.first()
    }

    /// What responses did is told to the audits as soon as they are applied.
    fn take_bytes(&mut self, link: u64, bytes: &[u8]) -> Result<(), NoMemory> {
        self.proxy.take_bytes(link, bytes)?;
        tell_applied(&self.audits, self.proxy.applied());
        self.proxy.forget_applied();
        Ok(())
    }

    fn ended(&mut self, link: u64) {
        self.proxy.ended(link);
    }

    fn broke(&mut self, link: u64) {
        self.proxy.broke(link);
    }

    fn tick(&mut self) {
        self.proxy.tick();
        self.audits.ticked(self.proxy.held());
    }

    fn output(&self, link: u64) -> &[u8] {
        self.proxy.output(link)
    }

    fn wrote(&mut self, link: u64, n: usize) {
        self.proxy.wrote(link, n);
    }

    fn last_words(&self, link: u64) -> bool {
        self.proxy.last_words(link)
    }

    fn next_act(&mut self) -> Option<Act> {
        self.proxy.next_act()
    }

    /// Each note is told to the audits when it is taken, with its reason by what is held then; one that doesn't keep it is dropped, and the
    /// run goes on.
    fn next_note(&mut self) -> Result<Option<Note>, NoMemory> {
        let note = self.proxy.next_note()?;
        tell(&mut self.audits, self.proxy.held(), &note);
        Ok(note)
    }

    fn stop(&mut self, cause: Cause) {
        self.proxy.stop(cause);
    }

    fn next_stirred(&mut self) -> Option<u64> {
        self.proxy.next_stirred()
    }

    ghost rests = { λ taken node trace x moves stands. (
      whole.rests taken node.proxy trace x moves stands.0,
      (stands.1.0, longer G.config trace (answers_by A.notes A.answers) G.before x (each node.audits) taken stands.1.1),
    ) };
}
