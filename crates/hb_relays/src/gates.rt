//! What comes and goes on links to gateways.

ghost use Rattle.std.specs.Prelude.{IfOk, OnOk, IsTrue, true, ◌≡◌, ◌<◌, ◌↔◌, ℕ};
ghost use Rattle.hb_gate.specs.Keyed.{IsWritable};
ghost use Rattle.hb_gate.specs.Looking.{is_more};
ghost use Rattle.hb_gateway.specs.Response.{opens, brings, ends};
ghost use Rattle.hb_link.specs.Noted.{Told};
ghost use Rattle.hb_relays.specs.Calls.{DialsGate};
ghost use Rattle.hb_relays.specs.Looking.{Delivers, FindsAt, Hears, HearsLook, IsBehind, left_at, LooksAll, LooksOnce, MailAt, ResetsGate, ServesAt, Settles, TellsAt, ToldAt};
ghost use Rattle.hb_relays.specs.Stirring.{Stirs};

use crate::relays::Relays;
use crate::telling::tell;
use hb_base::NoMemory;
use hb_front::may_be_sent;
use hb_gate::{Gate, Look, Mail};
use hb_gateway::Key;
use hb_link::Notes;

/// The identity of a key, where it has one, may be written.
fn is_writable(key: &Key) -> bool
    ensures { IsTrue result ↔ IsWritable key.now }
{
    match &key.identity {
        Some(identity) => may_be_sent(identity),
        None => true,
    }
}

/// Something was found, and more may be.
fn is_more(look: Look) -> bool
    ensures { result ≡ is_more look }
{
    !matches!(look, Look::Nothing | Look::Lacked)
}

impl Relays {
    /// The dial for a link, which alone waits for one, gave the link to a gateway of this number.
    ///
    /// Errors: `NoMemory`, behind which the run ends.
    pub fn gate_dialled(&mut self, link: u64, number: u64) -> Result<(), NoMemory>
        ensures meets { OnOk result (DialsGate link number self.old self.new) }
        ensures stirs { OnOk result (Stirs self.old self.new) }
    {
        let Some(relay) = self.relays.get(link) else {
            return Ok(());
        };
        let Some((key, _)) = relay.wanted() else {
            return Ok(());
        };
        if !is_writable(key) {
            return Ok(());
        }
        let gate = Gate::dialled(self.alloc, number, key.copy(self.alloc)?)?;
        self.gates.put(number, gate)?;
        self.touch_gate(number);
        self.join(link)
    }

    /// What a tunnel is to be told of its end.
    fn deliver<N: Notes>(&mut self, mail: Mail, notes: &mut N)
        ensures delivers { Delivers mail self.old (N.told notes.old) self.new (N.told notes.new) }
        ensures stirs { Stirs self.old self.new }
    {
        let Some(relay) = self.relays.at(mail.link) else {
            return;
        };
        let made = relay.stream_failed(mail.cause, mail.begun, &mut self.routes);
        self.touch(mail.link);
        tell(made, notes);
    }

    /// What the tunnel on a stream of a link to a gateway is to be told of its end, which is taken.
    fn mail_at(&mut self, number: u64, stream: u32) -> Option<Mail>
        ensures mail { MailAt number stream result self.old self.new }
        ensures stirs { Stirs self.old self.new }
    {
        let Some(gate) = self.gates.at(number) else {
            return None;
        };
        gate.take_mail(stream)
    }

    /// It is told that, where there is some.
    fn tell_at<N: Notes>(&mut self, number: u64, stream: u32, notes: &mut N)
        ensures tells { TellsAt number stream self.old (N.told notes.old) self.new (N.told notes.new) }
        ensures stirs { Stirs self.old self.new }
    {
        let Some(mail) = self.mail_at(number, stream) else {
            return;
        };
        self.deliver(mail, notes);
    }

    /// The least stream behind one on which a tunnel was asked for.
    fn stream_behind(&self, number: u64, stream: u32) -> Option<u32>
        ensures { IsBehind self.now number stream result }
    {
        match self.gates.get(number) {
            Some(gate) => gate.first_behind(stream),
            None => None,
        }
    }

    /// Whether no tunnel on a link to a gateway is left to be told its end.
    fn is_told(&self, number: u64) -> bool
        ensures { ToldAt number self.now result }
    {
        match self.gates.get(number) {
            Some(gate) => gate.is_told(),
            None => true,
        }
    }

    /// Each tunnel that is to be told its end is.
    pub(crate) fn settle_gate<N: Notes>(&mut self, number: u64, notes: &mut N)
        ensures settles { Settles number self.old (N.told notes.old) self.new (N.told notes.new) }
        ensures left { left_at number self.new ≡ left_at number self.old }
        ensures stirs { Stirs self.old self.new }
    {
        if self.is_told(number) {
            return;
        }
        let mut from = Some(0);
        while let Some(stream) = from {
            self.tell_at(number, stream, notes);
            from = self.stream_behind(number, stream);
        }
    }

    /// Each stream of it whose tunnel's end asks for that is reset.
    fn reset_gate(&mut self, number: u64)
        ensures resets { ResetsGate number self.old self.new }
        ensures left { left_at number self.new ≡ left_at number self.old }
        ensures stirs { Stirs self.old self.new }
    {
        let Some(gate) = self.gates.at(number) else {
            return;
        };
        if gate.carries() {
            gate.reset_ended();
        }
        self.touch_gate(number);
    }

    /// The tunnel of a captured link is open; `end`: and the gateway ended its side.
    fn open_stream<N: Notes>(&mut self, link: u64, end: bool, notes: &mut N)
        ensures hears { (begun : ℕ) → Hears (opens end) begun link self.old (N.told notes.old) self.new (N.told notes.new) }
        ensures stirs { Stirs self.old self.new }
    {
        let Some(relay) = self.relays.at(link) else {
            return;
        };
        let made = relay.stream_opened(end);
        self.touch(link);
        tell(Some(made), notes);
    }

    /// Bytes came for a captured link.
    fn bring(&mut self, link: u64, bytes: &[u8])
        ensures hears { (begun : ℕ) (told : Told) → Hears (brings bytes.now) begun link self.old told self.new told }
        ensures stirs { Stirs self.old self.new }
    {
        let Some(relay) = self.relays.at(link) else {
            return;
        };
        relay.stream_bytes(bytes);
        self.touch(link);
    }

    /// The gateway ended its side of the tunnel of a captured link.
    fn end_stream(&mut self, link: u64)
        ensures hears { (begun : ℕ) (told : Told) → Hears ends begun link self.old told self.new told }
        ensures stirs { Stirs self.old self.new }
    {
        let Some(relay) = self.relays.at(link) else {
            return;
        };
        relay.stream_ended();
        self.touch(link);
    }

    /// A captured link is told what was found.
    fn hear<N: Notes>(&mut self, look: Look, bytes: &[u8], notes: &mut N)
        ensures hears { HearsLook look bytes.now self.old (N.told notes.old) self.new (N.told notes.new) }
        ensures stirs { Stirs self.old self.new }
    {
        match look {
            Look::Nothing | Look::Passed | Look::Lacked => {}
            Look::Opens { link, end, .. } => self.open_stream(link, end, notes),
            Look::Brings { link, .. } => self.bring(link, bytes),
            Look::Ends { link, .. } => self.end_stream(link),
            Look::Fails(mail) => self.deliver(mail, notes),
        }
    }

    /// Bytes come and go on a link to a gateway.
    fn serves(&self, number: u64) -> bool
        ensures { ServesAt number self.now result }
    {
        match self.gates.get(number) {
            Some(gate) => gate.serves(),
            None => false,
        }
    }

    /// What is found where it is looked at what happens next on it. The bytes that it brings stand in `bytes` then.
    ///
    /// Errors: `NoMemory`, behind which the run ends.
    fn find(&mut self, number: u64, bytes: &mut Vec<u8>) -> Result<Look, NoMemory>
        ensures finds { IfOk result (λ look. FindsAt number look bytes.new.items self.old self.new) }
        ensures falls { IfOk result (λ look. is_more look ≡ true → left_at number self.new < left_at number self.old) }
        ensures stirs { OnOk result (Stirs self.old self.new) }
    {
        let Some(gate) = self.gates.at(number) else {
            return Ok(Look::Nothing);
        };
        let look = gate.look(bytes)?;
        self.touch_gate(number);
        Ok(look)
    }

    /// Looks at what happens next on one, and says whether more may.
    ///
    /// Errors: `NoMemory`, behind which the run ends.
    fn look<N: Notes>(
        &mut self,
        number: u64,
        bytes: &mut Vec<u8>,
        notes: &mut N,
    ) -> Result<bool, NoMemory>
        ensures looks { IfOk result (λ more. LooksOnce number more self.old (N.told notes.old) self.new (N.told notes.new)) }
        ensures falls { IfOk result (λ more. more ≡ true → left_at number self.new < left_at number self.old) }
        ensures stirs { OnOk result (Stirs self.old self.new) }
    {
        if !self.serves(number) {
            return Ok(false);
        }
        let look = self.find(number, bytes)?;
        self.hear(look, bytes.as_slice(), notes);
        self.settle_gate(number, notes);
        self.reset_gate(number);
        Ok(is_more(look))
    }

    /// Looks at all that came on one, and puts what may be put then.
    ///
    /// Errors: `NoMemory`, behind which the run ends.
    pub(crate) fn look_all<N: Notes>(&mut self, number: u64, notes: &mut N) -> Result<(), NoMemory>
        ensures looks { OnOk result (LooksAll number self.old (N.told notes.old) self.new (N.told notes.new)) }
        ensures stirs { OnOk result (Stirs self.old self.new) }
    {
        let mut bytes = Vec::new(self.alloc);
        while self.look(number, &mut bytes, notes)? {}
        self.pump_gate(number, notes);
        Ok(())
    }
}
