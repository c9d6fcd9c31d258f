//! The links on which more may be read, or is to be written, than when they were told last.

ghost use Rattle.std.specs.Prelude.{◌≡◌, ℕ, false, None, IfNone};
ghost use Rattle.hb_relays.specs.Stirring.{Hears, OnlyHears, stirs_at};

use crate::relays::Relays;

impl Relays {
    /// Tells the upstream of a link that was told itself. `None` where it has none, or none is left.
    fn tell_up(&mut self) -> Option<u64>
        ensures hears { Hears result self.old self.new }
        ensures none { self.new.left ≡ None }
        ensures same { OnlyHears self.old self.new }
    {
        let Some(link) = self.left else {
            return None;
        };
        self.left = None;
        let Some(relay) = self.relays.get(link) else {
            return None;
        };
        let up = relay.upstream();
        if up == 0 { None } else { Some(up) }
    }

    /// Tells the next link, whose upstream is left to be told.
    fn tell_link(&mut self) -> Option<u64>
        requires { self.old.left ≡ None }
        ensures hears { Hears result self.old self.new }
        ensures none { IfNone result ((n : ℕ) → stirs_at self.new n ≡ false) }
        ensures same { OnlyHears self.old self.new }
    {
        self.left = self.stirs.next(&self.relays);
        match self.left {
            Some(number) => Some(number),
            None => self.gate_stirs.next(&self.gates),
        }
    }

    /// The number of a link on which more may be read, or is to be written, than when that was told last: of a plain link, or
    /// of the upstream of one. `None` where none is left that was not told.
    pub fn next_stirred(&mut self) -> Option<u64>
        ensures hears { Hears result self.old self.new }
        ensures none { IfNone result ((n : ℕ) → stirs_at self.new n ≡ false) }
        ensures same { OnlyHears self.old self.new }
    {
        match self.tell_up() {
            Some(number) => Some(number),
            None => self.tell_link(),
        }
    }
}
