//! Links that were touched.

ghost use Rattle.std.specs.Prelude.{◌≡◌, [], true, None, IfNone};
ghost use Rattle.hb_relays.specs.Touched.{is_idle, touched, TakesOut};

use crate::few::Few;
use hb_map::ById;

/// The numbers of links that were touched: those that are listed, in the order in which they were touched, and all from a number on.
#[derive(Drop)]
pub(crate) struct Touched {
    pub listed: Few,
    pub from: Option<u64>,
}

impl Touched {
    /// None was.
    pub fn new() -> Touched
        ensures { is_idle result ≡ true }
    {
        Touched {
            listed: Few::new(),
            from: None,
        }
    }

    /// None is left.
    pub fn is_idle(&self) -> bool
        ensures { result ≡ is_idle self.now }
    {
        self.listed.is_empty() && self.from.is_none()
    }

    /// This one is touched.
    pub fn touch(&mut self, number: u64)
        ensures { self.new ≡ touched number self.old }
    {
        if self.listed.holds(number) {
            return;
        }
        if self.listed.has_room() {
            self.listed.push(number);
        } else {
            self.from = match self.from {
                None => Some(number),
                Some(from) => Some(from.min(number)),
            };
        }
    }

    /// Takes the first one out that is listed and kept.
    fn next_listed<T>(&mut self, relays: &ById<u64, T>) -> Option<u64>
        ensures next { TakesOut relays.now result self.old self.new }
        ensures none { IfNone result (self.new.listed ≡ []) }
    {
        while let Some(number) = self.listed.take_first() {
            if relays.get(number).is_some() {
                return Some(number);
            }
        }
        None
    }

    /// Takes the first one out from a number on.
    fn next_from<T>(&mut self, relays: &ById<u64, T>) -> Option<u64>
        requires { self.old.listed ≡ [] }
        ensures next { TakesOut relays.now result self.old self.new }
        ensures none { IfNone result (is_idle self.new ≡ true) }
    {
        let Some(from) = self.from else {
            return None;
        };
        self.from = None;
        let Some(number) = relays.first_from(from) else {
            return None;
        };
        self.from = number.checked_add(1);
        Some(number)
    }

    /// Takes one out that is kept. `None` where none is left.
    pub fn next<T>(&mut self, relays: &ById<u64, T>) -> Option<u64>
        ensures next { TakesOut relays.now result self.old self.new }
        ensures none { IfNone result (is_idle self.new ≡ true) }
    {
        match self.next_listed(relays) {
            Some(number) => Some(number),
            None => self.next_from(relays),
        }
    }
}
