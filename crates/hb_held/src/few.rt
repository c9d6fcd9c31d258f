//! The addresses that the last response touched, where they are few.

ghost use Rattle.std.specs.Prelude.{◌≡◌, ◌++◌, ◌∷◌, [], map, IfSome};
ghost use Rattle.std.specs.Option.{option_copied};
ghost use Rattle.hb_index.specs.Index.{is_among};
ghost use Rattle.hb_held.specs.Few.{AreTouched, numbers_at, if_few, touched_few};
ghost use Rattle.hb_held.specs.Numbers.{number_of};

use crate::held::Held;
use crate::numbers::number_of;
use crate::versioned::Versioned;
use arrayvec::ArrayVec;
use hb_base::Ip;
use hb_records::AddressRecord;
use std::marker::Model;

/// At most eight addresses, by their numbers. Contracts see the list of these.
#[derive(Drop)]
pub struct Few {
    numbers: ArrayVec<u128, 8>,
}

impl Model for Few {
    ghost use Rattle.std.specs.Prelude.{List, ℕ, ◌≤◌, length};

    ghost Value = { List ℕ };

    ghost view = { λ f. f.numbers.items };

    ghost invariant = { λ f. length f.numbers.items ≤ 8 };
}

impl Few {
    /// No address.
    fn none() -> Few
        ensures { result ≡ [] }
    {
        Few {
            numbers: ArrayVec::new(),
        }
    }

    /// Whether an address has one of the numbers.
    pub fn may_be(&self, ip: Ip) -> bool
        ensures { result ≡ is_among self.now (number_of ip) }
    {
        let number = number_of(ip);
        self.numbers.as_slice().iter().any(|other| *other == number)
    }

    /// With one more; `None` where there is no room for it.
    fn with(self, ip: Ip) -> Option<Few>
        ensures { result ≡ if_few (self ++ number_of ip ∷ []) }
    {
        let mut few = self;
        match few.numbers.try_push(number_of(ip)) {
            Ok(()) => Some(few),
            Err(_) => None,
        }
    }

    /// With all of these; `None` where there is no room for all.
    fn with_all(self, ips: &[Ip]) -> Option<Few>
        ensures { result ≡ if_few (self ++ map number_of ips.now) }
    {
        let mut few = self;
        for ip in ips {
            few = few.with(*ip)?;
        }
        Some(few)
    }

    /// With all addresses of a workload that stands somewhere, or stood; `None` where there is no room for all.
    fn with_all_of(self, stands: Option<&Versioned<AddressRecord>>) -> Option<Few>
        ensures { result ≡ if_few (self ++ numbers_at (option_copied stands.entry)) }
    {
        match stands {
            Some(stands) => match &stands.content {
                AddressRecord::Workload(workload) => self.with_all(workload.addresses.as_slice()),
                AddressRecord::Service(_) => Some(self),
            },
            None => Some(self),
        }
    }
}

impl Held {
    /// The addresses of the workloads that stand or stood under the names that the last response changed, where these are at most eight
    /// and it changed no policy: all that it touched, and perhaps others. `None` else. Takes no memory.
    pub fn touched_few(&self) -> Option<Few>
        ensures value { result ≡ touched_few self.now }
        ensures all { IfSome result (λ few. AreTouched self.now few) }
    {
        if self.policies.past().len() != 0 {
            return None;
        }
        let mut few = Few::none();
        let mut rest = self.addresses.past().iter();
        while let Some((name, stood)) = rest.next() {
            let before = few.with_all_of(stood.as_ref())?;
            few = before.with_all_of(self.addresses.now().get(name))?;
        }
        Some(few)
    }
}
