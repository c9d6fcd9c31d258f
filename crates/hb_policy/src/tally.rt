//! What policies say together.

ghost use Rattle.std.specs.Prelude.{◌≡◌, ◌∷◌, [], List};
ghost use Rattle.hb_records.specs.declared.authorization.Authorization.{Authorization as Policy};
ghost use Rattle.hb_policy.specs.Connection.{Connection};
ghost use Rattle.hb_policy.specs.Policy.{admitted_by};
ghost use Rattle.hb_policy.specs.Tally.{StandsFor, Adds};

use crate::policy::fires;
use hb_base::{Peer, Target};
use hb_records::{Action, Authorization};

/// The policies counted so far, all for one connection: a tally tells whether they admit it.
#[derive(Drop)]
pub struct Tally {
    /// A policy that denies fires.
    is_denied: bool,
    /// There is a policy that allows.
    has_allow: bool,
    /// One of those fires.
    is_allowed: bool,
}

impl Tally {
    /// No policy is counted.
    pub fn new() -> Tally
        ensures { (c : Connection) → StandsFor result c [] }
    {
        Tally {
            is_denied: false,
            has_allow: false,
            is_allowed: false,
        }
    }

    /// Counts one more policy for the connection of `peer` to `target`.
    pub fn count(&mut self, a: &Authorization, peer: &Peer, target: Target)
        ensures { Adds (a.now ∷ []) (record { peer = peer.now; target = target }) self.old self.new }
    {
        let fires = fires(a, peer, target);
        match a.action {
            Action::Deny => self.is_denied = self.is_denied || fires,
            Action::Allow => {
                self.has_allow = true;
                self.is_allowed = self.is_allowed || fires;
            }
        }
    }

    /// Whether the policies counted admit the connection: none that denies fires, and there is none that allows or one
    /// of them fires.
    pub fn admits(&self) -> bool
        ensures { (c : Connection) (policies : List Policy) → StandsFor self.now c policies → result ≡ admitted_by c policies }
    {
        !self.is_denied && (!self.has_allow || self.is_allowed)
    }
}
