//! The attributes of a match: which of their values match a connection.

ghost use Rattle.std.specs.Prelude.{◌≡◌};
ghost use Rattle.std.specs.List.{list_any};
ghost use Rattle.hb_base.specs.IdentityText.{principal_of};
ghost use Rattle.hb_policy.specs.Policy.{text_matches, is_met, is_avoided};

use hb_base::{Cidr, Identity, Ip, List, Peer};
use hb_records::StringMatch;

/// What a connection has for an attribute: it tells which values match.
pub trait Attribute {
    ghost use Rattle.std.specs.Prelude.{◌≡◌, Bool};

    type Value;

    ghost matched: { Self → Self.Value → Bool };

    /// Whether this value matches.
    fn matches(&self, value: &Self::Value) -> bool
        ensures { result ≡ matched self.now value.now };
}

/// The namespace of a peer's identity. Without an identity no value matches.
#[derive(Clone, Copy)]
pub struct NamespaceOf<'a>(pub &'a Peer);

/// The principal of a peer's identity. Without an identity no value matches.
#[derive(Clone, Copy)]
pub struct PrincipalOf<'a>(pub &'a Peer);

fn text_matches(text: &[u8], value: &StringMatch) -> bool
    ensures { result ≡ text_matches value.now text.now }
{
    match value {
        StringMatch::Exact(whole) => text == whole.as_slice(),
        StringMatch::Prefix(front) => text.starts_with(front.as_slice()),
        StringMatch::Suffix(end) => text.ends_with(end.as_slice()),
        StringMatch::Presence => !text.is_empty(),
    }
}

fn principal_matches(identity: &Identity, value: &StringMatch) -> bool
    ensures { result ≡ text_matches value.now (principal_of identity.now) }
{
    match value {
        StringMatch::Exact(whole) => identity.principal_equals(whole.as_slice()),
        StringMatch::Prefix(front) => identity.principal_starts_with(front.as_slice()),
        StringMatch::Suffix(end) => identity.principal_ends_with(end.as_slice()),
        StringMatch::Presence => !identity.principal_equals(b""),
    }
}

impl Attribute for NamespaceOf<'_> {
    ghost use Rattle.std.specs.Option.{option_map};
    ghost use Rattle.hb_policy.specs.Policy.{matches};

    type Value = StringMatch;

    ghost matched = { λ s value. matches (option_map (λ i. i.namespace) s.0.now.identity) value };

    fn matches(&self, value: &StringMatch) -> bool {
        match &self.0.identity {
            Some(identity) => text_matches(identity.namespace.as_slice(), value),
            None => false,
        }
    }
}

impl Attribute for PrincipalOf<'_> {
    ghost use Rattle.std.specs.Option.{option_map};
    ghost use Rattle.hb_base.specs.IdentityText.{principal_of};
    ghost use Rattle.hb_policy.specs.Policy.{matches};

    type Value = StringMatch;

    ghost matched = { λ s value. matches (option_map principal_of s.0.now.identity) value };

    fn matches(&self, value: &StringMatch) -> bool {
        match &self.0.identity {
            Some(identity) => principal_matches(identity, value),
            None => false,
        }
    }
}

/// An address matches the prefixes that cover it.
impl Attribute for Ip {
    ghost use Rattle.hb_policy.specs.Policy.{is_covered};

    type Value = Cidr;

    ghost matched = { is_covered };

    fn matches(&self, value: &Cidr) -> bool {
        value.covers(*self)
    }
}

/// A port matches its number.
impl Attribute for u16 {
    ghost use Rattle.hb_policy.specs.Policy.{has_number};

    type Value = u32;

    ghost matched = { has_number };

    fn matches(&self, value: &u32) -> bool {
        u32::from(*self) == *value
    }
}

fn is_any<A: Attribute>(attribute: &A, values: &List<A::Value>) -> bool
    ensures { result ≡ list_any (A.matched attribute.now) values.now }
{
    values
        .as_slice()
        .iter()
        .any(|value| attribute.matches(value))
}

/// A positive list is met: it is empty, or one of its values matches.
pub fn is_met<A: Attribute>(attribute: &A, values: &List<A::Value>) -> bool
    ensures { result ≡ is_met (A.matched attribute.now) values.now }
{
    values.is_empty() || is_any(attribute, values)
}

/// A negative list is met: none of its values matches.
pub fn is_avoided<A: Attribute>(attribute: &A, values: &List<A::Value>) -> bool
    ensures { result ≡ is_avoided (A.matched attribute.now) values.now }
{
    !is_any(attribute, values)
}
