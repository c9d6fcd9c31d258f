//! Identities and their text.

ghost use Rattle.std.specs.Prelude.{◌≡◌, ◌++◌, ◌&&◌, IfOk, IfSome, is_some, true, nat_eq};
ghost use Rattle.std.specs.List.{list_all, starts_with, ends_with};
ghost use Rattle.std.specs.Str.{bytes_eq};
ghost use Rattle.hb_base.specs.IdentityText.{is_name_byte, is_name, identity_of, identity_of_parts, names_of, principal_of};
ghost use Rattle.hb_base.specs.Parts.{parts};
ghost use Rattle.hb_base.specs.Pieces.{joined};

use crate::or::NoMemory;
use crate::parts::{cut_first, four_parts};
use crate::pieces::{pieces_end_with, pieces_equal, pieces_start_with};
use crate::text::Text;
use std::alloc::Global;

/// The identity of a workload, `spiffe://TRUST_DOMAIN/ns/NAMESPACE/sa/SERVICE_ACCOUNT` (the SPIFFE ID
/// specification, section 2).
#[derive(Drop)]
pub struct Identity {
    pub trust_domain: Text,
    pub namespace: Text,
    pub service_account: Text,
}

impl Identity {
    /// The same identity, in memory of its own.
    ///
    /// Errors: `NoMemory`.
    pub fn copy(&self, alloc: Global) -> Result<Identity, NoMemory>
        ensures { IfOk result (λ r. r ≡ self.now) }
    {
        Ok(Identity {
            trust_domain: self.trust_domain.copy(alloc)?,
            namespace: self.namespace.copy(alloc)?,
            service_account: self.service_account.copy(alloc)?,
        })
    }

    /// Whether its three parts are names: one or more of `A-Z a-z 0-9 . _ -`. What `read_identity` gives is.
    pub fn is_well_formed(&self) -> bool
        ensures { result ≡ (is_name self.now.trust_domain && is_name self.now.namespace && is_name self.now.service_account) }
    {
        is_name(self.trust_domain.as_slice())
            && is_name(self.namespace.as_slice())
            && is_name(self.service_account.as_slice())
    }

    /// Whether the principal, the text behind `spiffe://`, is this text.
    pub fn principal_equals(&self, text: &[u8]) -> bool
        ensures { result ≡ bytes_eq (principal_of self.now) text.now }
    {
        pieces_equal(&self.pieces(), text)
    }

    /// Whether the principal begins with this text.
    pub fn principal_starts_with(&self, prefix: &[u8]) -> bool
        ensures { result ≡ starts_with nat_eq (principal_of self.now) prefix.now }
    {
        pieces_start_with(&self.pieces(), prefix)
    }

    /// Whether the principal ends with this text.
    pub fn principal_ends_with(&self, suffix: &[u8]) -> bool
        ensures { result ≡ ends_with nat_eq (principal_of self.now) suffix.now }
    {
        pieces_end_with(&self.pieces(), suffix)
    }

    /// The pieces of the principal.
    fn pieces(&self) -> [&[u8]; 5]
        ensures { joined result ≡ principal_of self.now }
    {
        [
            self.trust_domain.as_slice(),
            b"/ns/",
            self.namespace.as_slice(),
            b"/sa/",
            self.service_account.as_slice(),
        ]
    }
}

fn is_name_byte(b: u8) -> bool
    ensures { result ≡ is_name_byte b }
{
    b.is_ascii_uppercase()
        || b.is_ascii_lowercase()
        || b.is_ascii_digit()
        || b == b'.'
        || b == b'_'
        || b == b'-'
}

fn has_name_bytes_alone(text: &[u8]) -> bool
    ensures { result ≡ list_all is_name_byte text.now }
{
    text.iter().all(|b| is_name_byte(*b))
}

fn is_name(text: &[u8]) -> bool
    ensures { result ≡ is_name text.now }
{
    !text.is_empty() && has_name_bytes_alone(text)
}

/// The three names of a principal, `TD/ns/NS/sa/SA`.
fn names(principal: &[u8]) -> Option<(&[u8], &[u8], &[u8])>
    ensures value { names_of result ≡ identity_of_parts (parts 47 principal.now) }
    ensures named { IfSome result (λ n. (is_name n.0.now ≡ true) × (is_name n.1.now ≡ true) × (is_name n.2.now ≡ true)) }
{
    let (trust_domain, rest) = cut_first(principal, b'/')?;
    let (namespace_word, namespace, account_word, account) = four_parts(rest, b'/')?;
    let spelled = is_name(trust_domain)
        && namespace_word == b"ns".as_slice()
        && is_name(namespace)
        && account_word == b"sa".as_slice()
        && is_name(account);
    if spelled {
        Some((trust_domain, namespace, account))
    } else {
        None
    }
}

/// The three names of an identity's text.
fn identity_names(b: &[u8]) -> Option<(&[u8], &[u8], &[u8])>
    ensures value { names_of result ≡ identity_of b.now }
    ensures named { IfSome result (λ n. (is_name n.0.now ≡ true) × (is_name n.1.now ≡ true) × (is_name n.2.now ≡ true)) }
{
    names(b.strip_prefix(b"spiffe://")?)
}

/// Whether `read_identity` reads an identity here. It takes no memory.
pub fn is_identity(b: &[u8]) -> bool
    ensures { result ≡ is_some (identity_of b.now) }
{
    identity_names(b).is_some()
}

/// A name as text.
fn name(alloc: Global, text: &[u8]) -> Result<Text, NoMemory>
    requires { is_name text.now ≡ true }
    ensures { IfOk result (λ r. r ≡ text.now) }
{
    match Text::of(alloc, text)? {
        Some(name) => Ok(name),
        None => unreachable!(),
    }
}

/// Reads an identity: `spiffe://TD/ns/NS/sa/SA`, each of TD, NS and SA one or more of `A-Z a-z 0-9 . _ -` (the SPIFFE
/// ID specification, section 2). `None` for every other text.
///
/// Errors: `NoMemory`.
pub fn read_identity(alloc: Global, b: &[u8]) -> Result<Option<Identity>, NoMemory>
    ensures { IfOk result (λ r. r ≡ identity_of b.now) }
{
    let Some((trust_domain, namespace, account)) = identity_names(b) else {
        return Ok(None);
    };
    Ok(Some(Identity {
        trust_domain: name(alloc, trust_domain)?,
        namespace: name(alloc, namespace)?,
        service_account: name(alloc, account)?,
    }))
}
