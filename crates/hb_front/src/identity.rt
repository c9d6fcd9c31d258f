//! The identity among type-length-values (PROXY protocol section 2.2).

ghost use Rattle.std.specs.Prelude.{◌≡◌, ◌++◌, List, ℕ, [], ◌∷◌, IfOk, IfErr, IfSome, IfNone};
ghost use Rattle.hb_front.specs.Tlvs.{Tlv, AreTlvs, identities};
ghost use Rattle.hb_front.specs.Found.{IsFirstTlv, HasNoTlv, AreFound, ReadsIdentity};

use crate::fault::FrontFault;
use hb_base::is_identity;

/// The type of the identity, the first of those for own use (PROXY protocol section 2.2.8).
pub(crate) const IDENTITY: u8 = 0xe0;

/// What the type-length-values of the identity's type hold, as far as it matters.
#[derive(Clone, Copy)]
pub(crate) enum Found<'a> {
    Nothing,
    One(&'a [u8]),
    Several,
}

impl<'a> Found<'a> {
    /// With one more value.
    fn with(self, value: &'a [u8]) -> Found<'a>
        ensures { (vs : List (List ℕ)) → AreFound self.entry vs → AreFound result (vs ++ value.now ∷ []) }
    {
        match self {
            Found::Nothing => Found::One(value),
            Found::One(_) | Found::Several => Found::Several,
        }
    }
}

/// Type and value of the type-length-value in front, and the bytes behind it; `None` where it passes their end.
fn first_tlv(b: &[u8]) -> Option<(u8, &[u8], &[u8])>
    ensures some { IfSome result (λ found. IsFirstTlv b.now found.0 found.1.now found.2.now) }
    ensures none { IfNone result (HasNoTlv b.now) }
{
    if b.len() < 3 {
        return None;
    }
    let (head, rest) = b.split_at(3);
    let size = u16::from_be_bytes([head[1], head[2]]) as usize;
    if rest.len() < size {
        return None;
    }
    let (value, behind) = rest.split_at(size);
    Some((head[0], value, behind))
}

/// What the type-length-values of the identity's type hold: `BadLength` where one of any type passes the end.
fn found_in(tlvs: &[u8]) -> Result<Found<'_>, FrontFault>
    ensures ok { IfOk result (λ found. (all : List Tlv) × AreTlvs tlvs.now all × AreFound found (identities all)) }
    ensures err { IfErr result (λ fault. (fault ≡ FrontFault.BadLength) × ((all : List Tlv) → AreTlvs tlvs.now all → ⊥)) }
{
    let mut found = Found::Nothing;
    let mut rest = tlvs;
    while !rest.is_empty() {
        let Some((kind, value, behind)) = first_tlv(rest) else {
            return Err(FrontFault::BadLength);
        };
        if kind == IDENTITY {
            found = found.with(value);
        }
        rest = behind;
    }
    Ok(found)
}

/// The text of the identity that type-length-values tell.
pub(crate) fn identity_in(tlvs: &[u8]) -> Result<Option<&[u8]>, FrontFault>
    ensures { ReadsIdentity tlvs.now result }
{
    match found_in(tlvs)? {
        Found::Nothing => Ok(None),
        Found::One(text) if is_identity(text) => Ok(Some(text)),
        Found::One(_) | Found::Several => Err(FrontFault::BadIdentity),
    }
}
