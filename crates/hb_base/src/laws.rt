//! Laws of the texts, which no code calls: each is proved, and its body is empty.

ghost use Rattle.hb_base.specs.IdentityText.{ReadsPrincipalsAlone};
ghost use Rattle.hb_base.specs.IpText.{ReadsSpelledAddressesAlone, ReadsWrittenAddresses};
ghost use Rattle.hb_base.specs.TargetText.{ReadsWrittenTargets};

/// A text is read as an address exactly where it spells it.
pub fn addresses_are_read_as_they_are_spelled()
    ensures { ReadsSpelledAddressesAlone }
{}

/// What is written of an address is read as it.
pub fn written_addresses_are_read()
    ensures { ReadsWrittenAddresses }
{}

/// What is written of a target is read as it.
pub fn written_targets_are_read()
    ensures { ReadsWrittenTargets }
{}

/// Exactly `spiffe://` and a principal of three names is read as that principal's identity.
pub fn identities_are_read_as_they_are_spelled()
    ensures { ReadsPrincipalsAlone }
{}
