//! Of hb_base.

ghost use Rattle.std.specs.Prelude.{◌≡◌, ◌<◌, ◌≤◌, List, [], ℕ, length, IfOk, IfSome, OnOk};
ghost use Rattle.std.specs.Io.KnownBytes.{Consumes};
ghost use Rattle.hb_base.specs.Cidr.{covers};
ghost use Rattle.hb_base.specs.Count.{Counts};
ghost use Rattle.hb_base.specs.IdentityText.{identity_of};
ghost use Rattle.hb_base.specs.Reading.{read_failed};
ghost use Rattle.hb_base.specs.declared.reading.ReadStop.TheVariants.{TooLong};

use hb_base::{Bytes, Cidr, Identity, Ip, NoMemory, ReadStop, Source};
use std::alloc::Global;

/// `Cidr::covers`.
pub fn covers(cidr: &Cidr, ip: Ip) -> bool
    ensures { result ≡ covers cidr.now ip }
{
    cidr.covers(ip)
}

/// `read_identity`, with its Errors and its None.
pub fn read_identity(alloc: Global, b: &[u8]) -> Result<Option<Identity>, NoMemory>
    ensures { IfOk result (λ r. r ≡ identity_of b.now) }
{
    hb_base::read_identity(alloc, b)
}

/// `read_all`, with its Errors.
pub fn read_all<S: Source>(alloc: Global, source: &mut S, limit: usize) -> Result<Bytes, ReadStop>
    ensures whole { IfOk result (λ b. IfSome (S.left source.old) (λ left. b ≡ left)) }
    ensures within { IfOk result (λ b. length b ≤ limit) }
    ensures end { OnOk result (IfSome (S.left source.old) (λ _. S.left source.new ≡ Some [])) }
    ensures too_long { result ≡ Err TooLong → IfSome (S.left source.old) (λ left. limit < length left) }
    ensures over { result ≡ Err TooLong → (b : List ℕ) × (limit < length b) × Consumes (S.left source.old) (S.left source.new) b }
    ensures taken { (b : List ℕ) × Consumes (S.left source.old) (S.left source.new) b }
    ensures later { S.faults source.old ≤ S.faults source.new }
    ensures counts { Counts (S.faults source.old) (S.faults source.new) (read_failed result) }
{
    hb_base::read_all(alloc, source, limit)
}
