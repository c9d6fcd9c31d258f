//! Of hb_wire.

ghost use Rattle.std.specs.Prelude.{◌≡◌, IfOk, IfSome, IfNone, OnErr};
ghost use Rattle.hb_wire.specs.Field.{next_in};
ghost use Rattle.hb_wire.specs.Seen.{answer, IsInMemory};

use hb_wire::{Field, Fields, WireFault};

/// `Fields::next_field`, with its Errors and its None.
pub fn next_field<'a>(fields: &mut Fields<'a>) -> Result<Option<Field<'a>>, WireFault>
    ensures answer { answer result fields.new ≡ next_in fields.old }
    ensures end { IfOk result (λ f. IfNone f (fields.new ≡ fields.old)) }
    ensures fault { OnErr result (fields.new ≡ fields.old) }
    ensures span { IfOk result (λ f. IfSome f (λ f. IsInMemory f)) }
{
    fields.next_field()
}
