//! Reading against spelling: laws of messages, said of all bytes at once.

ghost use Rattle.std.specs.Prelude.{◌≡◌, ◌↔◌, ◌<◌, ◌≤◌, ◌+◌, ◌^◌, ℕ, List, [], Option, Some, None, Ok, Err, length};
ghost use Rattle.std.specs.List.{All};
ghost use Rattle.hb_wire.specs.Breaks.{BreaksField, SpellsUpTo};
ghost use Rattle.hb_wire.specs.Field.{Content, Unread, varint, span, next_in};
ghost use Rattle.hb_wire.specs.Message.{message_of};
ghost use Rattle.hb_wire.specs.Spelling.{IsOctet, IsVarint, SpellsField, SpellsNext, SpellsMessage, NoField};
ghost use Rattle.hb_wire.specs.WireType.{varint_type, span_type};
ghost use Rattle.hb_wire.specs.Writing.{varint_of, tag_of, number_of, bytes_of};
ghost use Rattle.hb_wire.specs.declared.fault.WireFault.{WireFault as Fault};

/// The next field is the one that the bytes begin with; there is none where no byte is left, and a fault
/// where the bytes are broken so.
pub fn the_next_field_is_what_its_bytes_spell()
    ensures field { (u v : Unread) (f : Content) → All IsOctet u.left → (next_in u ≡ Ok (Some (f, v))) ↔ SpellsNext u f v }
    ensures end { (u : Unread) → (next_in u ≡ Ok None) ↔ (u.left ≡ []) }
    ensures fault { (u : Unread) (fault : Fault) → All IsOctet u.left → (next_in u ≡ Err fault)
        ↔ ((0 < length u.left) × BreaksField u.at u.left fault) }
{}

/// A message without a fault is the list of fields that its bytes spell, and bytes spell one list at most.
/// With a fault it is the fields that its bytes begin with, and behind them bytes that are broken so; where
/// bytes are broken, no field is in front.
pub fn a_message_is_what_its_bytes_spell()
    ensures whole { (at : ℕ) (bytes : List ℕ) (fields : List Content) → All IsOctet bytes
        → (message_of (record { at = at; left = bytes }) ≡ record { fields = fields; fault = None }) ↔ SpellsMessage at bytes fields }
    ensures one { (at : ℕ) (bytes : List ℕ) (fields others : List Content) → SpellsMessage at bytes fields → SpellsMessage at bytes others
        → fields ≡ others }
    ensures exact { (at : ℕ) (bytes : List ℕ) (fields : List Content) (fault : Option Fault) → All IsOctet bytes
        → (message_of (record { at = at; left = bytes }) ≡ record { fields = fields; fault = fault }) ↔ SpellsUpTo at bytes fields fault }
    ensures apart { (at : ℕ) (bytes : List ℕ) (fault : Fault) → BreaksField at bytes fault → NoField at bytes }
{}

/// What is written is spelled so, and a varint in no more bytes than any spelling of its number.
pub fn what_is_written_is_spelled_so()
    ensures varint { (n : ℕ) → n < 2 ^ 64 → IsVarint (varint_of n) n }
    ensures shortest { (bytes : List ℕ) (n : ℕ) → IsVarint bytes n → length (varint_of n) ≤ length bytes }
    ensures number { (at number v : ℕ) → 0 < number → number < 2 ^ 29 → 0 < v → v < 2 ^ 64 → SpellsField at (number_of number v)
        (record { number = number; at = at + length (tag_of number varint_type); value = varint v }) }
    ensures bytes { (at number : ℕ) (own : List ℕ) → 0 < number → number < 2 ^ 29 → length own < 2 ^ 64
        → SpellsField at (bytes_of number own)
        (record { number = number; at = at + length (tag_of number span_type) + length (varint_of (length own)); value = span own }) }
{}
