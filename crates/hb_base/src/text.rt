//! Owned UTF-8 text.

ghost use Rattle.std.specs.Prelude.{◌≡◌, ◌↔◌, [], IfOk, IsSome};
ghost use Rattle.std.specs.Str.{IsUtf8};
ghost use Rattle.hb_base.specs.Utf8.{text_of};

use crate::or::NoMemory;
use crate::place::Place;
use crate::short::Short;
use crate::utf8::is_utf8;
use std::alloc::Global;
use std::cmp::Ordering;
use std::marker::Model;

/// Owned text; up to 23 bytes take no memory. Contracts see it as the list of its bytes, which is always UTF-8.
#[derive(Drop)]
pub struct Text {
    place: Place,
}

impl Model for Text {
    ghost use Rattle.std.specs.Prelude.{List, ℕ};
    ghost use Rattle.std.specs.Str.{IsUtf8};
    ghost use Rattle.hb_base.specs.Place.{bytes_at};

    ghost Value = { List ℕ };

    ghost view = { λ t. bytes_at t.place };

    ghost invariant = { λ t. IsUtf8 (bytes_at t.place) };
}

impl Text {
    /// A copy of these bytes as text; `None` exactly where they aren't UTF-8 (RFC 3629).
    ///
    /// Errors: `NoMemory`.
    pub fn of(alloc: Global, b: &[u8]) -> Result<Option<Text>, NoMemory>
        ensures found { IfOk result (λ r. IsSome r ↔ IsUtf8 b.now) }
        ensures value { IfOk result (λ r. r ≡ text_of b.now) }
    {
        if !is_utf8(b) {
            return Ok(None);
        }
        let place = Place::of(alloc, b)?;
        Ok(Some(Text { place }))
    }

    /// A copy of these characters.
    ///
    /// Errors: `NoMemory`.
    pub fn of_str(alloc: Global, text: &str) -> Result<Text, NoMemory>
        ensures { IfOk result (λ t. t ≡ text.now) }
    {
        let place = Place::of(alloc, text.as_bytes())?;
        Ok(Text { place })
    }

    /// The empty text, which takes no memory.
    pub fn empty(_alloc: Global) -> Text
        ensures { result ≡ [] }
    {
        Text {
            place: Place::Short(Short::new()),
        }
    }

    /// The text's bytes.
    pub fn as_slice(&self) -> &[u8]
        ensures value { result.now ≡ self.now }
        ensures utf8 { IsUtf8 self.now }
    {
        self.place.as_slice()
    }

    /// A copy of this text.
    ///
    /// Errors: `NoMemory`.
    pub fn copy(&self, alloc: Global) -> Result<Text, NoMemory>
        ensures { IfOk result (λ r. r ≡ self.now) }
    {
        let place = Place::of(alloc, self.as_slice())?;
        Ok(Text { place })
    }
}

const _: () = prove!(size_of::<Text>() == 32);

impl PartialEq for Text {
    ghost use Rattle.std.specs.Prelude.{◌==◌};
    ghost use Rattle.std.specs.Cmp.Lexicographic.{pointwise};
    ghost use Rattle.std.specs.Cmp.Rules.{comparing};
    ghost use Rattle.std.proofs.Common.{rules};

    ghost eq = { pointwise ◌==◌ };

    ghost laws = { Prim.search (comparing, rules) };

    fn eq(&self, other: &Text) -> bool {
        self.as_slice() == other.as_slice()
    }
}

impl Eq for Text {
    ghost use Rattle.std.specs.Cmp.Rules.{comparing};
    ghost use Rattle.std.proofs.Common.{rules};

    ghost laws = { Prim.search (comparing, rules) };
}

/// Texts are ordered by their bytes.
impl PartialOrd for Text {
    ghost use Rattle.std.specs.Cmp.Lexicographic.{slice_cmp};
    ghost use Rattle.std.specs.Cmp.Rules.{comparing};
    ghost use Rattle.std.specs.Cmp.{partial_order_from_own_ties};
    ghost use Rattle.std.specs.Ordering.{nat_cmp, as_partial_cmp};
    ghost use Rattle.std.proofs.Common.{rules};

    ghost partial_cmp = { as_partial_cmp (slice_cmp nat_cmp) };

    ghost laws = { partial_order_from_own_ties (Prim.search (comparing, rules)) (Prim.search (comparing, rules)) };

    fn partial_cmp(&self, other: &Text) -> Option<Ordering> {
        Some(self.cmp(other))
    }
}

impl Ord for Text {
    ghost use Rattle.std.specs.Cmp.Lexicographic.{slice_cmp};
    ghost use Rattle.std.specs.Cmp.Rules.{comparing};
    ghost use Rattle.std.specs.Ordering.{nat_cmp};
    ghost use Rattle.std.proofs.Common.{rules};

    ghost cmp = { slice_cmp nat_cmp };

    ghost total = { Prim.search (comparing, rules) };

    ghost matches_partial_cmp = { Prim.search (comparing, rules) };

    ghost matches_eq = { Prim.search (comparing, rules) };

    fn cmp(&self, other: &Text) -> Ordering {
        self.as_slice().cmp(other.as_slice())
    }
}
