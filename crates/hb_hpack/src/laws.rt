//! Header blocks against their standard: laws of all blocks at once.

ghost use Rattle.std.specs.Prelude.{◌≡◌, ◌<◌, ◌⊎◌, ℕ, List};
ghost use Rattle.std.specs.List.{AllByRecursion};
ghost use Rattle.hb_hpack.specs.Block.{Reads};
ghost use Rattle.hb_hpack.specs.Breaks.{BreaksAt};
ghost use Rattle.hb_hpack.specs.Table.{Table};
ghost use Rattle.hb_hpack.specs.declared.fault.HpackWhy.{HpackWhy};
ghost use Rattle.hb_hpack.specs.declared.header.Header.{Header};

/// A block of octets stands for headers or is broken, and never both; it stands for one list of headers and leads to
/// one table, or it is broken at one place by one fault.
pub fn a_block_is_read_or_broken()
    ensures either { (table : Table) (block : List ℕ) → AllByRecursion (λ b. b < 256) block
        → ((headers : List Header) × (next : Table) × Reads table block headers next)
        ⊎ ((at : ℕ) × (why : HpackWhy) × BreaksAt table block at why) }
    ensures apart { (table : Table) (block : List ℕ) (headers : List Header) (next : Table) (at : ℕ) (why : HpackWhy)
        → Reads table block headers next → BreaksAt table block at why → ⊥ }
    ensures one_reading { (table : Table) (block : List ℕ) (headers others : List Header) (next last : Table)
        → Reads table block headers next → Reads table block others last → (headers ≡ others) × (next ≡ last) }
    ensures one_fault { (table : Table) (block : List ℕ) (at place : ℕ) (why other : HpackWhy)
        → BreaksAt table block at why → BreaksAt table block place other → (at ≡ place) × (why ≡ other) }
{}
