//! Of hb_hpack.

ghost use Rattle.std.specs.Prelude.{◌≡◌, ℕ, List, Some, IfOk, IfSome, IsTrue};
ghost use Rattle.hb_hpack.specs.Huffman.{word, Spells, IsPrefixFree, are_ones};
ghost use Rattle.hb_hpack.specs.HuffmanSteps.{text_of};

use hb_base::{Bytes, NoMemory};
use std::alloc::Global;

/// `huffman_read`, with its Errors and its None.
pub fn huffman_read(alloc: Global, b: &[u8]) -> Result<Option<Bytes>, NoMemory>
    ensures found { IfOk result (λ r. IfSome r (λ text. Spells b.now text)) }
    ensures only { IfOk result (λ r. (text : List ℕ) → Spells b.now text → r ≡ Some text) }
    ensures exact { IfOk result (λ r. r ≡ text_of b.now) }
    ensures apart { IsPrefixFree }
    ensures last { IsTrue (are_ones (word 256)) }
{
    hb_hpack::huffman_read(alloc, b)
}
