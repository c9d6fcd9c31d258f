//! Of hb_front.

ghost use Rattle.std.specs.Prelude.{length};
ghost use Rattle.hb_front.specs.Reading.{answer_of, IsAnswer, IsWithin};

use hb_front::FrontRead;

/// `read_front`.
pub fn read_front(b: &[u8]) -> FrontRead<'_>
    ensures answer { IsAnswer b.now (answer_of result) }
    ensures within { IsWithin (length b.now) result }
{
    hb_front::read_front(b)
}
