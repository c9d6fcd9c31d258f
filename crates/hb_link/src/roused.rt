//! The streams whose upstreams are roused.

ghost use Rattle.std.specs.Prelude.{◌≡◌, ℕ, true};
ghost use Rattle.hb_link.specs.Rousing.{Adds, AddsSome, is_roused, least};

use arrayvec::ArrayVec;

/// The streams on whose upstreams more may be read, or is to be written, than when that was told last. At most eight are kept
/// one by one; where they are more it is all streams from a number on.
#[derive(Drop)]
pub struct Roused {
    pub few: ArrayVec<u32, 8>,
    pub from: Option<u32>,
}

/// The lower of a number that may be there and another one.
fn least(from: Option<u32>, stream: u32) -> u32
    ensures { result ≡ least from stream }
{
    match from {
        None => stream,
        Some(from) => from.min(stream),
    }
}

impl Roused {
    /// Each stream.
    pub fn all() -> Roused
        ensures { (s : ℕ) → is_roused result s ≡ true }
    {
        Roused {
            few: ArrayVec::new(),
            from: Some(0),
        }
    }

    /// Each stream is from now on.
    pub fn add_all(&mut self)
        ensures { (s : ℕ) → is_roused self.new s ≡ true }
    {
        self.from = Some(0);
    }

    /// This stream is from now on.
    pub fn add(&mut self, stream: u32)
        ensures { Adds stream self.old self.new }
    {
        if self.few.as_slice().contains(&stream) {
            return;
        }
        if self.few.try_push(stream).is_err() {
            self.from = Some(least(self.from, stream));
        }
    }

    /// So it is where some bytes went of so many.
    pub fn went(&mut self, stream: u32, count: usize)
        ensures { AddsSome count stream self.old self.new }
    {
        if count > 0 {
            self.add(stream);
        }
    }
}
