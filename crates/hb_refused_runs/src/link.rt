//! Of hb_link.

ghost use Rattle.std.specs.Prelude.{◌≡◌, ◌≤◌, false, length, IfSome};
ghost use Rattle.hb_held.specs.Few.{AreTouched};
ghost use Rattle.hb_link.specs.Acts.{Acts};
ghost use Rattle.hb_link.specs.Calls.{Takes, Updates, UpGoes};
ghost use Rattle.hb_link.specs.Observed.{wants_on, up_held_on};
ghost use Rattle.hb_link.specs.Rousing.{Rouses};

use hb_held::{Few, Held};
use hb_link::{Link, Notes};
use hb_world::Act;

/// `Link::take_bytes`.
pub fn take_bytes<N: Notes>(
    link: &mut Link,
    held: &Held,
    others: usize,
    limit: usize,
    b: &[u8],
    notes: &mut N,
)
    requires { length b.now ≤ wants_on link.old }
    ensures takes { Takes held.now others limit b.now link.old (N.told notes.old) link.new (N.told notes.new) }
    ensures rouses { Rouses link.old link.new }
{
    link.take_bytes(held, others, limit, b, notes);
}

/// `Link::judge_all`.
pub fn judge_all<N: Notes>(link: &mut Link, held: &Held, few: Option<&Few>, notes: &mut N) -> bool
    requires { IfSome few (λ few. AreTouched held.now few.now) }
    ensures updates { Updates held.now link.old (N.told notes.old) link.new (N.told notes.new) }
    ensures same { result ≡ false → link.new ≡ link.old }
    ensures rouses { Rouses link.old link.new }
{
    link.judge_all(held, few, notes)
}

/// `Link::up_wrote`.
pub fn up_wrote<N: Notes>(link: &mut Link, stream: u32, n: usize, notes: &mut N)
    requires { n ≤ length (up_held_on link.old stream) }
    ensures goes { UpGoes stream n link.old (N.told notes.old) link.new (N.told notes.new) }
    ensures rouses { Rouses link.old link.new }
{
    link.up_wrote(stream, n, notes);
}

/// `Link::next_act`, with its None.
pub fn next_act(link: &mut Link) -> Option<Act>
    ensures acts { Acts result link.old link.new }
    ensures number { link.new.number ≡ link.old.number }
    ensures rouses { Rouses link.old link.new }
{
    link.next_act()
}
