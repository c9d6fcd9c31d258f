//! Lines that tell why there is no answer, or how a run ended.

ghost use Rattle.std.specs.Prelude.{◌≡◌, ◌≤◌};
ghost use Rattle.hb_cli.specs.Run.{WritesLine};

use hb_base::{Sink, put_all};

/// Writes a line as far as the sink takes it. Gives the status.
pub fn tell<E: Sink>(err: &mut E, line: &[u8], status: u8) -> u8
    ensures line { WritesLine (E.written err.old) (E.written err.new) (E.faults err.old) (E.faults err.new) line.now }
    ensures later { E.faults err.old ≤ E.faults err.new }
    ensures status { result ≡ status }
{
    let _ = put_all(err, line);
    status
}
