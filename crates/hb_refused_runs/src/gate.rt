//! Of hb_gate.

ghost use Rattle.std.specs.Prelude.{◌≡◌, ◌<◌, true, IfOk};
ghost use Rattle.hb_gate.specs.Looking.{Looks, is_more, left_to_look};

use hb_base::NoMemory;
use hb_gate::{Gate, Look};

/// `Gate::look`, with its Errors.
pub fn look(gate: &mut Gate, bytes: &mut Vec<u8>) -> Result<Look, NoMemory>
    ensures looks { IfOk result (λ look. Looks look bytes.new.items gate.old gate.new) }
    ensures falls { IfOk result (λ look. is_more look ≡ true → left_to_look gate.new < left_to_look gate.old) }
{
    gate.look(bytes)
}
