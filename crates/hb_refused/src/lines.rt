//! Of hb_lines.

ghost use Rattle.std.specs.Prelude.{◌≡◌, IfOk};
ghost use Rattle.hb_held.specs.Rows.{row_as};
ghost use Rattle.hb_lines.specs.Outcome.{outcome_text};
ghost use Rattle.hb_lines.specs.Row.{row_text};

use hb_base::{NoMemory, Text};
use hb_disco::Kind;
use hb_held::{HeldRow, Outcome};
use std::alloc::Global;

/// `outcome_line`, with its Errors.
pub fn outcome_line(
    alloc: Global,
    kind: Kind,
    nonce: &Text,
    outcome: &Outcome,
) -> Result<Vec<u8>, NoMemory>
    ensures { IfOk result (λ line. line.items ≡ outcome_text kind nonce.now outcome.now) }
{
    hb_lines::outcome_line(alloc, kind, nonce, outcome)
}

/// `row_line`, with its Errors.
pub fn row_line(alloc: Global, row: &HeldRow<'_>) -> Result<Vec<u8>, NoMemory>
    ensures { IfOk result (λ line. line.items ≡ row_text (row_as row.now)) }
{
    hb_lines::row_line(alloc, row)
}
