//! What a response did, as a line.

ghost use Rattle.std.specs.Prelude.{◌≡◌, IfOk};
ghost use Rattle.serde_json.specs.View.{view};
ghost use Rattle.hb_lines.specs.Outcome.{kind_word, outcome_data, outcome_text};

use crate::value::{ToJson, array_of, line_of};
use crate::why::why_text;
use hb_base::{NoMemory, Text};
use hb_disco::Kind;
use hb_held::{Outcome, Refusal};
use serde_json::{Value, json};
use std::alloc::Global;

pub(crate) fn kind_word(kind: Kind) -> &'static str
    ensures { result.now ≡ kind_word kind }
{
    match kind {
        Kind::Address => "address",
        Kind::Authorization => "authorization",
    }
}

/// The resource's name, and why it was refused.
impl ToJson for Refusal {
    ghost use Rattle.hb_lines.specs.Outcome.{refusal_data};

    ghost told = { refusal_data };

    fn to_json(&self, alloc: Global) -> Result<Value, NoMemory> {
        let name = self.name.to_json(alloc)?;
        let why = why_text(alloc, self.why)?;
        json!(in alloc; {"name": name, "why": why})
    }
}

fn outcome_value(
    alloc: Global,
    kind: Kind,
    nonce: &Text,
    outcome: &Outcome,
) -> Result<Value, NoMemory>
    ensures { IfOk result (λ v. view v ≡ outcome_data kind nonce.now outcome.now) }
{
    let word = kind_word(kind);
    let nonce = nonce.to_json(alloc)?;
    let refused = array_of(alloc, outcome.refused.as_slice())?;
    let applied = outcome.applied;
    let removed = outcome.removed;
    json!(in alloc; {
        "applied": applied,
        "kind": word,
        "nonce": nonce,
        "refused": refused,
        "removed": removed
    })
}

/// What a response of this kind with this nonce did: compact JSON (RFC 8259), its keys in byte order, and a newline.
///
/// Errors: `NoMemory`.
#[tactic(auto, unfolding(crate::specs::Outcome::outcome_text))]
pub fn outcome_line(
    alloc: Global,
    kind: Kind,
    nonce: &Text,
    outcome: &Outcome,
) -> Result<Vec<u8>, NoMemory>
    ensures { IfOk result (λ line. line.items ≡ outcome_text kind nonce.now outcome.now) }
{
    let value = outcome_value(alloc, kind, nonce, outcome)?;
    line_of(alloc, &value)
}
