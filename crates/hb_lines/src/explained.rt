//! What a policy says of a connection, as a line.

ghost use Rattle.std.specs.Prelude.{◌≡◌, IfOk};
ghost use Rattle.serde_json.specs.View.{view};
ghost use Rattle.hb_lines.specs.Explained.{explained_data, explained_text};

use crate::address_fields::joined_text;
use crate::row::action_word;
use crate::value::line_of;
use hb_base::NoMemory;
use hb_quote::str_of;
use hb_records::Authorization;
use serde_json::{Value, json};
use std::alloc::Global;

fn explained_value(
    alloc: Global,
    policy: &Authorization,
    rule: Option<usize>,
) -> Result<Value, NoMemory>
    ensures { IfOk result (λ v. view v ≡ explained_data policy.now rule) }
{
    let action = action_word(policy.action);
    let name = joined_text(alloc, str_of(&policy.namespace), str_of(&policy.name))?;
    match rule {
        Some(rule) => json!(in alloc; {
            "action": action,
            "fires": true,
            "policy": name,
            "rule": rule
        }),
        None => json!(in alloc; {
            "action": action,
            "fires": false,
            "policy": name
        }),
    }
}

/// What a policy says of a connection whose first rule that is met is `rule`, counted from 0, or that meets none: compact JSON (RFC 8259),
/// its keys in byte order, and a newline.
///
/// Errors: `NoMemory`.
#[tactic(auto, unfolding(crate::specs::Explained::explained_text))]
pub fn explained_line(
    alloc: Global,
    policy: &Authorization,
    rule: Option<usize>,
) -> Result<Vec<u8>, NoMemory>
    ensures { IfOk result (λ line. line.items ≡ explained_text policy.now rule) }
{
    let value = explained_value(alloc, policy, rule)?;
    line_of(alloc, &value)
}
