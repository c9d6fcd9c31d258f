//! A resource that was refused, as a line.

ghost use Rattle.std.specs.Prelude.{◌≡◌, string_bytes, IfOk};
ghost use Rattle.hb_lines.specs.Refused.{refused_text};

use crate::outcome::kind_word;
use crate::why::why_text;
use hb_base::NoMemory;
use hb_disco::Kind;
use hb_held::Refusal;
use hb_quote::{add_word, str_of};
use std::alloc::Global;

/// A resource of a response of this kind that was refused: `refused`, its kind, its name, and why, with a newline. A name or a reason that
/// doesn't stand as it is stands as a string of JSON (RFC 8259 section 7).
///
/// Errors: `NoMemory`.
pub fn refused_line(alloc: Global, kind: Kind, refusal: &Refusal) -> Result<String, NoMemory>
    ensures { IfOk result (λ line. string_bytes line ≡ refused_text kind refusal.now) }
{
    let word = kind_word(kind);
    let why = why_text(alloc, refusal.why)?;
    let mut line = format!(in alloc; "refused kind={word} name=")?;
    add_word(alloc, str_of(&refusal.name), &mut line)?;
    line.push_str(" why=")?;
    add_word(alloc, why.as_str(), &mut line)?;
    line.push_str("\n")?;
    Ok(line)
}
