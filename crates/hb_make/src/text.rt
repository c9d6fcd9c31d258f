//! The text of a made script.

ghost use Rattle.std.specs.Prelude.{◌≡◌, ◌≤◌, ◌++◌, IfOk, OnOk, OnErr};
ghost use Rattle.hb_frames.specs.Numbers.{first_frame_size};
ghost use Rattle.hb_script.specs.Spelling.{lines_text};
ghost use Rattle.hb_make.specs.Made.{made};

use crate::lines::lines_made;
use hb_base::NoMemory;
use hb_script::put_line;
use hb_world::Line;
use std::alloc::Global;

fn text_of(alloc: Global, lines: &[Line]) -> Result<Vec<u8>, NoMemory>
    ensures { IfOk result (λ text. text.items ≡ lines_text lines.now) }
{
    let mut text = Vec::new(alloc);
    for line in lines {
        put_line(alloc, line, &mut text)?;
        text.push(b'\n')?;
    }
    Ok(text)
}

/// Appends the text of the script of n tunnels, at most 16,384, as `lines_made` says.
///
/// Errors: `NoMemory`, and then nothing is appended.
pub fn put_made(alloc: Global, n: u32, out: &mut Vec<u8>) -> Result<(), NoMemory>
    requires { n ≤ first_frame_size }
    ensures ok { OnOk result (out.new.items ≡ out.old.items ++ lines_text (made n)) }
    ensures err { OnErr result (out.new.items ≡ out.old.items) }
{
    let lines = lines_made(alloc, n)?;
    let text = text_of(alloc, lines.as_slice())?;
    out.extend_from_slice(text.as_slice())
}
