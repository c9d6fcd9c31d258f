//! Numbers written in groups of seven bits.

ghost use Rattle.std.specs.Prelude.{◌≡◌, ◌++◌, OnOk};
ghost use Rattle.hb_base.specs.Groups.{groups_of, AppendsFront};

use crate::or::NoMemory;

/// Appends a number in groups of seven bits, the low ones first, in at most `most` bytes: all but the last have the high bit set.
///
/// Errors: `NoMemory`, and then a front of it is appended.
pub fn put_groups(out: &mut Vec<u8>, n: u64, most: u8) -> Result<(), NoMemory>
    ensures ok { OnOk result (out.new.items ≡ out.old.items ++ groups_of most n) }
    ensures front { AppendsFront out.old.items out.new.items (groups_of most n) }
{
    if most == 0 {
        return Ok(());
    }
    if n < 128 {
        out.push(n as u8)?;
        return Ok(());
    }
    out.push((n % 128) as u8 + 128)?;
    put_groups(out, n / 128, most - 1)
}
