//! The total line of a report.

ghost use Rattle.std.specs.Prelude.{◌≡◌, ◌++◌, string_bytes, IfOk, OnOk, OnErr};
ghost use Rattle.hb_report.specs.Total.{total_line};

use hb_base::NoMemory;
use hb_turns::Totals;
use std::alloc::Global;

pub(crate) fn total_text(alloc: Global, totals: &Totals) -> Result<String, NoMemory>
    ensures { IfOk result (λ text. string_bytes text ≡ total_line totals.now) }
{
    let Totals {
        links,
        accepted,
        revoked,
        up,
        down,
        lacked: _,
    } = *totals;
    format!(in alloc;
        "total: {links} links, {accepted} accepted, {revoked} revoked, {up} up, {down} down\n"
    )
}

/// Appends the total line.
///
/// Errors: `NoMemory`, and then nothing is appended.
pub fn put_total(alloc: Global, totals: &Totals, out: &mut Vec<u8>) -> Result<(), NoMemory>
    ensures ok { OnOk result (out.new.items ≡ out.old.items ++ total_line totals.now) }
    ensures err { OnErr result (out.new.items ≡ out.old.items) }
{
    let text = total_text(alloc, totals)?;
    out.extend_from_slice(text.as_bytes())
}
