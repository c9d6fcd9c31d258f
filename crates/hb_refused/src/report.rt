//! Of hb_report.

ghost use Rattle.std.specs.Prelude.{◌≡◌, ◌++◌, OnOk, OnErr};
ghost use Rattle.hb_report.specs.Total.{total_line};

use hb_base::NoMemory;
use hb_turns::Totals;
use std::alloc::Global;

/// `put_total`, with its Errors.
pub fn put_total(alloc: Global, totals: &Totals, out: &mut Vec<u8>) -> Result<(), NoMemory>
    ensures ok { OnOk result (out.new.items ≡ out.old.items ++ total_line totals.now) }
    ensures err { OnErr result (out.new.items ≡ out.old.items) }
{
    hb_report::put_total(alloc, totals, out)
}
