//! Of hb_owed.

ghost use Rattle.std.specs.Prelude.{◌≡◌, ◌+◌, ◌≤◌};
ghost use Rattle.hb_frames.specs.Numbers.{largest};
ghost use Rattle.hb_owed.specs.Debts.{changed, credit_on, with_credit};

use hb_owed::Owed;

/// `Owed::owe_credit`.
pub fn owe_credit(owed: &mut Owed, stream: u32, n: u32)
    requires sum { credit_on owed.old stream + n ≤ largest }
    ensures { owed.new ≡ changed owed.old stream (with_credit n) }
{
    owed.owe_credit(stream, n);
}
