//! Laws about the definitions that the contracts cite. Each is the contract of a function that does nothing.

ghost use Rattle.hb_conn.specs.Laws.{FramesKeepUp, StatusesKeepUp, EndsKeepUp, CreditKeepsUp, OpeningKeepsUp};
ghost use Rattle.hb_conn.specs.Laws.{WritesCatchUp, ResetsCatchUp};

/// Where the output has room for 17 octets nothing is owed: it stays so with all that this end puts, and is so after each
/// write and each reset.
pub fn nothing_is_owed_with_room()
    ensures frames { FramesKeepUp }
    ensures statuses { StatusesKeepUp }
    ensures ends { EndsKeepUp }
    ensures credit { CreditKeepsUp }
    ensures opening { OpeningKeepsUp }
    ensures writes { WritesCatchUp }
    ensures resets { ResetsCatchUp }
{}
