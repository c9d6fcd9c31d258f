//! Laws over every machine that a node shows. Each is the contract of a function that does nothing.

ghost use Rattle.hb_node.specs.Laws.{RestsWhereNoneIsDue, BalksPass, WaitsPass, ReadsWhereRoom, AllIsPut};

/// Where `next_act` is None and the run goes on, nothing more happens by itself: every frame that came is looked at, and every
/// request that may go is put.
pub fn rests_where_none_is_due()
    ensures { RestsWhereNoneIsDue }
{}

/// A call that moved nothing, and a wait, aren't told to the node.
pub fn balks_pass()
    ensures balks { BalksPass }
    ensures waits { WaitsPass }
{}

/// Of a link that lives bytes are wanted wherever its output has room for 768 octets more.
pub fn reads_where_room()
    ensures { ReadsWhereRoom }
{}

/// The output of a link that lives is empty only where all that is owed on it was written.
pub fn all_is_put()
    ensures { AllIsPut }
{}
