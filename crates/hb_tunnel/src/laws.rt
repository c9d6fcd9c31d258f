//! Laws about the definitions that the contracts cite. Each is the contract of a function that does nothing.

ghost use Rattle.std.specs.Prelude.{◌∷◌, []};
ghost use Rattle.hb_tunnel.specs.Way.{IsFront};
ghost use Rattle.hb_tunnel.specs.Laws.{NothingIsLost, EndsStay, RoomIsKept, Carries};

/// Of each way: what was pushed is what was taken, followed by what is held.
pub fn nothing_is_lost()
    ensures { NothingIsLost }
{}

/// A way that has ended stays so.
pub fn ends_stay()
    ensures { EndsStay }
{}

/// No more than the size of its ring is ever held on a way where each push fits when it is made.
pub fn room_is_kept()
    ensures { RoomIsKept }
{}

/// What a way has to carry: bytes 1 and 2 that were pushed, of which 1 was taken, leave 2; not 1, nor nothing, and not 2
/// twice.
pub fn what_a_way_carries()
    ensures rest { Carries (1 ∷ 2 ∷ []) (1 ∷ []) (2 ∷ []) }
    ensures order { Carries (1 ∷ 2 ∷ []) (2 ∷ []) (1 ∷ []) → ⊥ }
    ensures lost { Carries (1 ∷ 2 ∷ []) (1 ∷ []) [] → ⊥ }
    ensures doubled { Carries (1 ∷ 2 ∷ []) (1 ∷ 2 ∷ []) (2 ∷ []) → ⊥ }
{}

/// What a head may hand out of the bytes 1 and 2: 1, or both; not 2, and not nothing.
pub fn what_a_head_is()
    ensures part { IsFront (1 ∷ []) (1 ∷ 2 ∷ []) }
    ensures whole { IsFront (1 ∷ 2 ∷ []) (1 ∷ 2 ∷ []) }
    ensures behind { IsFront (2 ∷ []) (1 ∷ 2 ∷ []) → ⊥ }
    ensures nothing { IsFront [] (1 ∷ 2 ∷ []) → ⊥ }
{}
