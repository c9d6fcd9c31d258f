//! In which classes a tunnel is counted.

ghost use Rattle.std.specs.Prelude.{◌≡◌};
ghost use Rattle.hb_link.specs.Classing.{may_go, end_may_go};

use crate::tunnel::{Stage, Tunnel};
use hb_counted::{Classed, Classes};
use hb_tunnel::DOWN_SIZE;

impl Tunnel {
    /// While it lives END_STREAM may be put, or it may be over, as far as it alone tells.
    fn end_may_go(&self) -> bool
        ensures { result ≡ end_may_go self.now }
    {
        self.ways.down_done() && (!self.end_put || self.ways.done())
    }

    /// While it lives something may be put of it, as far as it alone tells.
    fn may_go(&self) -> bool
        ensures { result ≡ may_go self.now }
    {
        self.ways.room_down() < DOWN_SIZE || self.end_may_go()
    }
}

impl Classed for Tunnel {
    ghost use Rattle.hb_link.specs.Classing.{classes_here};

    ghost classes_of = { classes_here };

    fn classes(&self) -> Classes {
        let none = Classes::none();
        match self.stage {
            Stage::Due => Classes {
                place: true,
                due: true,
                ..none
            },
            Stage::Opening => Classes {
                place: true,
                ..none
            },
            Stage::Live => Classes {
                place: true,
                due: self.may_shut(),
                puts: self.may_go(),
                ends: self.end_may_go(),
                ..none
            },
            Stage::Failed(_) | Stage::Ended(_) => Classes {
                marked: true,
                ..none
            },
            Stage::Over(_) => Classes { due: true, ..none },
        }
    }
}
