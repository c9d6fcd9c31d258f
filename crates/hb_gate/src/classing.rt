//! In which classes a stream is counted.

use crate::stream::Stream;
use hb_counted::{Classed, Classes};

/// One is marked while its tunnel is to be told its end, and due while it is to be reset.
impl Classed for Stream {
    ghost use Rattle.hb_gate.specs.Classing.{classes_here};

    ghost classes_of = { classes_here };

    fn classes(&self) -> Classes {
        Classes {
            marked: self.mail.is_some(),
            due: self.stage.code().is_some(),
            ..Classes::none()
        }
    }
}
