//! What is counted of a value.

ghost use Rattle.std.specs.Prelude.{◌≡◌};
ghost use Rattle.hb_counted.specs.Classes.{in_none};

/// In which classes a value is.
#[derive(Clone, Copy)]
pub struct Classes {
    /// It takes a place.
    pub place: bool,
    /// It is marked: something is still to be done with it.
    pub marked: bool,
    /// A call is due of it.
    pub due: bool,
    /// It may have something to be put.
    pub puts: bool,
    /// Its end may follow.
    pub ends: bool,
}

impl Classes {
    /// None of them.
    pub fn none() -> Classes
        ensures { result ≡ in_none }
    {
        Classes {
            place: false,
            marked: false,
            due: false,
            puts: false,
            ends: false,
        }
    }
}

/// A value that is in some of the classes.
pub trait Classed {
    ghost use Rattle.std.specs.Prelude.{◌≡◌};
    ghost use Rattle.hb_counted.specs.declared.classes.Classes.{Classes};

    /// The classes that it is in.
    ghost classes_of: { Self → Classes };

    /// Those.
    fn classes(&self) -> Classes
        ensures { result ≡ classes_of self.now };
}
