//! Where lines go.

/// Takes lines for whoever runs the program.
pub trait Log {
    ghost use Rattle.std.specs.Prelude.{List, ℕ, Option};
    ghost use Rattle.std.specs.Io.KnownBytes.{Appends};

    /// All that was handed to it, where it tells that.
    ghost handed: { Self → Option (List ℕ) };

    /// Takes a line, with its newline.
    fn line(&mut self, line: &str)
        ensures { Appends (handed self.old) (handed self.new) line.now };

    /// Takes a line of a tunnel, with its newline, which stands beside those of notes.
    fn beside(&mut self, line: &str)
        ensures { Appends (handed self.old) (handed self.new) line.now };
}
