//! Where the world tells why it failed.

/// Takes lines for whoever runs the program.
pub trait Log {
    /// Takes a line, with its newline. It may wait until a flush.
    fn line(&mut self, line: &str);

    /// Writes what waits, as far as that goes at once.
    fn flush(&mut self);
}
