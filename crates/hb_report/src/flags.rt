//! Which lines a report has.

/// What was asked of a report. A brief one is the total line alone, whatever else is asked.
#[derive(Clone, Copy)]
pub struct Flags {
    /// The lines of the trace.
    pub trace: bool,
    /// The total line alone.
    pub brief: bool,
}
