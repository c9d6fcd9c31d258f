//! Why a text is no script.

use thiserror::Error;

/// Why a row of the text is no line. They are looked for in this order.
#[derive(Clone, Copy, Debug, Error)]
pub enum ScriptWhy {
    /// It is no JSON in UTF-8, or is nested more than 127 deep.
    #[error("not json")]
    NotJson,
    #[error("not an object")]
    NotObject,
    /// Its keys are those of no form.
    #[error("bad keys")]
    BadKeys,
    /// A value isn't what its key wants.
    #[error("bad value")]
    BadValue,
    /// The bytes have an odd number of digits, or a character that is no hexadecimal digit.
    #[error("bad hex")]
    BadHex,
}

/// The first row that is no line. Rows are counted from 1, empty ones too.
#[derive(Clone, Copy, Debug, Error)]
#[error("line {line}: {why}")]
pub struct ScriptFault {
    pub line: u64,
    pub why: ScriptWhy,
}
