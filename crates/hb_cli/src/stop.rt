//! Why a command has no answer.

ghost use Rattle.std.specs.Prelude.{◌≡◌, IfOk};
ghost use Rattle.std.specs.String.{string_bytes};
ghost use Rattle.hb_cli.specs.Run.{why_text, row_text, stop_line};
ghost use Rattle.hb_cli.specs.declared.input.Refused.TheVariants as refused;
ghost use Rattle.hb_cli.specs.declared.stop.Stop.TheVariants as stops;

use crate::input::{InputWhy, Refused};
use hb_base::NoMemory;
use hb_script::{ScriptFault, ScriptWhy};
use hb_words::WordsFault;
use std::alloc::Global;

/// Why a command has no answer.
#[derive(Drop)]
pub enum Stop {
    /// The words aren't accepted.
    Words(WordsFault),
    /// The input has more than 67,108,864 bytes.
    TooLong,
    /// A message of the input is refused, or a line of it.
    Refused(Refused),
    /// The input couldn't be read.
    ReadFault,
    NoMemory,
}

impl InputWhy {
    fn text(self) -> &'static str
        ensures { result.now ≡ why_text self }
    {
        match self {
            InputWhy::Compressed => "compressed",
            InputWhy::TooLong => "too long",
            InputWhy::CutShort => "cut short",
            InputWhy::NotAResponse => "not a response",
        }
    }
}

/// Why a row of a script is no line.
fn row_text(why: ScriptWhy) -> &'static str
    ensures { result.now ≡ row_text why }
{
    match why {
        ScriptWhy::NotJson => "not json",
        ScriptWhy::NotObject => "not an object",
        ScriptWhy::BadKeys => "bad keys",
        ScriptWhy::BadValue => "bad value",
        ScriptWhy::BadHex => "bad hex",
    }
}

fn message_line(alloc: Global, number: u64, why: InputWhy) -> Result<String, NoMemory>
    ensures { IfOk result (λ l. string_bytes l ≡ stop_line (stops.Refused (refused.Message number why))) }
{
    let why = why.text();
    format!(in alloc; "hbone: message {number}: {why}\n")
}

fn row_line(alloc: Global, fault: ScriptFault) -> Result<String, NoMemory>
    ensures { IfOk result (λ l. string_bytes l ≡ stop_line (stops.Refused (refused.Line fault))) }
{
    let number = fault.line;
    let why = row_text(fault.why);
    format!(in alloc; "hbone: line {number}: {why}\n")
}

impl Refused {
    /// The line that tells it.
    ///
    /// Errors: `NoMemory`.
    pub fn line(self, alloc: Global) -> Result<String, NoMemory>
        ensures { IfOk result (λ l. string_bytes l ≡ stop_line (stops.Refused self)) }
    {
        match self {
            Refused::Message { number, why } => message_line(alloc, number, why),
            Refused::Line(fault) => row_line(alloc, fault),
        }
    }
}
