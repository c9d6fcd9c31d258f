//! String fields.

ghost use Rattle.hb_base.specs.Outcome.{Answers, Merges};
ghost use Rattle.hb_message.specs.Reading.{text_by};

use crate::fault::MessageFault;
use hb_base::{Or, Text, is_utf8};
use std::alloc::Global;

/// A string field, which has to be UTF-8 (Protocol Buffers language guide, "Scalar Value Types").
///
/// Errors: the fault `of_utf8` of this field, where it isn't; and `NoMemory`.
pub fn read_text<F: MessageFault>(alloc: Global, field: u32, bytes: &[u8]) -> Result<Text, Or<F>>
    ensures { Answers result (text_by F.utf8 field bytes.now) }
{
    match Text::of(alloc, bytes)? {
        Some(text) => Ok(text),
        None => Err(Or::Fault(F::of_utf8(field))),
    }
}

/// The same, put in the place of a text.
///
/// Errors: as for `read_text`.
pub fn take_text<F: MessageFault>(
    alloc: Global,
    field: u32,
    bytes: &[u8],
    text: &mut Text,
) -> Result<(), Or<F>>
    ensures { Merges (text_by F.utf8 field bytes.now) text.new result }
{
    *text = read_text(alloc, field, bytes)?;
    Ok(())
}

/// Looks whether a string field that isn't kept is UTF-8.
///
/// Errors: the fault `of_utf8` of this field, where it isn't.
pub fn check_text<F: MessageFault>(field: u32, bytes: &[u8]) -> Result<(), Or<F>>
    ensures { Merges (text_by F.utf8 field bytes.now) bytes.now result }
{
    if is_utf8(bytes) {
        return Ok(());
    }
    Err(Or::Fault(F::of_utf8(field)))
}
