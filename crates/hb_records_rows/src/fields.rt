//! Messages by the rules of the Protocol Buffers encoding guide, with the fields that they spell.

use crate::tables::{bytes_of, fields_of, number, put, tell, tell_debug};
use hb_wire::{Field, FieldValue, Fields};
use std::process::Abort;

/// Messages, the place at which each stands in a larger one, and what they tell: each field as its number, place and
/// value, and what two calls behind them answer.
pub const MESSAGES: &str = "\
; 0; end. end.
# The guide's own messages.
08 96 01; 0; 1@1 150, end. end.
12 07 'testing; 0; 2@2 [116, 101, 115, 116, 105, 110, 103], end. end.
1a 03 08 96 01; 0; 3@2 [8, 150, 1], end. end.
08 96 01; 2; 1@3 150, end. end.
32 06 03 8e 02 9e a7 05; 0; 6@2 [3, 142, 2, 158, 167, 5], end. end.
08 fe ff ff ff ff ff ff ff ff 01; 0; 1@1 18446744073709551614, end. end.
# Each wire type, and several fields in a row.
09 01 02 03 04 05 06 07 08; 0; 1@1 eight 578437695752307201, end. end.
0d 01 02 03 04; 0; 1@1 four 67305985, end. end.
0a 00 10 00 0a 01 'a; 7; 1@9 [], 2@10 0, 1@13 [97], end. end.
# Varints that are longer than they need be, as a value, a tag and a length.
08 96 81 00; 0; 1@1 150, end. end.
88 00 05; 0; 1@2 5, end. end.
0a 81 00 'a; 0; 1@3 [97], end. end.
08 80 80 80 80 80 80 80 80 80 00; 0; 1@1 0, end. end.
# The largest value and the largest number.
08 ff ff ff ff ff ff ff ff ff 01; 0; 1@1 18446744073709551615, end. end.
f8 ff ff ff 0f 01; 0; 536870911@5 1, end. end.
# The bytes end inside the field.
0a 02 'a; 0; Truncated at byte 3. Truncated at byte 3.
0a 02 'a; 100; Truncated at byte 103. Truncated at byte 103.
80; 0; Truncated at byte 1. Truncated at byte 1.
08; 0; Truncated at byte 1. Truncated at byte 1.
08 80; 0; Truncated at byte 2. Truncated at byte 2.
09 01 02 03 04 05 06 07; 0; Truncated at byte 8. Truncated at byte 8.
0d 01 02 03; 0; Truncated at byte 4. Truncated at byte 4.
0a; 0; Truncated at byte 1. Truncated at byte 1.
0a 80; 0; Truncated at byte 2. Truncated at byte 2.
0a ff ff ff ff ff ff ff ff ff 01 'a; 0; Truncated at byte 12. Truncated at byte 12.
08 05 0a 01; 5; 1@6 5, Truncated at byte 9. Truncated at byte 9.
# A varint's tenth byte is above 1.
ff ff ff ff ff ff ff ff ff ff; 0; LongVarint at byte 9. LongVarint at byte 9.
80 80 80 80 80 80 80 80 80 80 01; 0; LongVarint at byte 9. LongVarint at byte 9.
08 ff ff ff ff ff ff ff ff ff 02; 0; LongVarint at byte 10. LongVarint at byte 10.
0a 80 80 80 80 80 80 80 80 80 02; 3; LongVarint at byte 13. LongVarint at byte 13.
# The number is 0 or above 536,870,911, which goes before a wire type that isn't one.
00; 0; BadNumber at byte 0. BadNumber at byte 0.
02 00; 0; BadNumber at byte 0. BadNumber at byte 0.
03; 0; BadNumber at byte 0. BadNumber at byte 0.
80 80 80 80 10 01; 0; BadNumber at byte 0. BadNumber at byte 0.
87 80 80 80 10; 0; BadNumber at byte 0. BadNumber at byte 0.
08 01 ff ff ff ff ff ff ff ff ff 01; 4; 1@5 1, BadNumber at byte 6. BadNumber at byte 6.
# The wire type is none.
0b; 0; BadType at byte 0. BadType at byte 0.
0c; 0; BadType at byte 0. BadType at byte 0.
0e 00; 0; BadType at byte 0. BadType at byte 0.
0f; 0; BadType at byte 0. BadType at byte 0.
10 01 8b 00 08 01; 0; 2@1 1, BadType at byte 2. BadType at byte 2.";

fn tell_field(told: &mut String, field: Field<'_>) {
    tell(told, &field.number, "@");
    tell(told, &field.at, " ");
    match field.value {
        FieldValue::Varint(n) => tell(told, &n, ", "),
        FieldValue::Eight(n) => {
            put(told, "eight ");
            tell(told, &n, ", ");
        }
        FieldValue::Four(n) => {
            put(told, "four ");
            tell(told, &n, ", ");
        }
        FieldValue::Span(bytes) => tell_debug(told, &bytes, ", "),
    }
}

/// The fields up to the first call that gives none, of so many calls.
fn tell_fields(told: &mut String, fields: &mut Fields<'_>, calls: usize) {
    for _ in 0..calls {
        match fields.next_field() {
            Ok(Some(field)) => tell_field(told, field),
            _ => break,
        }
    }
}

fn tell_end(told: &mut String, fields: &mut Fields<'_>) {
    match fields.next_field() {
        Ok(None) => put(told, "end. "),
        Ok(Some(_)) => put(told, "a field. "),
        Err(fault) => tell(told, &fault, ". "),
    }
}

pub fn tell_message(rt: &(impl Abort + AllocGlobal), told: &mut String, row: &str) {
    let (words, at) = fields_of(rt, row);
    let bytes = bytes_of(rt, words);
    let at = number(rt, at);
    assert!(rt; bytes.len() < 100 && at < 200);
    let mut fields = if at == 0 {
        Fields::over(&bytes)
    } else {
        Fields::within(&bytes, at)
    };
    tell_fields(told, &mut fields, bytes.len());
    tell_end(told, &mut fields);
    tell_end(told, &mut fields);
}
