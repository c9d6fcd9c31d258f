//! A text cut at a separator.

ghost use Rattle.std.specs.Prelude.{◌≡◌, ◌≢◌, [], ◌∷◌, length, MatchOption};
ghost use Rattle.hb_base.specs.Parts.{parts, cut_first as cut_at_first, cut_last as cut_at_last, cut_lists};

/// What stands before and after the first separator.
pub(crate) fn cut_first(text: &[u8], separator: u8) -> Option<(&[u8], &[u8])>
    ensures { cut_lists result ≡ cut_at_first separator text.now }
{
    let mut at = 0;
    while at < text.len() {
        if text[at] == separator {
            return Some((&text[..at], &text[at + 1..]));
        }
        at += 1;
    }
    None
}

/// What stands before and after the last separator.
pub(crate) fn cut_last(text: &[u8], separator: u8) -> Option<(&[u8], &[u8])>
    ensures { cut_lists result ≡ cut_at_last separator text.now }
{
    let mut end = text.len();
    while end > 0 {
        if text[end - 1] == separator {
            return Some((&text[..end - 1], &text[end..]));
        }
        end -= 1;
    }
    None
}

/// The parts of a text between its separators, where they are four.
pub(crate) fn four_parts(text: &[u8], separator: u8) -> Option<(&[u8], &[u8], &[u8], &[u8])>
    ensures { MatchOption result (length (parts separator text.now) ≢ 4) (λ four. parts separator text.now
        ≡ four.0.now ∷ four.1.now ∷ four.2.now ∷ four.3.now ∷ []) }
{
    let (first, rest) = cut_first(text, separator)?;
    let (second, rest) = cut_first(rest, separator)?;
    let (third, fourth) = cut_first(rest, separator)?;
    if cut_first(fourth, separator).is_some() {
        return None;
    }
    Some((first, second, third, fourth))
}
