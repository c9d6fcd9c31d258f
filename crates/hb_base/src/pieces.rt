//! Text in pieces, compared without joining them.

ghost use Rattle.std.specs.Prelude.{◌≡◌, nat_eq};
ghost use Rattle.std.specs.List.{starts_with, ends_with};
ghost use Rattle.std.specs.Str.{bytes_eq};
ghost use Rattle.hb_base.specs.Pieces.{joined};

/// Whether these pieces make this text.
pub(crate) fn pieces_equal(pieces: &[&[u8]], text: &[u8]) -> bool
    ensures { result ≡ bytes_eq (joined pieces.now) text.now }
{
    let Some((first, more)) = pieces.split_first() else {
        return text.is_empty();
    };
    if text.len() < first.len() {
        return false;
    }
    let (front, rest) = text.split_at(first.len());
    *first == front && pieces_equal(more, rest)
}

/// Whether what these pieces make begins with this prefix.
pub(crate) fn pieces_start_with(pieces: &[&[u8]], prefix: &[u8]) -> bool
    ensures { result ≡ starts_with nat_eq (joined pieces.now) prefix.now }
{
    let Some((first, more)) = pieces.split_first() else {
        return prefix.is_empty();
    };
    if prefix.len() <= first.len() {
        return first.starts_with(prefix);
    }
    let (front, rest) = prefix.split_at(first.len());
    *first == front && pieces_start_with(more, rest)
}

/// Whether what these pieces make ends with this suffix.
pub(crate) fn pieces_end_with(pieces: &[&[u8]], suffix: &[u8]) -> bool
    ensures { result ≡ ends_with nat_eq (joined pieces.now) suffix.now }
{
    let Some((last, more)) = pieces.split_last() else {
        return suffix.is_empty();
    };
    if suffix.len() <= last.len() {
        return last.ends_with(suffix);
    }
    let (rest, back) = suffix.split_at(suffix.len() - last.len());
    *last == back && pieces_end_with(more, rest)
}
