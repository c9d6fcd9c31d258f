//! Words that an item may be spelled with.

ghost use Rattle.std.specs.Prelude.{◌≡◌, map, option_and_then, option_map};
ghost use Rattle.std.specs.List.{list_all};
ghost use Rattle.std.specs.String.{string_bytes};
ghost use Rattle.clap.specs.Lexer.{name_and_value, strip_byte};
ghost use Rattle.hb_options.specs.Items.{is_clean, is_value};

/// Some characters, of which the first is no dash.
fn is_value(word: &str) -> bool
    ensures { result ≡ is_value word.now }
{
    match word.as_bytes() {
        [] => false,
        [first, ..] => *first != b'-',
    }
}

/// What follows a first dash.
fn behind_dash(word: &str) -> Option<&str>
    ensures { option_map (λ s. s.now) result ≡ strip_byte 45 word.now }
{
    word.strip_prefix('-')
}

/// What stands behind the first equals sign.
fn behind_sign(text: &str) -> Option<&str>
    ensures { option_map (λ s. s.now) result ≡ (name_and_value text.now).1 }
{
    match text.split_once('=') {
        Some((_, value)) => Some(value),
        None => None,
    }
}

/// What begins with two dashes and goes on is followed by a value behind its equals sign; any other word is a value.
fn is_clean(word: &str) -> bool
    ensures { result ≡ is_clean word.now }
{
    let Some(rest) = behind_dash(word) else {
        return is_value(word);
    };
    match behind_dash(rest) {
        Some(text) if !text.is_empty() => match behind_sign(text) {
            Some(value) => is_value(value),
            None => true,
        },
        _ => is_value(word),
    }
}

/// Each word is clean.
pub(crate) fn are_clean(words: &[String]) -> bool
    ensures { result ≡ list_all is_clean (map string_bytes words.now) }
{
    for word in words {
        if !is_clean(word.as_str()) {
            return false;
        }
    }
    true
}
