//! Numbers of the command line.

ghost use Rattle.std.specs.Prelude.{◌≡◌, ◌≤◌, IfSome};
ghost use Rattle.std.specs.List.{list_all};
ghost use Rattle.hb_base.specs.Decimal.{is_digit};
ghost use Rattle.hb_words.specs.Number.{leads_with_zero, is_plain, number_of};

fn is_all_digits(text: &str) -> bool
    ensures { result ≡ list_all is_digit text.now }
{
    for b in text.as_bytes() {
        if !b.is_ascii_digit() {
            return false;
        }
    }
    true
}

/// Whether a zero stands in front of more.
fn leads_with_zero(text: &[u8]) -> bool
    ensures { result ≡ leads_with_zero text.now }
{
    text.len() > 1 && text[0] == b'0'
}

/// Whether a text has decimal digits alone, and none of them a leading zero.
fn is_plain(text: &str) -> bool
    ensures { result ≡ is_plain text.now }
{
    is_all_digits(text) && !leads_with_zero(text.as_bytes())
}

/// The number that a text spells: one decimal digit or more and nothing else, without a leading zero, of a value from the
/// least to the most.
pub(crate) fn read_number(text: &str, least: u64, most: u64) -> Option<u64>
    ensures value { result ≡ number_of least most text.now }
    ensures range { IfSome result (λ n. (least ≤ n) × (n ≤ most)) }
{
    if !is_plain(text) {
        return None;
    }
    match text.parse::<u64>() {
        Ok(number) if least <= number && number <= most => Some(number),
        _ => None,
    }
}
