//! Texts against a namespace and a name that a slash joins.

ghost use Rattle.std.specs.Prelude.{◌≡◌};
ghost use Rattle.std.specs.Str.{bytes_eq};
ghost use Rattle.hb_held.specs.Endpoints.{joined};

/// `text` is the namespace and the name, joined by a slash.
pub(crate) fn is_joined(text: &[u8], namespace: &[u8], name: &[u8]) -> bool
    ensures { result ≡ bytes_eq text.now (joined namespace.now name.now) }
{
    let Some(rest) = text.strip_prefix(namespace) else {
        return false;
    };
    let Some(last) = rest.strip_prefix(b"/") else {
        return false;
    };
    last == name
}
