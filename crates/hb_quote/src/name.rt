//! Names among the words of a line.

ghost use Rattle.std.specs.Prelude.{◌≡◌, ◌++◌, codes, string_bytes, IfOk, OnOk};
ghost use Rattle.std.specs.List.{list_all};
ghost use Rattle.serde_json.specs.Data.{string};
ghost use Rattle.serde_json.specs.Written.{compact_text};
ghost use Rattle.hb_quote.specs.Name.{is_plain, is_plain_name, name_text, policy_name};

use hb_base::{NoMemory, Text};
use serde_json::Value;
use std::alloc::Global;
use std::str::from_utf8;

/// Whether an octet of a name stands as it is.
fn is_plain(octet: u8) -> bool
    ensures { result ≡ is_plain octet }
{
    octet >= 33 && octet <= 126 && octet != b'"' && octet != b'\\'
}

fn has_plain_octets_alone(name: &[u8]) -> bool
    ensures { result ≡ list_all is_plain name.now }
{
    name.iter().all(|octet| is_plain(*octet))
}

/// Whether a name stands as it is: it isn't empty, and each of its octets does.
fn is_plain_name(name: &[u8]) -> bool
    ensures { result ≡ is_plain_name name.now }
{
    !name.is_empty() && has_plain_octets_alone(name)
}

/// A text as characters.
pub fn str_of(text: &Text) -> &str
    ensures { result.now ≡ text.now }
{
    match from_utf8(text.as_slice()) {
        Ok(text) => text,
        Err(_) => unreachable!(),
    }
}

/// A text as a string of JSON.
fn quoted(alloc: Global, text: &str) -> Result<String, NoMemory>
    ensures { IfOk result (λ quoted. string_bytes quoted ≡ compact_text (string text.now)) }
{
    let value = Value::try_from_str(alloc, text)?;
    value.to_string(alloc)
}

/// Appends a name: as it is where it may stand so, else as a string of JSON (RFC 8259 section 7). It may not where it is empty, or has an
/// octet that is no visible ASCII, a quote or a backslash.
///
/// Errors: `NoMemory`, and then nothing is appended.
pub fn put_name(alloc: Global, name: &Text, line: &mut Vec<u8>) -> Result<(), NoMemory>
    ensures { OnOk result (line.new.items ≡ line.old.items ++ name_text name.now) }
{
    if is_plain_name(name.as_slice()) {
        return line.extend_from_slice(name.as_slice());
    }
    let quoted = quoted(alloc, str_of(name))?;
    line.extend_from_slice(quoted.as_bytes())
}

/// Appends a word, as `put_name` does a name.
///
/// Errors: `NoMemory`, and then nothing is appended.
pub fn add_word(alloc: Global, word: &str, line: &mut String) -> Result<(), NoMemory>
    ensures { OnOk result (string_bytes line.new ≡ string_bytes line.old ++ name_text word.now) }
{
    if is_plain_name(word.as_bytes()) {
        return line.push_str(word);
    }
    let quoted = quoted(alloc, word)?;
    line.push_str(quoted.as_str())
}

/// A policy's name.
fn policy_name(alloc: Global, namespace: &str, name: &str) -> Result<String, NoMemory>
    ensures { IfOk result (λ text. string_bytes text ≡ policy_name namespace.now name.now) }
{
    format!(in alloc; "{namespace}/{name}")
}

/// Whether a policy's name stands as it is: it is never empty, and its slash does.
#[tactic(auto, using(crate::proofs::Plain::plain_both))]
fn is_plain_policy(namespace: &Text, name: &Text) -> bool
    ensures { result ≡ is_plain_name (policy_name namespace.now name.now) }
{
    let is_plain_namespace = has_plain_octets_alone(namespace.as_slice());
    let is_plain = has_plain_octets_alone(name.as_slice());
    is_plain_namespace & is_plain
}

fn add_plain_policy(namespace: &Text, name: &Text, line: &mut String) -> Result<(), NoMemory>
    ensures { OnOk result (string_bytes line.new ≡ string_bytes line.old ++ policy_name namespace.now name.now) }
{
    line.push_str(str_of(namespace))?;
    line.push_str("/")?;
    line.push_str(str_of(name))
}

/// Appends the name of a policy, `namespace/name`, as `put_name` does. Where it may stand as it is and the line has room for it, no memory
/// is taken.
///
/// Errors: `NoMemory`, and then a part of it may be appended.
pub fn add_policy(
    alloc: Global,
    namespace: &Text,
    name: &Text,
    line: &mut String,
) -> Result<(), NoMemory>
    ensures { OnOk result (string_bytes line.new ≡ string_bytes line.old ++ name_text (policy_name namespace.now name.now)) }
{
    if is_plain_policy(namespace, name) {
        return add_plain_policy(namespace, name, line);
    }
    let policy = policy_name(alloc, str_of(namespace), str_of(name))?;
    let quoted = quoted(alloc, policy.as_str())?;
    line.push_str(quoted.as_str())
}
