//! The line of a note.

ghost use Rattle.std.specs.Prelude.{◌≡◌, ◌++◌, codes, decimal, string_bytes, OnOk};
ghost use Rattle.std.specs.List.{flat_map};
ghost use Rattle.std.specs.Option.{option_map};
ghost use Rattle.hb_base.specs.declared.note.Note.TheVariants.{Verdict, End};
ghost use Rattle.hb_base.specs.IdentityText.{principal_of};
ghost use Rattle.hb_base.specs.IpText.{ip_text};
ghost use Rattle.hb_base.specs.TargetText.{target_text};
ghost use Rattle.hb_script.specs.EntryText.{cause_text};
ghost use Rattle.hb_report.specs.Note.{or_dash, peer_text, place_text, note_line, was_line};

use hb_base::{Cause, Identity, Ip, NoMemory, Note, Peer, Target, Text};
use std::alloc::Global;
use std::net::{Ipv4Addr, Ipv6Addr};
use std::str::from_utf8;

#[tactic(auto, unfolding(hb_base::specs::IpText::ip_text, std::specs::Net::Addr::IsIpv4OfBits, std::specs::Net::Addr::IsIpv6OfBits))]
fn add_ip(ip: Ip, line: &mut String) -> Result<(), NoMemory>
    ensures { OnOk result (string_bytes line.new ≡ string_bytes line.old ++ ip_text ip) }
{
    match ip {
        Ip::V4(n) => {
            let address = Ipv4Addr::from_bits(n);
            write!(line, "{address}")
        }
        Ip::V6(n) => {
            let address = Ipv6Addr::from_bits(n).hex_groups();
            write!(line, "{address}")
        }
    }
}

/// Appends a target, an IPv6 address by RFC 5952 section 4 in brackets. Where the text has room for it, no memory is taken.
///
/// Errors: `NoMemory`, and then a part of it may be appended.
#[tactic(auto, unfolding(hb_base::specs::TargetText::target_text))]
pub fn add_target(target: Target, line: &mut String) -> Result<(), NoMemory>
    ensures { OnOk result (string_bytes line.new ≡ string_bytes line.old ++ target_text target) }
{
    let port = target.port;
    match target.ip {
        Ip::V4(_) => {
            add_ip(target.ip, line)?;
            write!(line, ":{port}")
        }
        Ip::V6(_) => {
            line.push_str("[")?;
            add_ip(target.ip, line)?;
            write!(line, "]:{port}")
        }
    }
}

fn add_target_or_dash(target: Option<Target>, line: &mut String) -> Result<(), NoMemory>
    ensures { OnOk result (string_bytes line.new ≡ string_bytes line.old ++ or_dash (option_map target_text target)) }
{
    match target {
        Some(target) => add_target(target, line),
        None => line.push_str("-"),
    }
}

fn add_text(text: &Text, line: &mut String) -> Result<(), NoMemory>
    ensures { OnOk result (string_bytes line.new ≡ string_bytes line.old ++ text.now) }
{
    match from_utf8(text.as_slice()) {
        Ok(text) => line.push_str(text),
        Err(_) => unreachable!(),
    }
}

/// Appends the principal of an identity.
fn add_principal(identity: &Identity, line: &mut String) -> Result<(), NoMemory>
    ensures { OnOk result (string_bytes line.new ≡ string_bytes line.old ++ principal_of identity.now) }
{
    add_text(&identity.trust_domain, line)?;
    line.push_str("/ns/")?;
    add_text(&identity.namespace, line)?;
    line.push_str("/sa/")?;
    add_text(&identity.service_account, line)
}

fn add_principal_or_dash(identity: &Option<Identity>, line: &mut String) -> Result<(), NoMemory>
    ensures { OnOk result (string_bytes line.new ≡ string_bytes line.old ++ or_dash (option_map principal_of identity.now)) }
{
    match identity {
        Some(identity) => add_principal(identity, line),
        None => line.push_str("-"),
    }
}

fn add_peer(peer: &Peer, line: &mut String) -> Result<(), NoMemory>
    ensures { OnOk result (string_bytes line.new ≡ string_bytes line.old ++ peer_text peer.now) }
{
    add_ip(peer.ip, line)?;
    line.push_str(" ")?;
    add_principal_or_dash(&peer.identity, line)
}

fn add_cause(cause: &Cause, line: &mut String) -> Result<(), NoMemory>
    ensures { OnOk result (string_bytes line.new ≡ string_bytes line.old ++ cause_text cause.now) }
{
    let word = cause.word();
    line.push_str(word)?;
    match cause.number() {
        Some(number) => write!(line, " {number}"),
        None => Ok(()),
    }
}

fn add_verdict(
    place: (u64, u32),
    status: u16,
    peer: &Peer,
    target: Option<Target>,
    line: &mut String,
) -> Result<(), NoMemory>
    ensures { OnOk result (string_bytes line.new ≡ string_bytes line.old ++ note_line (Verdict place.0 place.1 status peer.now target)) }
{
    let (link, stream) = place;
    write!(line, "verdict {link}/{stream} {status} ")?;
    add_peer(peer, line)?;
    line.push_str(" ")?;
    add_target_or_dash(target, line)?;
    line.push_str("\n")
}

fn add_end(
    place: (u64, u32),
    cause: &Cause,
    up: u64,
    down: u64,
    line: &mut String,
) -> Result<(), NoMemory>
    ensures { OnOk result (string_bytes line.new ≡ string_bytes line.old ++ note_line (End place.0 place.1 cause.now up down)) }
{
    let (link, stream) = place;
    write!(line, "end {link}/{stream} ")?;
    add_cause(cause, line)?;
    write!(line, " up {up} down {down}\n")
}

/// Appends the line of a note, with its newline. Where the text has room for it, no memory is taken.
///
/// Errors: `NoMemory`, and then a part of the line may be appended.
pub fn add_note(note: &Note, line: &mut String) -> Result<(), NoMemory>
    ensures { OnOk result (string_bytes line.new ≡ string_bytes line.old ++ note_line note.now) }
{
    match note {
        Note::Verdict {
            link,
            stream,
            status,
            peer,
            target,
        } => add_verdict((*link, *stream), *status, peer, *target, line),
        Note::End {
            link,
            stream,
            cause,
            up,
            down,
        } => add_end((*link, *stream), cause, *up, *down, line),
    }
}

/// Appends the line that tells of a tunnel that ended whose it was, and whereto it led, with its newline.
///
/// Errors: `NoMemory`, and then a part of the line may be appended.
pub fn add_was(
    link: u64,
    stream: u32,
    peer: &Peer,
    target: Option<Target>,
    line: &mut String,
) -> Result<(), NoMemory>
    ensures { OnOk result (string_bytes line.new ≡ string_bytes line.old ++ was_line link stream peer.now target) }
{
    write!(line, "was {link}/{stream} peer=")?;
    add_ip(peer.ip, line)?;
    line.push_str(" identity=")?;
    add_principal_or_dash(&peer.identity, line)?;
    line.push_str(" target=")?;
    add_target_or_dash(target, line)?;
    line.push_str("\n")
}

/// Appends a line for each note, in order.
pub(crate) fn put_notes(alloc: Global, notes: &[Note], out: &mut Vec<u8>) -> Result<(), NoMemory>
    ensures { OnOk result (out.new.items ≡ out.old.items ++ flat_map note_line notes.now) }
{
    for note in notes {
        let mut line = String::new(alloc);
        add_note(note, &mut line)?;
        out.extend_from_slice(line.as_bytes())?;
    }
    Ok(())
}
