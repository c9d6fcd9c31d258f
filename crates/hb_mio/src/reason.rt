//! Why a listen or a wait failed, in a line.

use crate::doors::address_of;
use crate::log::Log;
use hb_base::{Door, NoMemory, Or, Target};
use std::alloc::Global;
use std::io::{self, ErrorKind};

/// What the system told, in words.
///
/// Errors: `NoMemory`.
pub fn reason_of(alloc: Global, error: &io::Error) -> Result<String, NoMemory> {
    match error.kind() {
        ErrorKind::AddrInUse => String::from_str(alloc, "address in use"),
        ErrorKind::AddrNotAvailable => String::from_str(alloc, "address not of this machine"),
        ErrorKind::PermissionDenied => String::from_str(alloc, "permission denied"),
        _ => format!(in alloc; "{error}"),
    }
}

/// The word of a door.
fn word_of(door: Door) -> &'static str {
    match door {
        Door::Inbound => "inbound",
        Door::Outbound => "outbound",
        Door::Plain => "plain",
    }
}

/// The line of a door at which nothing listens.
///
/// Errors: `NoMemory`.
fn door_line(alloc: Global, at: Target, door: Door, error: &io::Error) -> Result<String, NoMemory> {
    let word = word_of(door);
    let address = address_of(at);
    let reason = reason_of(alloc, error)?;
    format!(in alloc; "hbone: {word} door {address}: {reason}\n")
}

/// The line of a wait that failed.
///
/// Errors: `NoMemory`.
fn wait_line(alloc: Global, error: &io::Error) -> Result<String, NoMemory> {
    let reason = reason_of(alloc, error)?;
    format!(in alloc; "hbone: wait: {reason}\n")
}

/// Tells why nothing listens at a door. Where memory lacks for the line, nothing is told.
pub(crate) fn tell_door(
    log: &mut impl Log,
    alloc: Global,
    at: Target,
    door: Door,
    error: &io::Error,
) {
    if let Ok(line) = door_line(alloc, at, door, error) {
        log.line(line.as_str());
    }
}

/// Tells why a wait failed. Where memory lacks for the line, nothing is told.
pub(crate) fn tell_wait(log: &mut impl Log, alloc: Global, why: &Or<io::Error>) {
    match why {
        Or::NoMemory => log.line("hbone: wait: out of memory\n"),
        Or::Fault(error) => {
            if let Ok(line) = wait_line(alloc, error) {
                log.line(line.as_str());
            }
        }
    }
}
