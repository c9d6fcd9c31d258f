//! What a command asks by the values of its parts.

ghost use Rattle.std.specs.Prelude.{◌≡◌, ◌≤◌, IfOk, IfSome};
ghost use Rattle.clap.specs.Words.{first_value, found_of};
ghost use Rattle.hb_base.specs.Outcome.{Answers};
ghost use Rattle.hb_words.specs.Asked.{asked, route_answer, command_of, commanded};
ghost use Rattle.hb_words.specs.AskedRun.{run_answer, replay_answer, serve_answer};
ghost use Rattle.hb_words.specs.Make.{most_tunnels, IsInRange};
ghost use Rattle.hb_words.specs.Values.{text_in, is_raised, wanted_target, target_in, number_in, number_or, source_in, place_target};
ghost use Rattle.hb_words.specs.Values.{identity_or_none, check_by, route_by, make_by, run_by, replay_by, serve_by, asked_by};

use crate::asks::{Check, Command, Make, Replay, Route, RunWords, Serve, Show};
use crate::fault::Why;
use crate::number::read_number;
use crate::part::{CommandName, PartName};
use clap::ArgMatches;
use hb_base::{Identity, Ip, Or, Peer, Target, read_identity, read_ip, read_target};
use std::alloc::Global;

/// A value that is there where words are accepted, or that is empty where it isn't.
fn text<'a>(values: &ArgMatches<'a>, part: PartName) -> &'a str
    ensures { result.now ≡ text_in (first_value (found_of values.now)) part }
{
    values.get_str(part.id()).unwrap_or("")
}

fn is_raised(values: &ArgMatches<'_>, part: PartName) -> bool
    ensures { result ≡ is_raised (first_value (found_of values.now)) part }
{
    match values.get_str(part.id()) {
        Some(value) => value == "true",
        None => false,
    }
}

fn wanted_target(values: &ArgMatches<'_>, part: PartName) -> Result<Target, Why>
    ensures { result ≡ wanted_target (first_value (found_of values.now)) part }
{
    match read_target(text(values, part).as_bytes()) {
        Ok(target) => Ok(target),
        Err(_) => Err(Why::BadValue(part)),
    }
}

fn target(values: &ArgMatches<'_>, part: PartName) -> Result<Option<Target>, Why>
    ensures { result ≡ target_in (first_value (found_of values.now)) part }
{
    match values.get_str(part.id()) {
        None => Ok(None),
        Some(value) => match read_target(value.as_bytes()) {
            Ok(target) => Ok(Some(target)),
            Err(_) => Err(Why::BadValue(part)),
        },
    }
}

/// A number from 1 to the most.
fn number(values: &ArgMatches<'_>, part: PartName, most: u64) -> Result<Option<u64>, Why>
    ensures value { result ≡ number_in (first_value (found_of values.now)) part most }
    ensures range { IfOk result (λ r. IfSome r (λ n. n ≤ most)) }
{
    match values.get_str(part.id()) {
        None => Ok(None),
        Some(value) => match read_number(value, 1, most) {
            Some(number) => Ok(Some(number)),
            None => Err(Why::BadValue(part)),
        },
    }
}

/// Such a number, or another where the option isn't there.
fn number_or(values: &ArgMatches<'_>, part: PartName, most: u16, other: u16) -> Result<u16, Why>
    ensures { result ≡ number_or (first_value (found_of values.now)) part most other }
{
    match number(values, part, u64::from(most))? {
        Some(number) => Ok(number as u16),
        None => Ok(other),
    }
}

/// The address in the place of SOURCE.
fn source(values: &ArgMatches<'_>) -> Result<Ip, Why>
    ensures { result ≡ source_in (first_value (found_of values.now)) }
{
    match read_ip(text(values, PartName::Source).as_bytes()) {
        Some(ip) => Ok(ip),
        None => Err(Why::BadValue(PartName::Source)),
    }
}

/// The address and port in the place of TARGET.
fn place_target(values: &ArgMatches<'_>) -> Result<Target, Why>
    ensures { result ≡ place_target (first_value (found_of values.now)) }
{
    match read_target(text(values, PartName::Target).as_bytes()) {
        Ok(target) => Ok(target),
        Err(fault) => Err(Why::BadTarget(fault)),
    }
}

/// `none`, or the text of an identity.
fn identity_or_none(alloc: Global, text: &str) -> Result<Option<Identity>, Or<Why>>
    ensures { Answers result (identity_or_none text.now) }
{
    if text == "none" {
        return Ok(None);
    }
    match read_identity(alloc, text.as_bytes())? {
        Some(identity) => Ok(Some(identity)),
        None => Err(Or::Fault(Why::BadValue(PartName::Identity))),
    }
}

#[tactic(auto, unfolding(crate::specs::Values::check_by))]
fn check<'a>(alloc: Global, values: &ArgMatches<'a>) -> Result<Check<'a>, Or<Why>>
    ensures { Answers (asked result) (check_by (first_value (found_of values.now))) }
{
    let ip = match source(values) {
        Ok(ip) => ip,
        Err(why) => return Err(Or::Fault(why)),
    };
    let identity = identity_or_none(alloc, text(values, PartName::Identity))?;
    let target = match place_target(values) {
        Ok(target) => target,
        Err(why) => return Err(Or::Fault(why)),
    };
    Ok(Check {
        node: text(values, PartName::Node),
        network: text(values, PartName::Network),
        peer: Peer { ip, identity },
        target,
        explain: is_raised(values, PartName::Explain),
    })
}

#[tactic(auto, unfolding(crate::specs::Values::route_by))]
fn route<'a>(values: &ArgMatches<'a>) -> Result<Route<'a>, Why>
    ensures { route_answer result ≡ route_by (first_value (found_of values.now)) }
{
    Ok(Route {
        hbone_port: number_or(values, PartName::HbonePort, 65535, 15008)?,
        source: source(values)?,
        target: place_target(values)?,
        node: text(values, PartName::Node),
        network: text(values, PartName::Network),
    })
}

#[tactic(auto, unfolding(crate::specs::Values::make_by))]
fn make(values: &ArgMatches<'_>) -> Result<Make, Why>
    ensures told { result ≡ make_by (first_value (found_of values.now)) }
    ensures range { IfOk result (λ m. m.count ≤ most_tunnels) }
{
    match read_number(text(values, PartName::Count), 1, 1000) {
        Some(number) => Ok(Make {
            count: number as u32,
            run: is_raised(values, PartName::Run),
        }),
        None => Err(Why::BadValue(PartName::Count)),
    }
}

#[tactic(auto, unfolding(crate::specs::Values::run_by))]
fn run<'a>(values: &ArgMatches<'a>) -> Result<RunWords<'a>, Why>
    ensures { run_answer result ≡ run_by (first_value (found_of values.now)) }
{
    let discovery = wanted_target(values, PartName::Discovery)?;
    let inbound = target(values, PartName::Inbound)?;
    let outbound = target(values, PartName::Outbound)?;
    let plain = target(values, PartName::Plain)?;
    let hbone_port = number_or(values, PartName::HbonePort, 65535, 15008)?;
    let tunnels = number_or(values, PartName::Tunnels, 4096, 4096)?;
    let turns = number(values, PartName::Turns, u64::MAX)?;
    Ok(RunWords {
        node: text(values, PartName::Node),
        id: text(values, PartName::Id),
        discovery,
        inbound,
        outbound,
        plain,
        network: text(values, PartName::Network),
        hbone_port,
        tunnels,
        turns: turns.unwrap_or(u64::MAX),
    })
}

#[tactic(auto, unfolding(crate::specs::Values::replay_by))]
fn replay<'a>(values: &ArgMatches<'a>) -> Result<Replay<'a>, Why>
    ensures { replay_answer result ≡ replay_by (first_value (found_of values.now)) }
{
    Ok(Replay {
        run: run(values)?,
        trace: is_raised(values, PartName::Trace),
        brief: is_raised(values, PartName::Brief),
    })
}

#[tactic(auto, unfolding(crate::specs::Values::serve_by))]
fn serve<'a>(values: &ArgMatches<'a>) -> Result<Serve<'a>, Why>
    ensures { serve_answer result ≡ serve_by (first_value (found_of values.now)) }
{
    Ok(Serve {
        run: run(values)?,
        ticks: number(values, PartName::Ticks, u64::MAX)?,
        status: target(values, PartName::Status)?,
        stop_on_input: is_raised(values, PartName::StopOnInput),
        quiet: is_raised(values, PartName::Quiet),
        notes_only: is_raised(values, PartName::NotesOnly),
    })
}

/// What the command asks that has these values.
#[tactic(auto, unfolding(crate::specs::Values::asked_by))]
pub(crate) fn asked_by<'a>(
    alloc: Global,
    command: CommandName,
    values: &ArgMatches<'a>,
) -> Result<Command<'a>, Or<Why>>
    ensures told { Answers (commanded result) (asked_by command (first_value (found_of values.now))) }
    ensures range { IfOk result (λ c. IsInRange (command_of c)) }
{
    match command {
        CommandName::Check => Ok(Command::Check(check(alloc, values)?)),
        CommandName::Route => match route(values) {
            Ok(asked) => Ok(Command::Route(asked)),
            Err(why) => Err(Or::Fault(why)),
        },
        CommandName::Show => Ok(Command::Show(Show {
            fields: is_raised(values, PartName::Fields),
        })),
        CommandName::Make => match make(values) {
            Ok(asked) => Ok(Command::Make(asked)),
            Err(why) => Err(Or::Fault(why)),
        },
        CommandName::Replay => match replay(values) {
            Ok(asked) => Ok(Command::Replay(asked)),
            Err(why) => Err(Or::Fault(why)),
        },
        CommandName::Serve => match serve(values) {
            Ok(asked) => Ok(Command::Serve(asked)),
            Err(why) => Err(Or::Fault(why)),
        },
    }
}
