//! What the front header of a link gets at its door.

ghost use Rattle.std.specs.Prelude.{◌≡◌, IfOk, OnOk, OnErr};
ghost use Rattle.std.specs.Option.{option_map};
ghost use Rattle.hb_captured.specs.Answer.{refused_with, verdict_for, by_verdict, by_way, routed, answer};
ghost use Rattle.hb_captured.specs.Captured.{identity_noted};
ghost use Rattle.hb_front.specs.Reading.{text_of};
ghost use Rattle.hb_route.specs.Answer.{way_as};
ghost use Rattle.hb_relay.specs.Answering.{answer_as, routing_of, counted_for};

use crate::aim::{Aim, key_for};
use crate::routes::Routes;
use hb_base::{Cause, Door, Identity, Ip, NoMemory, Peer, Target, Text, read_identity};
use hb_front::Front;
use hb_held::Held;
use hb_route::{Route, route};
use hb_verdict::{Request, Verdict, is_unspecified, leads_back, verdict_on};
use std::alloc::Global;

/// What the front header of a link gets.
#[derive(Drop)]
pub(crate) enum Answer {
    /// Its bytes are to go there.
    Aims(Aim),
    /// It is refused for this cause, which is noted with this status (RFC 9110 section 15).
    Refuses(Cause, u16),
}

/// A refusal by status.
fn refused_with(status: u16) -> Answer
    ensures { answer_as result ≡ refused_with status }
{
    Answer::Refuses(Cause::Refused(u32::from(status)), status)
}

/// What a verdict is to a link that speaks no HTTP.
fn by_verdict(verdict: Verdict) -> Answer
    ensures { answer_as result ≡ by_verdict verdict }
{
    match verdict {
        Verdict::Dial(to) => Answer::Aims(Aim::Straight { to, endpoint: None }),
        Verdict::Status(status) => refused_with(status),
        Verdict::Reset => refused_with(400),
    }
}

/// The plain door: the destination is judged, for a peer without identity.
fn judged(held: &Held, source: Ip, target: Target) -> Answer
    ensures { answer_as result ≡ by_verdict (verdict_for held.now source target) }
{
    let peer = Peer {
        ip: source,
        identity: None,
    };
    by_verdict(verdict_on(Request::Connect(target), held, &peer, false))
}

/// A name, in memory of its own, where there is one.
fn copied(alloc: Global, name: Option<&Text>) -> Result<Option<Text>, NoMemory>
    ensures { IfOk result (λ copy. copy ≡ option_map (λ name. name.now) name.entry) }
{
    match name {
        Some(name) => Ok(Some(name.copy(alloc)?)),
        None => Ok(None),
    }
}

/// What a way is to a link: none leads back to the node.
fn by_way(alloc: Global, held: &Held, source: Ip, way: Route<'_>) -> Result<Answer, NoMemory>
    ensures { IfOk result (λ answer. answer_as answer ≡ by_way held.now source (way_as way.entry)) }
{
    match way {
        Route::Direct { address, endpoint } => {
            if leads_back(held, address) {
                return Ok(refused_with(400));
            }
            Ok(Answer::Aims(Aim::Straight {
                to: address,
                endpoint: copied(alloc, endpoint)?,
            }))
        }
        Route::Gateway {
            address,
            authority,
            endpoint,
        } => {
            if is_unspecified(address.ip) {
                return Ok(refused_with(400));
            }
            Ok(Answer::Aims(Aim::Through {
                key: key_for(alloc, held, source, address)?,
                authority,
                endpoint: endpoint.copy(alloc)?,
            }))
        }
        Route::Refused(why) => Ok(Answer::Refuses(Cause::NoRoute(why.number()), 503)),
    }
}

/// The outbound door: the way from the source to the destination.
fn routed(
    alloc: Global,
    held: &Held,
    routes: &Routes,
    source: Ip,
    target: Target,
) -> Result<Answer, NoMemory>
    ensures { IfOk result (λ answer. answer_as answer ≡ routed held.now (routing_of routes.now) source target) }
{
    if !held.synced() {
        return Ok(refused_with(503));
    }
    let way = route(held, &routes.opens, source, target, routes.hbone_port);
    by_way(alloc, held, source, way)
}

/// What the front header of a link at this door gets, by what is held and by the counts.
fn answer_at(
    alloc: Global,
    door: Door,
    held: &Held,
    routes: &Routes,
    source: Ip,
    target: Target,
) -> Result<Answer, NoMemory>
    ensures { IfOk result (λ given. answer_as given ≡ answer door held.now (routing_of routes.now) source target) }
{
    match door {
        Door::Outbound => routed(alloc, held, routes, source, target),
        _ => Ok(judged(held, source, target)),
    }
}

/// The identity that is noted of a header at this door: what it tells, at the outbound one.
fn identity_noted(
    alloc: Global,
    door: Door,
    text: Option<&[u8]>,
) -> Result<Option<Identity>, NoMemory>
    ensures { IfOk result (λ identity. identity ≡ identity_noted door (text_of text.entry)) }
{
    match door {
        Door::Outbound => match text {
            Some(text) => read_identity(alloc, text),
            None => Ok(None),
        },
        _ => Ok(None),
    }
}

/// What a whole front header gets at this door, where it is counted as a connection of its endpoint from now on; and the identity that
/// is noted of it.
///
/// Errors: `NoMemory`, and then nothing is counted.
pub(crate) fn answer_counted(
    alloc: Global,
    door: Door,
    held: &Held,
    routes: &mut Routes,
    front: Front<'_>,
) -> Result<(Option<Identity>, Answer), NoMemory>
    ensures identity { IfOk result (λ told. told.0 ≡ identity_noted door (text_of front.entry.identity)) }
    ensures value { IfOk result (λ told.
        answer_as told.1 ≡ answer door held.now (routing_of routes.old) front.entry.source.ip front.entry.destination) }
    ensures ok { OnOk result (routing_of routes.new
        ≡ counted_for (answer door held.now (routing_of routes.old) front.entry.source.ip front.entry.destination) (routing_of routes.old)) }
    ensures err { OnErr result (routes.new ≡ routes.old) }
{
    let identity = identity_noted(alloc, door, front.identity)?;
    let answer = answer_at(
        alloc,
        door,
        held,
        routes,
        front.source.ip,
        front.destination,
    )?;
    if let Answer::Aims(aim) = &answer {
        routes.count(aim)?;
    }
    Ok((identity, answer))
}
