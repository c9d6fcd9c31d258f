//! The requests of a link to the control plane.

ghost use Rattle.std.specs.Prelude.{◌≡◌, ◌++◌, OnOk};
ghost use Rattle.hb_grpc.specs.Message.{spelling};
ghost use Rattle.hb_disco.specs.Request.{first_of, answer_of};
ghost use Rattle.hb_held.specs.Rows.{versions};
ghost use Rattle.hb_model.specs.Discovery.{first_requests, first_name, spelled};

use crate::queue::Queue;
use hb_base::{NoMemory, Text};
use hb_disco::{Kind, Response, put_answer, put_first};
use hb_held::{Held, Outcome};
use std::alloc::Global;

/// Adds the first request of a kind, with the versions held.
fn add_first(
    alloc: Global,
    id: &Text,
    held: &Held,
    kind: Kind,
    waiting: &mut Queue,
) -> Result<(), NoMemory>
    ensures { OnOk result (waiting.new ≡ waiting.old ++ spelling (first_of id.now kind (versions held.now kind))) }
{
    let versions = held.versions(alloc, kind)?;
    let mut request = Vec::new(alloc);
    put_first(alloc, id, kind, &versions, &mut request)?;
    waiting.add(alloc, request.as_slice())
}

/// Adds the first two requests of the node of this id, one a kind.
pub(crate) fn add_first_requests(
    alloc: Global,
    id: &Text,
    held: &Held,
    waiting: &mut Queue,
) -> Result<(), NoMemory>
    ensures { OnOk result (waiting.new ≡ waiting.old ++ spelled (first_requests id.now held.now)) }
{
    add_first(alloc, id, held, Kind::Address, waiting)?;
    add_first(alloc, id, held, Kind::Authorization, waiting)
}

/// Adds the answer to a response that did this: it rejects the response by the name of the first resource refused, or
/// accepts it.
pub(crate) fn add_answer(
    alloc: Global,
    response: &Response,
    outcome: &Outcome,
    waiting: &mut Queue,
) -> Result<(), NoMemory>
    ensures { OnOk result (waiting.new
        ≡ waiting.old ++ spelling (answer_of response.now.kind response.now.nonce (first_name outcome.now.refused))) }
{
    let refused = match outcome.refused.get(0) {
        Some(refusal) => Some(&refusal.name),
        None => None,
    };
    let mut request = Vec::new(alloc);
    put_answer(alloc, response.kind, &response.nonce, refused, &mut request)?;
    waiting.add(alloc, request.as_slice())
}
