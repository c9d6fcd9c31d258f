//! Messages out of a stream of bytes.

ghost use Rattle.std.specs.Prelude.{◌≡◌, ◌-◌, ◌≤◌, ◌<◌, ◌==◌, ◌++◌, [], length, take, drop, OnOk, OnErr, IfOk};

use crate::fault::GrpcFault;
use crate::header::{HEADER, Header, announced};
use hb_base::{Bytes, NoMemory, Or};
use std::alloc::Global;
use std::marker::Model;

/// What a Framer took of a piece: how many bytes, and the message that they end.
#[derive(Drop)]
pub struct Fed {
    pub taken: usize,
    pub message: Option<Bytes>,
}

/// Reads the messages of a stream of bytes that comes in any pieces. It holds at most one message, and takes
/// memory as the bytes of the message come. Contracts see it as its limit and the bytes that it holds.
#[derive(Drop)]
pub struct Framer {
    alloc: Global,
    limit: u32,
    header: Header,
    body: Vec<u8>,
}

impl Model for Framer {
    ghost use Rattle.std.specs.Prelude.{◌++◌};
    ghost use Rattle.hb_grpc.specs.Reading.{Framing, announced, MayHold};

    ghost Value = { Framing };

    ghost view = { λ f. record { limit = f.limit; held = f.header ++ f.body.items } };

    ghost invariant = { λ f. MayHold (announced f.limit f.header) f.body.items };
}

impl Framer {
    ghost use Rattle.hb_base.specs.Outcome.{Answers};
    ghost use Rattle.hb_grpc.specs.Reading.{Framing, answer, fed, Leaves};

    /// A Framer of messages of at most `limit` bytes.
    pub fn new(alloc: Global, limit: u32) -> Framer
        ensures { result ≡ record { limit = limit; held = [] } }
    {
        Framer {
            alloc,
            limit,
            header: Header::new(),
            body: Vec::new(alloc),
        }
    }

    /// Whether no part of a message is held.
    pub fn between(&self) -> bool
        ensures { result ≡ (length self.now.held == 0) }
    {
        self.header.as_slice().is_empty()
    }

    /// Takes the piece to the end of the first whole message, or else all of it (gRPC over HTTP/2,
    /// "Length-Prefixed-Message").
    ///
    /// Errors: `Compressed` where the message's flag isn't 0, and `TooLong` where its length is above the limit;
    /// either comes again at every later call. `NoMemory`, and then it is as before the call.
    pub fn feed(&mut self, piece: &[u8]) -> Result<Fed, Or<GrpcFault>>
        ensures told { Answers result (answer self.old piece.now) }
        ensures after { Leaves result self.old (fed self.old piece.now) self.new }
        ensures within { IfOk result (λ f. f.taken ≤ length piece.now) }
        ensures moves { IfOk result (λ f. 0 < length piece.now → 0 < f.taken) }
    {
        let known = self.header.as_slice().len();
        let rest = self.header.fill(piece);
        let size = match announced(self.header.as_slice(), self.limit) {
            Ok(Some(length)) => length as usize,
            Ok(None) => {
                return Ok(Fed {
                    taken: piece.len(),
                    message: None,
                });
            }
            Err(fault) => {
                self.header.truncate(fault.told_by());
                return Err(Or::Fault(fault));
            }
        };
        let Ok(behind) = fill(&mut self.body, size, rest) else {
            self.header.truncate(known);
            return Err(Or::NoMemory);
        };
        let taken = piece.len() - behind.len();
        if self.body.len() < size {
            return Ok(Fed {
                taken,
                message: None,
            });
        }
        self.header.truncate(0);
        let message = std::mem::replace(&mut self.body, Vec::new(self.alloc));
        Ok(Fed {
            taken,
            message: Some(Bytes::from_vec(message)),
        })
    }
}

/// Appends to a body of `size` bytes what it lacks, from the front of the piece, and gives what is left of the piece.
fn fill<'a>(body: &mut Vec<u8>, size: usize, piece: &'a [u8]) -> Result<&'a [u8], NoMemory>
    requires { length body.old.items ≤ size }
    ensures ok { OnOk result (body.new.items ≡ take size (body.old.items ++ piece.now)) }
    ensures rest { IfOk result (λ rest. rest.now ≡ drop (size - length body.old.items) piece.now) }
    ensures err { OnErr result (body.new.items ≡ body.old.items) }
{
    let n = piece.len().min(size - body.len());
    let (front, rest) = piece.split_at(n);
    body.extend_from_slice(front)?;
    Ok(rest)
}
