//! The input of a command: gRPC messages, each a response.

ghost use Rattle.std.specs.Prelude.{◌≡◌, ◌≤◌, length, drop, Ok, Err, OnOk, IfOk};
ghost use Rattle.std.specs.Result.{MatchResult};
ghost use Rattle.hb_base.specs.Outcome.{Answers, Merges};
ghost use Rattle.hb_cli.specs.Input.{none_left, with_response, with_message, front_of, with_front, left_by};
ghost use Rattle.hb_cli.specs.Taking.{TakesFront, numbered};

use hb_base::{NoMemory, Or, Text};
use hb_disco::{LONGEST_MESSAGE, Response, read_response};
use hb_grpc::{GrpcFault, first_length};
use hb_held::{Held, OwnDoors};
use hb_lines::outcome_line;
use hb_script::ScriptFault;
use std::alloc::Global;
use std::marker::Model;

/// Why a message is refused, in this order of looking.
#[derive(Clone, Copy)]
pub enum InputWhy {
    Compressed,
    /// It has more than 67,108,864 bytes.
    TooLong,
    /// The input ends before it is whole.
    CutShort,
    NotAResponse,
}

/// Why an input is refused.
#[derive(Clone, Copy)]
pub enum Refused {
    /// The first message that is refused, counted from 1.
    Message { number: u64, why: InputWhy },
    /// The first row of a script that is no line.
    Line(ScriptFault),
}

/// What responses leave: the resources held, and the lines that tell what each response did.
#[derive(Drop)]
pub struct Left {
    pub held: Held,
    pub told: Vec<u8>,
}

impl Model for Left {
    ghost use Rattle.std.specs.Coded.{codes};
    ghost use Rattle.hb_held.specs.contracts.held.Held.{the_row as held_row};
    ghost use Rattle.hb_cli.specs.Input.{Leaves};

    ghost Value = { Leaves };

    ghost coded = { Prim.hlevel (codes, held_row.coded) };

    ghost view = { λ l. record { held = l.held; told = l.told.items } };
}

/// The message in front of bytes, and how many of them it takes.
fn next_message(bytes: &[u8]) -> Result<(usize, &[u8]), InputWhy>
    ensures told { MatchResult result (λ front. front_of bytes.now ≡ Ok (front.0, front.1.now)) (λ why. front_of bytes.now ≡ Err why) }
    ensures within { IfOk result (λ front. front.0 ≤ length bytes.now) }
{
    match first_length(bytes, LONGEST_MESSAGE) {
        Ok(Some(size)) => {
            let (_, rest) = bytes.split_at(5);
            Ok((5 + size, &rest[..size]))
        }
        Ok(None) => Err(InputWhy::CutShort),
        Err(GrpcFault::Compressed { .. }) => Err(InputWhy::Compressed),
        Err(GrpcFault::TooLong { .. }) => Err(InputWhy::TooLong),
    }
}

impl Left {
    /// Takes a response; tells of it where `tells`.
    fn take(&mut self, alloc: Global, tells: bool, response: &Response) -> Result<(), NoMemory>
        ensures { OnOk result (self.new ≡ with_response tells self.old response.now) }
    {
        let outcome = self.held.apply(alloc, response)?;
        if tells {
            let line = outcome_line(alloc, response.kind, &response.nonce, &outcome)?;
            self.told.extend_from_slice(line.as_slice())?;
        }
        Ok(())
    }

    /// Takes a message.
    fn take_message(
        &mut self,
        alloc: Global,
        tells: bool,
        message: &[u8],
    ) -> Result<(), Or<InputWhy>>
        ensures { Merges (with_message tells self.old message.now) self.new result }
    {
        match read_response(alloc, message) {
            Ok(response) => {
                self.take(alloc, tells, &response)?;
                Ok(())
            }
            Err(Or::Fault(_)) => Err(Or::Fault(InputWhy::NotAResponse)),
            Err(Or::NoMemory) => Err(Or::NoMemory),
        }
    }

    /// Takes the message in front of bytes, and says how many of them it takes.
    fn take_front(
        &mut self,
        alloc: Global,
        tells: bool,
        bytes: &[u8],
    ) -> Result<usize, Or<InputWhy>>
        ensures told { TakesFront (with_front tells self.old bytes.now) self.new result }
        ensures within { IfOk result (λ taken. taken ≤ length bytes.now) }
    {
        match next_message(bytes) {
            Ok((taken, message)) => {
                self.take_message(alloc, tells, message)?;
                Ok(taken)
            }
            Err(why) => Err(Or::Fault(why)),
        }
    }
}

/// What is behind the first `n` bytes.
fn behind(bytes: &[u8], n: usize) -> &[u8]
    requires { n ≤ length bytes.now }
    ensures { result.now ≡ drop n bytes.now }
{
    &bytes[n..]
}

/// The message of this number is refused.
fn numbered(number: u64, why: Or<InputWhy>) -> Or<Refused>
    ensures { result ≡ numbered number why }
{
    match why {
        Or::Fault(why) => Or::Fault(Refused::Message { number, why }),
        Or::NoMemory => Or::NoMemory,
    }
}

/// What an input leaves at a node of a network: gRPC messages, one behind the other (gRPC over HTTP/2,
/// "Length-Prefixed-Message"). Lines are told where `tells`.
///
/// Errors: `Refused::Message` with the number of the first message that is refused and, as the first that applies,
/// `Compressed`, `TooLong` (more than 67,108,864 bytes), `CutShort` or `NotAResponse`; and `NoMemory`.
pub fn read_input(
    alloc: Global,
    network: Text,
    node: Text,
    tells: bool,
    input: &[u8],
) -> Result<Left, Or<Refused>>
    ensures { Answers result (left_by tells network node input.now) }
{
    let mut left = Left {
        held: Held::new(alloc, network, node, OwnDoors::none()),
        told: Vec::new(alloc),
    };
    let mut bytes = input;
    let mut number = 1u64;
    while !bytes.is_empty() {
        match left.take_front(alloc, tells, bytes) {
            Ok(taken) => bytes = behind(bytes, taken),
            Err(why) => return Err(numbered(number, why)),
        }
        number += 1;
    }
    Ok(left)
}
