//! Messages that are sent.

ghost use Rattle.std.specs.Prelude.{◌≡◌, ◌<◌, ◌^◌, ◌++◌, length, OnOk, OnErr};
ghost use Rattle.hb_grpc.specs.Message.{spelling, IsFront};

use hb_base::NoMemory;
use std::alloc::Global;

/// Appends the message as it is sent, uncompressed (gRPC over HTTP/2, "Length-Prefixed-Message").
///
/// Errors: `NoMemory`, and then a front of it may have been appended.
pub fn put_message(_alloc: Global, m: &[u8], out: &mut Vec<u8>) -> Result<(), NoMemory>
    requires { length m.now < 2 ^ 32 }
    ensures ok { OnOk result (out.new.items ≡ out.old.items ++ spelling m.now) }
    ensures err { OnErr result (IsFront out.old.items (spelling m.now) out.new.items) }
{
    out.push(0)?;
    out.extend_from_slice(&(m.len() as u32).to_be_bytes())?;
    out.extend_from_slice(m)
}
