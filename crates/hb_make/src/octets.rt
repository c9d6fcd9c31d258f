//! The octets of a made script.

ghost use Rattle.std.specs.Prelude.{◌≡◌, ◌++◌, ◌≤◌, length, codes};
ghost use Rattle.hb_frames.specs.Numbers.{first_frame_size};
ghost use Rattle.hb_make.specs.Octets.{answered, workloads, policies, changed_policies, front, preface, settings_frame, connect};

/// What a control plane sends first: a SETTINGS frame, and the status 200 of stream 1.
#[tactic(auto, unfolding(crate::specs::Octets::answered))]
pub(crate) fn answered() -> &'static [u8]
    ensures { result.now ≡ answered }
{
    b"\0\0\0\x04\0\0\0\0\0\0\0\x01\x01\x04\0\0\0\x01\x88"
}

/// The response with the workload, a message of gRPC.
#[tactic(auto, unfolding(crate::specs::Octets::workloads, hb_base::specs::Groups::groups_of))]
pub(crate) fn workloads() -> &'static [u8]
    ensures value { result.now ≡ workloads }
    ensures short { length result.now ≤ first_frame_size }
{
    b"\0\0\0\0\x8a\x12X\n\x011\x12O\n*type.googleapis.com/istio.workload.Address\
\x12!\n\x1f\n\x03web\x12\x01a\x1a\x04\n\0\0\x07(\x01J\x02n1\x82\x01\x03a/p\xa2\x01\x02u1\x1a\x02u1\
\"*type.googleapis.com/istio.workload.Address*\x02x1"
}

/// The response with the policy that allows the peer.
#[tactic(auto, unfolding(crate::specs::Octets::policies, hb_base::specs::Groups::groups_of))]
pub(crate) fn policies() -> &'static [u8]
    ensures value { result.now ≡ policies }
    ensures short { length result.now ≤ first_frame_size }
{
    b"\0\0\0\0\x9f\x12g\n\x011\x12]\n0type.googleapis.com/istio.security.Authorization\
\x12)\n\x01p\x12\x01a\x18\x02*\x1f\x12\x1d\x12\x1b\x1a\x19\n\x17cluster.local/ns/a/sa/c\x1a\x03a/p\
\"0type.googleapis.com/istio.security.Authorization*\x02x2"
}

/// The response with the policy that allows the port 9090 alone.
#[tactic(auto, unfolding(crate::specs::Octets::changed_policies, hb_base::specs::Groups::groups_of))]
pub(crate) fn changed_policies() -> &'static [u8]
    ensures value { result.now ≡ changed_policies }
    ensures short { length result.now ≤ first_frame_size }
{
    b"\0\0\0\0\x88\x12P\n\x012\x12F\n0type.googleapis.com/istio.security.Authorization\
\x12\x12\n\x01p\x12\x01a\x18\x02*\x08\x12\x06\x12\x04J\x02\x82G\x1a\x03a/p\
\"0type.googleapis.com/istio.security.Authorization*\x02x7"
}

/// The header of a front with the identity of the peer, the preface of a client, and a SETTINGS frame.
#[tactic(auto, unfolding(crate::specs::Octets::front, crate::specs::Octets::preface))]
pub(crate) fn client() -> &'static [u8]
    ensures { result.now ≡ front ++ preface ++ settings_frame }
{
    b"\r\n\r\n\0\r\nQUIT\n!\x11\0/\n\0\0\x09\n\0\0\x07\x0f\xa0:\xa0\xe0\0 spiffe://\
cluster.local/ns/a/sa/cPRI * HTTP/2.0\r\n\r\nSM\r\n\r\n\0\0\0\x04\0\0\0\0\0"
}

/// The request for a tunnel to the port 8080.
#[tactic(auto, unfolding(crate::specs::Octets::connect))]
pub(crate) fn request_8080() -> &'static [u8]
    ensures { result.now ≡ connect (codes "10.0.0.7:8080") }
{
    b"\0\0\x18\x01\x04\0\0\0\x01\x02\x07CONNECT\x01\r10.0.0.7:8080"
}

/// The request for a tunnel to the port 9090.
#[tactic(auto, unfolding(crate::specs::Octets::connect))]
pub(crate) fn request_9090() -> &'static [u8]
    ensures { result.now ≡ connect (codes "10.0.0.7:9090") }
{
    b"\0\0\x18\x01\x04\0\0\0\x01\x02\x07CONNECT\x01\r10.0.0.7:9090"
}
