//! Why a link is there.

/// At which door a link was accepted.
#[derive(Clone, Copy)]
pub enum Door {
    /// HBONE from other nodes: HTTP/2 CONNECT.
    Inbound,
    /// Plain bytes of this node's workloads, on their way out.
    Outbound,
    /// Plain bytes for this node's workloads.
    Plain,
}

/// Why a link was dialled.
#[derive(Clone, Copy)]
pub enum Why {
    /// The link to discovery.
    Discovery,
    /// The target of a CONNECT that came on this stream of this link.
    Upstream { link: u64, stream: u32 },
    /// The target of this plain link.
    Plain { link: u64 },
    /// The target of this outbound link, without a gateway.
    Direct { link: u64 },
    /// A gateway, first for this outbound link.
    Gateway { link: u64 },
}
