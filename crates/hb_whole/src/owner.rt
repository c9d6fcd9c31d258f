//! Whose a link is.

/// The part of the proxy that the link of a number is of.
#[derive(Clone, Copy)]
pub(crate) enum Owner {
    /// The link to the control plane.
    Control,
    /// A plain link, the upstream of one, or a link to a gateway.
    Plain,
    /// An inbound link, or the upstream of a tunnel of one. Also one that is nobody's.
    Inbound,
}
