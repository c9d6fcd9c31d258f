//! Why a peer was refused.

use hb_base::Text;

/// Why the policies held deny a peer: an audit is told it beside the note of its 401.
#[derive(Clone, Copy)]
pub enum Reason<'a> {
    /// This policy denies and fires: of those the first, in the order of the resources' names.
    DeniedBy { namespace: &'a Text, name: &'a Text },
    /// None that denies fires, and none of so many that allow.
    NoneAllows(usize),
}
