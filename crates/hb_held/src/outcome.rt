//! What a response did to the resources held.

use hb_base::{List, Text};
use hb_disco::Kind;
use hb_records::RecordFault;
use thiserror::Error;

/// Why a resource is refused, in this order of looking.
#[derive(Clone, Copy, Debug, Error)]
pub enum RefusedWhy {
    #[error("no name")]
    NoName,
    /// Its type isn't that of its response.
    #[error("wrong type")]
    WrongType,
    /// Its record can't be read.
    #[error("{0}")]
    Record(RecordFault),
    /// 65,536 resources are held in both kinds together, and none of its kind has its name.
    #[error("full")]
    Full,
}

/// A resource that was refused.
#[derive(Drop)]
pub struct Refusal {
    pub name: Text,
    pub why: RefusedWhy,
}

/// A resource that was removed, added or replaced.
#[derive(Drop)]
pub struct Changed {
    pub kind: Kind,
    pub name: Text,
}

/// What a response did.
#[derive(Drop)]
pub struct Outcome {
    /// The resources that were refused, in order.
    pub refused: List<Refusal>,
    /// The names that were removed, and then those that were applied, in order.
    pub changed: List<Changed>,
    /// How many resources weren't refused.
    pub applied: u64,
    /// How many of the names to be removed were held.
    pub removed: u64,
}
