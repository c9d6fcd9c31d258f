//! What a look-up finds.

use hb_base::Text;
use hb_records::{Service, Workload};

/// A workload, and its resource's name.
#[derive(Drop)]
pub struct Found<'a> {
    pub name: &'a Text,
    pub workload: &'a Workload,
}

/// A service, and its resource's name.
#[derive(Drop)]
pub struct FoundService<'a> {
    pub name: &'a Text,
    pub service: &'a Service,
}
