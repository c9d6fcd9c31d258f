//! Values under names, with what stood there before they were changed, and with an index by their numbers.
#![tactic(auto)]

mod by_name;
mod index;
mod indexed;
mod kept;
mod numbered;

pub use by_name::ByName;
pub use index::Index;
pub use indexed::Indexed;
pub use kept::Kept;
pub use numbered::Numbered;
