// Transfers of the USB binding of MCTP (DSP0283 1.0.1): a builder that appends packets to one, and a walker over one.
#![tactic(auto)]

mod builder;
mod walker;

pub use builder::{AppendError, append};
pub use walker::{Walker, part_at, place_after, walk_at};
