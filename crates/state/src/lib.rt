// A serial receiver's state as bytes in a lent buffer, for callers that keep it between calls and cannot hold a `Receiver`: `specs/State.antt` has the
// layout. A fresh state is zeros.
#![tactic(auto)]

mod buffer;
mod kept;

pub use buffer::{PACKET_AT, STATE_SIZE, load, store};
pub use kept::{Took, step, take};
