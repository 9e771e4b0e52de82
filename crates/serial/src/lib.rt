// The receiver of the serial binding of MCTP (DSP0253): a byte a step, and a taker over a lent input.
#![tactic(auto)]

mod receiver;
mod rows;
mod taker;

pub use receiver::{Inconsistent, Position, Receiver, STORED_SIZE, Stepped, UnknownPosition};
pub use taker::{Stop, TakeError, Taken};
