// The serial frame of MCTP (DSP0253): the bytes that it gives a meaning, and the frame writer.
#![tactic(auto)]

mod error;
mod frame;
mod wire;

pub use error::FrameError;
pub use frame::frame_to_serial;
pub use wire::{
    ESCAPE_ESCAPED, FLAG_ESCAPED, FRAMING_ESCAPE, FRAMING_FLAG, MCTP_SERIAL_REVISION, PACKET_MOST,
};
