// The I2C binding of MCTP (DSP0237): a packet into an SMBus block write and back, with or without its packet error code.
#![tactic(auto)]

mod decoder;
mod encoder;
mod wire;

pub use decoder::{DecodeError, decode, payload};
pub use encoder::{EncodeError, encode};
