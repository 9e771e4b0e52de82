// The USB binding of MCTP (DSP0283 1.0.1): a packet's header and its decode. The crate `transfer` has builder and walker.
#![tactic(auto)]

mod decoder;
mod head;
mod wire;

pub use decoder::{DecodeError, decode, packet, remainder};
pub use head::{HeaderError, header};
pub use wire::{HDR_LEN, MCTP_USB_MTU_MAX};
