// What DSP0253 gives a meaning on the line: the bytes, and how many a packet that is sent has.
pub const FRAMING_FLAG: u8 = 0x7e;

pub const FRAMING_ESCAPE: u8 = 0x7d;

pub const FLAG_ESCAPED: u8 = 0x5e;

pub const ESCAPE_ESCAPED: u8 = 0x5d;

pub const MCTP_SERIAL_REVISION: u8 = 0x01;

// A packet that is sent has so many bytes at least, and at most.
pub const PACKET_LEAST: usize = 5;

pub const PACKET_MOST: usize = 255;
