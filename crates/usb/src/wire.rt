// What DSP0283 fixes of a header and its packet.
pub(crate) const FIRST_BYTE: u8 = 0x1a;

pub(crate) const SECOND_BYTE: u8 = 0xb4;

pub const HDR_LEN: usize = 4;

// the length byte counts header and packet
pub const MCTP_USB_MTU_MAX: usize = 251;
