// What DSP0237 fixes of a frame.
pub(crate) const MCTP_I2C_COMMAND_CODE: u8 = 0x0f;

// destination, command code, byte count, source
pub(crate) const MCTP_I2C_HEADER: usize = 4;

// the byte count is one byte, and counts the source too
pub(crate) const MCTP_I2C_MAXMTU: usize = 254;

// an address has 7 bits
pub(crate) const ADDRESS_MAX: u8 = 127;
