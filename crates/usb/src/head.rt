// The header before a packet.
ghost use Rattle.std.specs.Prelude.{◌≡◌, length};
ghost use Rattle.usb.specs.Header.{header_answer, header_error_number, header_output, headed_answer};

use crate::wire::{FIRST_BYTE, HDR_LEN, MCTP_USB_MTU_MAX, SECOND_BYTE};

// Why header refuses.
#[derive(Clone, Copy, Debug, PartialEq, Eq, Hash)]
pub enum HeaderError {
    BadPacket,
}

// The number of the refusal (document 01, 'Numbers given back').
impl From<HeaderError> for u32 {
    ghost from_gives = { λ refused number. number ≡ header_error_number refused };

    fn from(refused: HeaderError) -> u32 {
        match refused {
            HeaderError::BadPacket => 6,
        }
    }
}

// Writes the header of a packet of `size` bytes. It refuses a lent header that has not 4 bytes, and a packet over 251 bytes (BadPacket, number 6); then
// nothing is written.
pub fn header(size: usize, out: &mut [u8]) -> Result<(), HeaderError>
    ensures result_value { headed_answer result ≡ header_answer size (length out.old) }
    ensures out_after { out.new ≡ header_output result size out.old }
{
    if out.len() != HDR_LEN || size > MCTP_USB_MTU_MAX {
        return Err(HeaderError::BadPacket);
    }
    // Byte by byte: `copy_from_slice` looks whether the two overlap, and costs a header half as much time again.
    out[0] = FIRST_BYTE;
    out[1] = SECOND_BYTE;
    out[2] = 0;
    out[3] = (size + HDR_LEN) as u8;
    Ok(())
}
